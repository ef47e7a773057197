//! Laws of zones and of what they tell. They compute nothing.

ghost use Rattle.std.specs.Prelude.{List};
ghost use Rattle.tt_value.specs.declared.value.Value.{Value};
ghost use Rattle.tt_value.specs.declared.value.Schema.{Schema};
ghost use Rattle.tt_value.specs.declared.value.Row.{Row};
ghost use Rattle.tt_value.specs.declared.predicate.Predicate.{Predicate};
ghost use Rattle.tt_zone.specs.Possible.{LeavesEachTruth, PrunesOnlyMisses};
ghost use Rattle.tt_zone.specs.Zones.{zone_of, IsZoneOf};

/// The zone of a column of values: each value lies between its least and its greatest, or is one of its NULLs,
/// and the least and the greatest are values of the column.
pub fn zones_are_true()
    ensures { (values : List Value) → IsZoneOf values (zone_of values) }
{}

/// The truth value of a predicate on each row is among those that the rows' true zones leave possible. So where
/// they say that no row may match, none does.
pub fn zones_leave_each_truth()
    ensures possible { (s : Schema) (rows : List Row) (p : Predicate) → LeavesEachTruth s rows p }
    ensures pruned { (s : Schema) (rows : List Row) (p : Predicate) → PrunesOnlyMisses s rows p }
{}
