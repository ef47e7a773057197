//! Which truth values a predicate may have on the rows of a partition, and whether one of them may match.

ghost use Rattle.std.specs.Prelude.{◌≡◌};
ghost use Rattle.tt_value.specs.trees.Scope.{table_scope};
ghost use Rattle.tt_zone.specs.Possible as spec;
ghost use Rattle.tt_zone.specs.Possible.{between_possible as between};
ghost use Rattle.tt_zone.specs.Sides.{literal_compared, no_kind};
ghost use Rattle.tt_zone.specs.TruthSets.{not_set_if};

use crate::conditions::{begins, comparison, null};
use crate::sides::{Side, side_of, span_of_column, span_of_side, zone_of};
use crate::truth_set::TruthSet;
use crate::zone::Zone;
use tt_value::{Comparison, Conjunction, Literal, Operand, Predicate, Schema, Unit};

#[inline(always)]
fn negated_if(negated: bool, set: TruthSet) -> TruthSet
    ensures { result ≡ not_set_if negated set }
{
    if negated { set.negated() } else { set }
}

#[inline(always)]
fn in_comparison(
    schema: &Schema,
    zones: &[Zone],
    left: &Operand,
    sign: Comparison,
    right: &Operand,
) -> TruthSet
    ensures { result
        ≡ spec.comparison_possible (table_scope schema.now) zones.now left.now sign right.now }
{
    comparison(
        &side_of(schema, zones, left),
        sign,
        &side_of(schema, zones, right),
    )
}

/// The same with a literal on the right, where the left side is known.
#[inline(always)]
fn beside_literal(left: &Side<'_>, sign: Comparison, right: &Literal) -> TruthSet
    ensures { result ≡ literal_compared left.now sign right.now }
{
    comparison(left, sign, &Side::Literal(&right.value))
}

fn in_list(schema: &Schema, zones: &[Zone], operand: &Operand, literals: &[Literal]) -> TruthSet
    ensures { result
        ≡ spec.in_possible (table_scope schema.now) zones.now operand.now literals.now }
{
    let left = side_of(schema, zones, operand);
    let mut found = TruthSet {
        has_true: false,
        has_false: true,
        has_unknown: false,
    };
    for literal in literals {
        found = found.or(beside_literal(&left, Comparison::Equal, literal));
    }
    found
}

fn in_bounds(
    schema: &Schema,
    zones: &[Zone],
    operand: &Operand,
    least: &Literal,
    greatest: &Literal,
) -> TruthSet
    ensures { result
        ≡ between (table_scope schema.now) zones.now operand.now least.now greatest.now }
{
    let left = side_of(schema, zones, operand);
    let above = beside_literal(&left, Comparison::GreaterOrEqual, least);
    let below = beside_literal(&left, Comparison::LessOrEqual, greatest);
    above.and(below)
}

fn in_null(schema: &Schema, zones: &[Zone], operand: &Operand) -> TruthSet
    ensures { result
        ≡ spec.null_in (spec.operand_span (table_scope schema.now) zones.now no_kind operand.now) }
{
    null(&span_of_side(&side_of(schema, zones, operand), &None))
}

#[cycle(possible)]
fn in_predicate(schema: &Schema, zones: &[Zone], predicate: &Predicate) -> TruthSet
    ensures { result ≡ spec.possible (table_scope schema.now) zones.now predicate.now }
{
    let mut found = in_conjunction(schema, zones, &predicate.first);
    for conjunction in predicate.others.as_slice() {
        found = found.or(in_conjunction(schema, zones, conjunction));
    }
    found
}

#[cycle(possible)]
fn in_conjunction(schema: &Schema, zones: &[Zone], conjunction: &Conjunction) -> TruthSet
    ensures { result
        ≡ spec.possible_of_conjunction (table_scope schema.now) zones.now conjunction.now }
{
    let mut found = in_unit(schema, zones, &conjunction.first);
    for unit in conjunction.others.as_slice() {
        found = found.and(in_unit(schema, zones, unit));
    }
    found
}

#[cycle(possible)]
fn in_unit(schema: &Schema, zones: &[Zone], unit: &Unit) -> TruthSet
    ensures { result ≡ spec.possible_of_unit (table_scope schema.now) zones.now unit.now }
{
    match unit {
        Unit::Not(unit) => in_unit(schema, zones, unit.get()).negated(),
        Unit::Bracket(predicate) => in_predicate(schema, zones, predicate.get()),
        Unit::Compare(left, sign, right) => in_comparison(schema, zones, left, *sign, right),
        Unit::IsNull(operand, negated) => negated_if(*negated, in_null(schema, zones, operand)),
        Unit::In(operand, negated, literals) => negated_if(
            *negated,
            in_list(schema, zones, operand, literals.as_slice()),
        ),
        Unit::Between(operand, negated, least, greatest) => negated_if(
            *negated,
            in_bounds(schema, zones, operand, least, greatest),
        ),
        Unit::StartsWith(column, front) => begins(
            &span_of_column(zone_of(schema, zones, column)),
            &front.text,
        ),
    }
}

/// The truth values that a predicate may have on the rows of a partition with these zones, one for each column
/// of the schema. A column that is not there is NULL. Takes no memory.
pub fn possible(schema: &Schema, zones: &[Zone], predicate: &Predicate) -> TruthSet
    ensures { result ≡ spec.possible (table_scope schema.now) zones.now predicate.now }
{
    in_predicate(schema, zones, predicate)
}

/// Whether a row of a partition with these zones may match the predicate. Where it may not, none does. Takes no
/// memory.
pub fn may(schema: &Schema, zones: &[Zone], predicate: &Predicate) -> bool
    ensures { result ≡ spec.may_match schema.now zones.now predicate.now }
{
    possible(schema, zones, predicate).has_true
}
