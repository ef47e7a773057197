//! Which rows of a part a statement takes.

ghost use Rattle.std.specs.Prelude.{◌≡◌, IfOk, map};
ghost use Rattle.tt_value.specs.trees.Predicates.{takes};
ghost use Rattle.tt_value.specs.trees.Scope.{table_scope};
ghost use Rattle.tt_partition.specs.Cuts.{kinds_of};
ghost use Rattle.tt_scan.specs.Held.{may_take};

use std::alloc::{AllocError, Global};
use tt_bits::Bits;
use tt_filter::select;
use tt_partition::Partition;
use tt_value::{Predicate, Schema};
use tt_zone::may;

/// Whether the zones of a part leave it possible that a row is taken. Where there is no filter each row is.
pub fn may_take(schema: &Schema, partition: &Partition, filter: &Option<Predicate>) -> bool
    ensures { result ≡ may_take schema.now filter.now partition.now }
{
    match filter {
        None => true,
        Some(predicate) => may(schema, partition.zones(), predicate),
    }
}

/// A bit for each row of a part: whether it is taken.
pub fn taken_bits(
    alloc: Global,
    schema: &Schema,
    partition: &Partition,
    filter: &Option<Predicate>,
) -> Result<Bits, AllocError>
    requires { partition.now.kinds ≡ kinds_of schema.now }
    ensures { IfOk result (λ bits. bits ≡ map (takes (table_scope schema.now) filter.now) partition.now.rows) }
{
    match filter {
        None => Bits::filled(alloc, partition.row_count() as usize, true),
        Some(predicate) => select(alloc, schema, partition, predicate),
    }
}
