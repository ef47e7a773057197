//! What a change that takes rows leaves of a part.

ghost use Rattle.std.specs.Prelude.{◌≡◌, ◌+◌, ◌++◌, IfOk, OnOk, length};
ghost use Rattle.tt_value.specs.trees.Predicates.{takes};
ghost use Rattle.tt_value.specs.trees.Scope.{table_scope};
ghost use Rattle.tt_partition.specs.Cuts.{kinds_of};
ghost use Rattle.tt_partition.specs.Fits.{FitSchema};
ghost use Rattle.tt_partition.specs.Table.{IsPart};
ghost use Rattle.tt_rewrite.specs.Left.{AddsOthers, count_set, unless_set, unset};

use crate::taking::{may_take, taken_bits};
use std::alloc::{AllocError, Global};
use tt_bits::Bits;
use tt_partition::Partition;
use tt_value::{Predicate, Row, Schema, Sequence};

/// What is left of some parts of which rows are taken: the numbers of the parts that go, the rows of these parts that
/// stay, and the count of the rows that are taken.
#[derive(Drop)]
pub struct Left {
    pub gone: Sequence<u64>,
    pub rows: Sequence<Row>,
    pub count: u64,
}

fn append_unless_set(
    bit: Option<bool>,
    row: Row,
    rows: &mut Sequence<Row>,
) -> Result<(), AllocError>
    ensures { OnOk result (rows.new ≡ rows.old ++ unless_set bit row) }
{
    if let Some(true) = bit {
        return Ok(());
    }
    rows.push(row)
}

// Adds the rows whose bits are not set, in their order. None is copied.
#[tactic(auto, using(crate::proofs::Bits::unset_next))]
fn append_unset(found: Vec<Row>, bits: &Bits, rows: &mut Sequence<Row>) -> Result<(), AllocError>
    requires { length found.items ≡ length bits.now }
    ensures { OnOk result (rows.new ≡ rows.old ++ unset bits.now found.items) }
{
    let mut at = 0;
    for row in found {
        append_unless_set(bits.get(at), row, rows)?;
        at += 1;
    }
    Ok(())
}

// A part that is kept holds rows of its kinds.
pub fn holds_rows(partition: &Partition)
    ensures { IsPart partition.now }
{
    let _image = partition.image();
}

// The rows of a part that stay. Where so many are taken as there are, the part is not read.
fn append_others(
    partition: &Partition,
    bits: &Bits,
    count: usize,
    rows: &mut Sequence<Row>,
) -> Result<(), AllocError>
    requires bits { length bits.now ≡ length partition.now.rows }
    requires count { count ≡ count_set bits.now }
    ensures { OnOk result (rows.new ≡ rows.old ++ unset bits.now partition.now.rows) }
{
    if count == bits.len() {
        return Ok(());
    }
    let found = partition.rows()?;
    append_unset(found, bits, rows)
}

// Where the count does not fit 64 bits there is no room for it.
pub fn counted(count: u64, more: usize) -> Result<u64, AllocError>
    ensures { IfOk result (λ sum. sum ≡ count + more) }
{
    match count.checked_add(more as u64) {
        Some(sum) => Ok(sum),
        None => Err(AllocError),
    }
}

/// A part more. Where no row of it is taken, it stays as it is.
pub fn leave_part(
    alloc: Global,
    schema: &Schema,
    number: u64,
    partition: &Partition,
    filter: &Option<Predicate>,
    left: &mut Left,
) -> Result<(), AllocError>
    requires kinds { partition.now.kinds ≡ kinds_of schema.now }
    requires fit { FitSchema schema.now left.old.rows }
    ensures left { OnOk result
        (AddsOthers (takes (table_scope schema.now) filter.now) (number, partition.now) left.old left.new) }
    ensures fit { OnOk result (FitSchema schema.now left.new.rows) }
{
    holds_rows(partition);
    if !may_take(schema, partition, filter) {
        return Ok(());
    }
    let bits = taken_bits(alloc, schema, partition, filter)?;
    let count = bits.count();
    if count == 0 {
        return Ok(());
    }
    left.count = counted(left.count, count)?;
    left.gone.push(number)?;
    append_others(partition, &bits, count, &mut left.rows)
}
