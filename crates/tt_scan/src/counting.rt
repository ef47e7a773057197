//! How many rows a predicate takes. No row is made.

ghost use Rattle.std.specs.Prelude.{◌≡◌, ◌+◌, IfOk, Some, length};
ghost use Rattle.tt_partition.specs.Cuts.{kinds_of};
ghost use Rattle.tt_scan.specs.Held.{IsOfItsSchema, rows_taken};
ghost use Rattle.tt_state.specs.Held.{rows_held};

use crate::scanning::is_sure;
use std::alloc::{AllocError, Global};
use tt_filter::select;
use tt_partition::Partition;
use tt_state::Seen;
use tt_value::{Predicate, Schema};
use tt_zone::possible;

fn count_all(partition: &Partition) -> usize
    ensures { result ≡ length partition.now.rows }
{
    partition.row_count() as usize
}

fn count_selected(
    alloc: Global,
    schema: &Schema,
    partition: &Partition,
    predicate: &Predicate,
) -> Result<usize, AllocError>
    requires { partition.now.kinds ≡ kinds_of schema.now }
    ensures { IfOk result (λ count. count ≡ length (rows_taken schema.now (Some predicate.now) partition.now.rows)) }
{
    let bits = select(alloc, schema, partition, predicate)?;
    Ok(bits.count())
}

/// Nothing is decoded where the zones say that no row matches, or that each one does.
fn count_where(
    alloc: Global,
    schema: &Schema,
    partition: &Partition,
    predicate: &Predicate,
) -> Result<usize, AllocError>
    requires { partition.now.kinds ≡ kinds_of schema.now }
    ensures { IfOk result (λ count. count ≡ length (rows_taken schema.now (Some predicate.now) partition.now.rows)) }
{
    let truths = possible(schema, partition.zones(), predicate);
    if !truths.has_true {
        return Ok(0);
    }
    if is_sure(truths) {
        Ok(count_all(partition))
    } else {
        count_selected(alloc, schema, partition, predicate)
    }
}

fn count_taken(
    alloc: Global,
    schema: &Schema,
    partition: &Partition,
    filter: &Option<Predicate>,
) -> Result<usize, AllocError>
    requires { partition.now.kinds ≡ kinds_of schema.now }
    ensures { IfOk result (λ count. count ≡ length (rows_taken schema.now filter.now partition.now.rows)) }
{
    match filter {
        None => Ok(count_all(partition)),
        Some(predicate) => count_where(alloc, schema, partition, predicate),
    }
}

/// The sum, if a `usize` can hold it.
fn sum(count: usize, more: usize) -> Result<usize, AllocError>
    ensures { IfOk result (λ sum. sum ≡ count + more) }
{
    match count.checked_add(more) {
        Some(sum) => Ok(sum),
        None => Err(AllocError),
    }
}

/// How many rows of the table's partitions a predicate takes, or how many there are where there is none. Without a
/// predicate nothing is decoded. More than a `usize` can hold is answered as want of memory.
pub fn count(alloc: Global, seen: &Seen, filter: &Option<Predicate>) -> Result<usize, AllocError>
    requires { IsOfItsSchema seen.now }
    ensures { IfOk result (λ count. count ≡ length (rows_taken seen.now.schema filter.now (rows_held seen.now))) }
{
    let mut count = 0;
    for part in seen.parts.items() {
        let more = count_taken(alloc, &seen.schema, part.1.partition(), filter)?;
        count = sum(count, more)?;
    }
    Ok(count)
}
