//! Scans: the rows that a predicate takes, partition by partition.

ghost use Rattle.std.specs.Prelude.{◌≡◌, ◌++◌, All, IfOk, OnOk, Some};
ghost use Rattle.tt_value.specs.values.RowText.{IsPrintable};
ghost use Rattle.tt_partition.specs.Cuts.{kinds_of};
ghost use Rattle.tt_scan.specs.Held as spec;
ghost use Rattle.tt_state.specs.Held.{rows_held};
ghost use Rattle.tt_scan.specs.Held.{IsOfItsSchema, rows_taken};

use crate::picking::{append_chosen, is_part};
use std::alloc::{AllocError, Global};
use tt_filter::select;
use tt_partition::Partition;
use tt_state::Seen;
use tt_value::{Predicate, Row, Schema};
use tt_zone::{TruthSet, possible};

fn append_all(partition: &Partition, rows: &mut Vec<Row>) -> Result<(), AllocError>
    ensures { OnOk result (rows.new.items ≡ rows.old.items ++ partition.now.rows) }
{
    let mut found = partition.rows()?;
    rows.append(&mut found)?;
    Ok(())
}

fn append_selected(
    alloc: Global,
    schema: &Schema,
    partition: &Partition,
    predicate: &Predicate,
    rows: &mut Vec<Row>,
) -> Result<(), AllocError>
    requires { partition.now.kinds ≡ kinds_of schema.now }
    ensures { OnOk result (rows.new.items
        ≡ rows.old.items ++ rows_taken schema.now (Some predicate.now) partition.now.rows) }
{
    let bits = select(alloc, schema, partition, predicate)?;
    append_chosen(alloc, partition, &bits, rows)
}

/// A partition whose zones say that no row may match is not read, and where they say that each one does the
/// predicate is not asked.
fn append_where(
    alloc: Global,
    schema: &Schema,
    partition: &Partition,
    predicate: &Predicate,
    rows: &mut Vec<Row>,
) -> Result<(), AllocError>
    requires { partition.now.kinds ≡ kinds_of schema.now }
    ensures { OnOk result (rows.new.items
        ≡ rows.old.items ++ rows_taken schema.now (Some predicate.now) partition.now.rows) }
{
    let truths = possible(schema, partition.zones(), predicate);
    if !truths.has_true {
        return Ok(());
    }
    if is_sure(truths) {
        append_all(partition, rows)
    } else {
        append_selected(alloc, schema, partition, predicate, rows)
    }
}

/// Nothing but true is possible.
pub fn is_sure(truths: TruthSet) -> bool
    ensures { result ≡ spec.is_sure truths }
{
    !truths.has_false && !truths.has_unknown
}

fn append_taken(
    alloc: Global,
    schema: &Schema,
    partition: &Partition,
    filter: &Option<Predicate>,
    rows: &mut Vec<Row>,
) -> Result<(), AllocError>
    requires { partition.now.kinds ≡ kinds_of schema.now }
    ensures { OnOk result (rows.new.items
        ≡ rows.old.items ++ rows_taken schema.now filter.now partition.now.rows) }
{
    match filter {
        None => append_all(partition, rows),
        Some(predicate) => append_where(alloc, schema, partition, predicate, rows),
    }
}

/// The rows of the table's partitions that a predicate takes, or all where there is none: partition by partition, each
/// in the order of its rows. Besides the answer the decoded values of one partition are held at a time.
pub fn scan(alloc: Global, seen: &Seen, filter: &Option<Predicate>) -> Result<Vec<Row>, AllocError>
    requires { IsOfItsSchema seen.now }
    ensures rows { IfOk result (λ rows. rows.items ≡ rows_taken seen.now.schema filter.now (rows_held seen.now)) }
    ensures printable { IfOk result (λ rows. All IsPrintable rows.items) }
{
    let mut rows = Vec::new(alloc);
    for part in seen.parts.items() {
        let partition = part.1.partition();
        is_part(partition);
        append_taken(alloc, &seen.schema, partition, filter, &mut rows)?;
    }
    Ok(rows)
}
