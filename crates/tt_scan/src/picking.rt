//! Rows made of the decoded columns of a partition, at the places that bits choose.

ghost use Rattle.std.specs.Prelude.{◌≡◌, ◌++◌, ◌<◌, IfOk, OnOk, length, map, slice_get};
ghost use Rattle.std.specs.List.{AllByRecursion};
ghost use Rattle.tt_value.specs.declared.value.Kind.TheVariants as kinds;
ghost use Rattle.tt_value.specs.trees.Scope.{value_or_null};
ghost use Rattle.tt_zone.specs.Zones.{column_at as values_at};
ghost use Rattle.tt_partition.specs.ColumnView.{joined, column_values, IsValues};
ghost use Rattle.tt_partition.specs.ImageReading.{number_value, text_value};
ghost use Rattle.tt_partition.specs.Table.{IsOf, IsPart, row_of, rows_by};
ghost use Rattle.tt_scan.specs.Chosen.{chosen, if_set, AreColumnsOf};

use std::alloc::{AllocError, Global};
use tt_bits::Bits;
use tt_partition::{ColumnValues, Partition};
use tt_textcol::TextRef;
use tt_value::{Row, Sequence, Value};

fn number_at(numbers: &[Option<i64>], at: usize) -> Option<i64>
    ensures { result ≡ joined (slice_get numbers.now at) }
{
    match numbers.get(at) {
        None => None,
        Some(number) => *number,
    }
}

fn int_value(number: Option<i64>) -> Value
    ensures { result ≡ number_value kinds.Int number }
{
    match number {
        None => Value::Null,
        Some(number) => Value::Int(number),
    }
}

fn date_value(day: Option<i64>) -> Value
    requires { IsOf kinds.Date (number_value kinds.Date day) }
    ensures { result ≡ number_value kinds.Date day }
{
    match day {
        None => Value::Null,
        Some(day) => Value::Date(day as i32),
    }
}

/// The text at a place. It is copied.
fn text_at(alloc: Global, texts: &[Option<TextRef<'_>>], at: usize) -> Result<Value, AllocError>
    ensures { IfOk result (λ v. v ≡ text_value (joined (slice_get texts.now at))) }
{
    match texts.get(at) {
        None => Ok(Value::Null),
        Some(None) => Ok(Value::Null),
        Some(Some(text)) => Ok(Value::Text(text.to_text(alloc)?)),
    }
}

/// The value at a place of a column; NULL past its end.
#[tactic(auto, using(tt_partition::proofs::Picks::int_picked, tt_partition::proofs::Picks::date_picked, tt_partition::proofs::Picks::text_picked, tt_partition::proofs::Picks::date_is))]
fn value_at(alloc: Global, column: &ColumnValues<'_>, at: usize) -> Result<Value, AllocError>
    requires { IsValues column.now }
    ensures { IfOk result (λ v. v ≡ value_or_null (slice_get (column_values column.now) at)) }
{
    match column {
        ColumnValues::Ints(numbers) => Ok(int_value(number_at(numbers.items(), at))),
        ColumnValues::Dates(days) => Ok(date_value(number_at(days.items(), at))),
        ColumnValues::Texts(texts) => text_at(alloc, texts.items(), at),
    }
}

/// The row at a place of columns.
fn row_at(alloc: Global, columns: &[ColumnValues<'_>], at: usize) -> Result<Row, AllocError>
    requires { AllByRecursion IsValues columns.now }
    ensures { IfOk result (λ row. row ≡ row_of (map column_values columns.now) at) }
{
    let mut values = Vec::with_capacity(alloc, columns.len())?;
    for column in columns {
        let value = value_at(alloc, column, at)?;
        values.push(value)?;
    }
    Ok(Row {
        values: Sequence::from_vec(values),
    })
}

/// A partition holds no other values than those of its kinds.
pub fn is_part(partition: &Partition)
    ensures { IsPart partition.now }
{
    let _image = partition.image();
}

/// The column at a place, whose values are of its kind.
fn column_at(partition: &Partition, place: usize) -> Result<ColumnValues<'_>, AllocError>
    requires { place < length partition.now.kinds }
    ensures values { IfOk result (λ column. column_values column ≡ values_at place partition.now.rows) }
    ensures kind { IfOk result IsValues }
{
    is_part(partition);
    let column = partition.column(place)?;
    Ok(column)
}

/// All columns, decoded.
fn all_columns(alloc: Global, partition: &Partition) -> Result<Vec<ColumnValues<'_>>, AllocError>
    ensures { IfOk result (λ columns. AreColumnsOf partition.now columns.items) }
{
    let mut columns = Vec::with_capacity(alloc, partition.column_count())?;
    for place in 0..partition.column_count() {
        let column = column_at(partition, place)?;
        columns.push(column)?;
    }
    Ok(columns)
}

fn append_if_set(
    alloc: Global,
    columns: &[ColumnValues<'_>],
    bit: Option<bool>,
    at: usize,
    rows: &mut Vec<Row>,
) -> Result<(), AllocError>
    requires { AllByRecursion IsValues columns.now }
    ensures { OnOk result (rows.new.items ≡ rows.old.items ++ if_set bit (row_of (map column_values columns.now) at)) }
{
    if let Some(true) = bit {
        let row = row_at(alloc, columns, at)?;
        rows.push(row)?;
    }
    Ok(())
}

/// Adds the rows of these columns whose bits are set, in their order. The others are not made.
fn append_rows(
    alloc: Global,
    columns: &[ColumnValues<'_>],
    bits: &Bits,
    rows: &mut Vec<Row>,
) -> Result<(), AllocError>
    requires { AllByRecursion IsValues columns.now }
    ensures { OnOk result (rows.new.items
        ≡ rows.old.items ++ chosen bits.now (rows_by (length bits.now) (map column_values columns.now))) }
{
    for at in 0..bits.len() {
        append_if_set(alloc, columns, bits.get(at), at, rows)?;
    }
    Ok(())
}

/// Adds the rows of a partition whose bits are set, in their order. Where none is, nothing is decoded.
pub fn append_chosen(
    alloc: Global,
    partition: &Partition,
    bits: &Bits,
    rows: &mut Vec<Row>,
) -> Result<(), AllocError>
    requires { length bits.now ≡ length partition.now.rows }
    ensures { OnOk result (rows.new.items ≡ rows.old.items ++ chosen bits.now partition.now.rows) }
{
    if bits.count() == 0 {
        return Ok(());
    }
    is_part(partition);
    let columns = all_columns(alloc, partition)?;
    append_rows(alloc, &columns, bits, rows)
}
