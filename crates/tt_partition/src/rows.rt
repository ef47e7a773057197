//! Rows from columns, and the zones of rows.

ghost use Rattle.std.specs.Prelude.{◌≡◌, ◌<◌, ◌^◌, length, map, slice_get, IfOk};
ghost use Rattle.std.specs.List.{AllByRecursion, range_with_len};
ghost use Rattle.tt_value.specs.trees.Scope.{value_or_null};
ghost use Rattle.tt_zone.specs.Zones.{zone_of, column_at};
ghost use Rattle.tt_partition.specs.Table.{IsOf, row_of, rows_by, zones_by};
ghost use Rattle.tt_value.specs.declared.value.Kind.TheVariants as kinds;
ghost use Rattle.tt_partition.specs.ImageReading.{number_value, text_value};
ghost use Rattle.tt_partition.specs.ColumnView.{joined, column_kind, column_values, column_view, IsValues};

use crate::column::ColumnValues;
use std::alloc::{AllocError, Global};
use tt_textcol::TextRef;
use tt_value::{Row, Sequence, Value};
use tt_zone::Zone;
use tt_zone::building::zone_of_rows;

fn number_at(numbers: &[Option<i64>], at: usize) -> Option<i64>
    ensures { result ≡ joined (slice_get numbers.now at) }
{
    match numbers.get(at) {
        None => None,
        Some(number) => *number,
    }
}

fn int_value(number: Option<i64>) -> Value
    ensures { result ≡ number_value kinds.Int number }
{
    match number {
        None => Value::Null,
        Some(number) => Value::Int(number),
    }
}

fn date_value(day: Option<i64>) -> Value
    requires { IsOf kinds.Date (number_value kinds.Date day) }
    ensures { result ≡ number_value kinds.Date day }
{
    match day {
        None => Value::Null,
        Some(day) => Value::Date(day as i32),
    }
}

/// The text at a place. It is copied.
fn text_at(alloc: Global, texts: &[Option<TextRef<'_>>], at: usize) -> Result<Value, AllocError>
    ensures { IfOk result (λ v. v ≡ text_value (joined (slice_get texts.now at))) }
{
    match texts.get(at) {
        None => Ok(Value::Null),
        Some(None) => Ok(Value::Null),
        Some(Some(text)) => Ok(Value::Text(text.to_text(alloc)?)),
    }
}

/// The value at a place of a column; NULL past its end.
#[tactic(auto, using(crate::proofs::Picks::int_picked, crate::proofs::Picks::date_picked, crate::proofs::Picks::text_picked, crate::proofs::Picks::date_is))]
fn value_at(alloc: Global, column: &ColumnValues<'_>, at: usize) -> Result<Value, AllocError>
    requires { IsValues column.now }
    ensures { IfOk result (λ v. v ≡ value_or_null (slice_get (column_values column.now) at)) }
{
    match column {
        ColumnValues::Ints(numbers) => Ok(int_value(number_at(numbers.items(), at))),
        ColumnValues::Dates(days) => Ok(date_value(number_at(days.items(), at))),
        ColumnValues::Texts(texts) => text_at(alloc, texts.items(), at),
    }
}

/// The row at a place of columns.
fn row_at(alloc: Global, columns: &[ColumnValues<'_>], at: usize) -> Result<Row, AllocError>
    requires { AllByRecursion IsValues columns.now }
    ensures { IfOk result (λ row. row ≡ row_of (map column_values columns.now) at) }
{
    let mut values = Vec::with_capacity(alloc, columns.len())?;
    for column in columns {
        let value = value_at(alloc, column, at)?;
        values.push(value)?;
    }
    Ok(Row {
        values: Sequence::from_vec(values),
    })
}

/// So many rows of columns.
#[tactic(auto, using(crate::proofs::Picks::tabulated_more))]
pub fn rows_of(
    alloc: Global,
    count: u32,
    columns: &[ColumnValues<'_>],
) -> Result<Vec<Row>, AllocError>
    requires { AllByRecursion IsValues columns.now }
    ensures { IfOk result (λ v. v.items ≡ rows_by count (map column_values columns.now)) }
{
    let mut rows = Vec::with_capacity(alloc, count as usize)?;
    for at in 0..count {
        let row = row_at(alloc, columns, at as usize)?;
        rows.push(row)?;
    }
    Ok(rows)
}

/// The true zones of so many columns of rows.
#[tactic(auto, using(crate::proofs::Picks::tabulated_more))]
pub fn zones_of(alloc: Global, columns: usize, rows: &[Row]) -> Result<Vec<Zone>, AllocError>
    requires { length rows.now < 2 ^ 32 }
    ensures { IfOk result (λ v. v.items ≡ zones_by columns rows.now) }
{
    let mut zones = Vec::with_capacity(alloc, columns)?;
    for at in 0..columns {
        let zone = zone_of_rows(rows, at)?;
        zones.push(zone)?;
    }
    Ok(zones)
}
