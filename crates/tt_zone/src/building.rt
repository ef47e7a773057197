//! The zone of a column, from its values.

ghost use Rattle.std.specs.Prelude.{◌≡◌, ◌+◌, ◌<◌, ◌≤◌, ◌^◌, length, slice_get, IfOk};
ghost use Rattle.tt_value.specs.trees.Scope.{value_or_null};
ghost use Rattle.tt_value.specs.trees.Predicates.{is_null as null_test};
ghost use Rattle.tt_zone.specs.Zones as spec;
ghost use Rattle.tt_zone.specs.Extremes.{zone_seen};

use crate::zone::Zone;
use std::alloc::AllocError;
use tt_value::{Row, Value, compare};

/// The least and the greatest value that were seen, and how many NULLs and values were.
#[derive(Clone, Copy)]
pub struct Extremes<'a> {
    pub least: &'a Value,
    pub greatest: &'a Value,
    pub nulls: u32,
    pub rows: u32,
}

fn is_null(value: &Value) -> bool
    ensures { result ≡ null_test value.now }
{
    matches!(value, Value::Null)
}

fn lesser<'a>(a: &'a Value, b: &'a Value) -> &'a Value
    ensures { result.now ≡ spec.lesser a.now b.now }
{
    if compare(a, b).is_gt() { b } else { a }
}

fn greater<'a>(a: &'a Value, b: &'a Value) -> &'a Value
    ensures { result.now ≡ spec.greater a.now b.now }
{
    if is_null(b) {
        a
    } else if is_null(a) || compare(a, b).is_lt() {
        b
    } else {
        a
    }
}

fn with_value<'a>(seen: Extremes<'a>, value: &'a Value) -> Extremes<'a>
    requires nulls { seen.nulls ≤ seen.rows }
    requires rows { seen.rows + 1 < 2 ^ 32 }
    ensures value { zone_seen result ≡ spec.with_value (zone_seen seen.entry) value.now }
    ensures nulls { result.nulls ≤ result.rows }
    ensures rows { result.rows ≡ seen.entry.rows + 1 }
{
    Extremes {
        least: lesser(seen.least, value),
        greatest: greater(seen.greatest, value),
        nulls: if is_null(value) {
            seen.nulls + 1
        } else {
            seen.nulls
        },
        rows: seen.rows + 1,
    }
}

/// The zone of what was seen. Copies the least and the greatest value.
fn zone(seen: Extremes<'_>) -> Result<Zone, AllocError>
    ensures { IfOk result (λ zone. zone ≡ zone_seen seen.entry) }
{
    let least = seen.least.clone()?;
    let greatest = seen.greatest.clone()?;
    Ok(Zone {
        least,
        greatest,
        nulls: seen.nulls,
        rows: seen.rows,
    })
}

/// The zone of a column of these values. Copies the least and the greatest of them.
pub fn zone_of_column(values: &[Value]) -> Result<Zone, AllocError>
    requires { length values.now < 2 ^ 32 }
    ensures { IfOk result (λ zone. zone ≡ spec.zone_of values.now) }
{
    let none = Value::Null;
    let mut seen = Extremes {
        least: &none,
        greatest: &none,
        nulls: 0,
        rows: 0,
    };
    for value in values {
        seen = with_value(seen, value);
    }
    zone(seen)
}

/// A row's value at a place, or else this one.
fn value_at<'a>(row: &'a Row, at: usize, none: &'a Value) -> &'a Value
    requires { none.now ≡ spec.null }
    ensures { result.now ≡ value_or_null (slice_get row.now.values at) }
{
    match row.values.get(at) {
        None => none,
        Some(value) => value,
    }
}

/// The zone of the column at a place, from 0, of these rows. Copies its least and its greatest value.
pub fn zone_of_rows(rows: &[Row], at: usize) -> Result<Zone, AllocError>
    requires { length rows.now < 2 ^ 32 }
    ensures { IfOk result (λ zone. zone ≡ spec.zone_of (spec.column_at at rows.now)) }
{
    let none = Value::Null;
    let mut seen = Extremes {
        least: &none,
        greatest: &none,
        nulls: 0,
        rows: 0,
    };
    for row in rows {
        seen = with_value(seen, value_at(row, at, &none));
    }
    zone(seen)
}
