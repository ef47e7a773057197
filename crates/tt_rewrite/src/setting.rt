//! The row that an UPDATE makes of a row.

ghost use Rattle.std.specs.Prelude.{◌≡◌, IfOk, length, map, option_map};
ghost use Rattle.std.specs.List.{zip};
ghost use Rattle.std.specs.Str.{bytes_eq};
ghost use Rattle.tt_value.specs.calendar.Reading.{day_of};
ghost use Rattle.tt_value.specs.trees.Scope.{date_or_null};
ghost use Rattle.tt_sql.specs.meaning.Changes.{for_column, set_value};
ghost use Rattle.tt_sql.specs.meaning.Queries.{all_some};
ghost use Rattle.tt_scope.specs.Places.{IsCounted, scope_in};
ghost use Rattle.tt_rewrite.specs.Sets as sets_of;
ghost use Rattle.tt_rewrite.specs.Sets.{IsSetting, becomes, set_place};

use std::alloc::{AllocError, Global};
use tt_eval::evaluate;
use tt_scope::Tables;
use tt_sql::Set;
use tt_time::read_date;
use tt_value::{Column, Kind, Row, Schema, Sequence, Text, Value};

/// What an UPDATE knows before it reads a row: its table, its SETs, and for each column the place of the first SET
/// that names it.
#[derive(Clone, Copy)]
pub struct Setting<'a> {
    pub tables: Tables<'a>,
    pub schema: &'a Schema,
    pub sets: &'a [Set],
    pub places: &'a [Option<usize>],
}

fn is_same_name(a: &Text, b: &Text) -> bool
    ensures { result ≡ bytes_eq a.now b.now }
{
    a.as_str() == b.as_str()
}

fn place_of(sets: &[Set], column: &Column) -> Option<usize>
    ensures { result ≡ set_place sets.now column.now }
{
    sets.iter()
        .position(|set| is_same_name(&set.column.text, &column.name))
}

/// For each column the place of the first SET that names it.
pub fn places_of(
    alloc: Global,
    sets: &[Set],
    columns: &[Column],
) -> Result<Vec<Option<usize>>, AllocError>
    ensures { IfOk result (λ places. places.items ≡ map (set_place sets.now) columns.now) }
{
    let mut places = Vec::new(alloc);
    for column in columns {
        places.push(place_of(sets, column))?;
    }
    Ok(places)
}

fn day_or_null(text: &Text) -> Value
    ensures { result ≡ date_or_null (day_of text.now) }
{
    match read_date(text.as_str()) {
        Ok(day) => Value::Date(day),
        Err(_) => Value::Null,
    }
}

// What a column holds of a value: a text in a DATE column is its date.
fn fitted(column: &Column, value: Value) -> Value
    ensures { result ≡ for_column column.now value }
{
    match (column.kind, value) {
        (Kind::Date, Value::Text(text)) => day_or_null(&text),
        (_, value) => value,
    }
}

// The new value of a column, read on the old row.
fn value_by(
    tables: &Tables<'_>,
    row: &Row,
    column: &Column,
    set: &Set,
) -> Result<Option<Value>, AllocError>
    requires { IsCounted (scope_in tables.now) }
    ensures { IfOk result (λ value. value ≡ sets_of.value_by (scope_in tables.now) row.now column.now set.now) }
{
    match evaluate(tables, row, &set.value)? {
        None => Ok(None),
        Some(value) => Ok(Some(fitted(column, value))),
    }
}

fn copied(value: &Value) -> Result<Option<Value>, AllocError>
    ensures { IfOk result (λ copy. copy ≡ Some value.now) }
{
    Ok(Some(value.clone()?))
}

// The value of a column by the SET at a place.
fn value_at(
    setting: &Setting<'_>,
    row: &Row,
    column: &Column,
    old: &Value,
    place: Option<usize>,
) -> Result<Option<Value>, AllocError>
    requires { IsCounted (scope_in setting.now.tables) }
    ensures { IfOk result (λ value. value
        ≡ sets_of.value_at (scope_in setting.now.tables) setting.now.sets.now row.now (column.now, old.now) place) }
{
    let Some(place) = place else {
        return copied(old);
    };
    match setting.sets.get(place) {
        None => Ok(None),
        Some(set) => value_by(&setting.tables, row, column, set),
    }
}

// The values of the row, each read on the old one. None where one is out of range.
fn new_values(
    alloc: Global,
    setting: &Setting<'_>,
    row: &Row,
) -> Result<Option<Vec<Value>>, AllocError>
    requires setting { IsSetting setting.now }
    requires row { length row.now.values ≡ length setting.now.schema.now.columns }
    ensures { IfOk result (λ found. option_map (λ values. values.items) found
        ≡ all_some (map (set_value (scope_in setting.now.tables) setting.now.sets.now row.now)
        (zip setting.now.schema.now.columns row.now.values))) }
{
    let columns = setting.schema.columns.items();
    let olds = row.values.items();
    let mut values = Vec::new(alloc);
    for at in 0..columns.len() {
        let found = value_at(setting, row, &columns[at], &olds[at], setting.places[at])?;
        let Some(value) = found else {
            return Ok(None);
        };
        values.push(value)?;
    }
    Ok(Some(values))
}

/// The row that the SETs make of a row. Each new value is read on the old row. None where one leaves 64 bits.
pub fn renewed(alloc: Global, setting: &Setting<'_>, row: &Row) -> Result<Option<Row>, AllocError>
    requires setting { IsSetting setting.now }
    requires row { length row.now.values ≡ length setting.now.schema.now.columns }
    ensures { IfOk result (λ found. found ≡ becomes setting.now row.now) }
{
    match new_values(alloc, setting, row)? {
        None => Ok(None),
        Some(values) => Ok(Some(Row {
            values: Sequence::from_vec(values),
        })),
    }
}
