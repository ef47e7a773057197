//! Written rows as a table stores them.

ghost use Rattle.std.specs.Prelude.{◌≡◌, All, IfOk, length};
ghost use Rattle.std.specs.Str.{bytes_eq};
ghost use Rattle.tt_sql.specs.meaning.Changes.{for_column};
ghost use Rattle.tt_plain.specs.WrongCounts.{width};
ghost use Rattle.tt_change.specs.Cells.{stored_cells, stored_at, stored_by_name, named_cells, tuple_cells, listed_at, stored_tuple, stored_tuples};

use sqlite_items::{Items, at};
use std::alloc::{AllocError, Global};
use tt_sql::Tuple;
use tt_time::read_date;
use tt_value::{Column, Kind, Literal, Name, Row, Schema, Sequence, Text, Value};

fn is_same_name(a: &Text, b: &Text) -> bool
    ensures { result ≡ bytes_eq a.now b.now }
{
    a.as_str() == b.as_str()
}

// What a column holds where this is written: a text in a DATE column is its date.
fn fitted(column: &Column, value: &Value) -> Result<Value, AllocError>
    ensures { IfOk result (λ fitted. fitted ≡ for_column column.now value.now) }
{
    match (column.kind, value) {
        (Kind::Date, Value::Text(text)) => match read_date(text.as_str()) {
            Ok(day) => Ok(Value::Date(day)),
            Err(_) => Ok(Value::Null),
        },
        _ => value.clone(),
    }
}

// The values of a tuple without a list of columns: each is for the column at its place.
fn row_in_order(
    alloc: Global,
    columns: &[Column],
    literals: &[Literal],
) -> Result<Vec<Value>, AllocError>
    requires { length literals.now ≡ length columns.now }
    ensures { IfOk result (λ values. values.items ≡ stored_cells columns.now literals.now) }
{
    let mut values = Vec::new(alloc);
    for place in 0..columns.len() {
        let value = fitted(&columns[place], &literals[place].value)?;
        values.push(value)?;
    }
    Ok(values)
}

// Where a list names a column.
fn place_of(names: &[Name], column: &Column) -> Option<usize>
    ensures { result ≡ listed_at names.now column.now }
{
    names
        .iter()
        .position(|name| is_same_name(&name.text, &column.name))
}

// What a column holds where this place is written, and else NULL.
fn value_at(column: &Column, literals: &[Literal], place: usize) -> Result<Value, AllocError>
    ensures { IfOk result (λ value. value ≡ stored_at column.now literals.now place) }
{
    match at(literals, place) {
        Some(literal) => fitted(column, &literal.value),
        None => fitted(column, &Value::Null),
    }
}

// What a column holds where the list names it, and else NULL.
fn named_value(column: &Column, names: &[Name], literals: &[Literal]) -> Result<Value, AllocError>
    ensures { IfOk result (λ value. value ≡ stored_by_name names.now literals.now column.now) }
{
    match place_of(names, column) {
        Some(place) => value_at(column, literals, place),
        None => fitted(column, &Value::Null),
    }
}

// The values of a tuple with a list of columns.
fn row_by_names(
    alloc: Global,
    columns: &[Column],
    names: &[Name],
    literals: &[Literal],
) -> Result<Vec<Value>, AllocError>
    ensures { IfOk result (λ values. values.items ≡ named_cells columns.now names.now literals.now) }
{
    let mut values = Vec::new(alloc);
    for column in columns {
        values.push(named_value(column, names, literals)?)?;
    }
    Ok(values)
}

// The values that are stored for a tuple.
fn tuple_values(
    alloc: Global,
    columns: &[Column],
    names: &Option<Items<Name>>,
    literals: &[Literal],
) -> Result<Vec<Value>, AllocError>
    requires { length literals.now ≡ width (record { columns = columns.now }) names.now }
    ensures { IfOk result (λ row. row.items ≡ tuple_cells columns.now names.now literals.now) }
{
    match names {
        None => row_in_order(alloc, columns, literals),
        Some(names) => row_by_names(alloc, columns, names.as_slice(), literals),
    }
}

fn tuple_row(
    alloc: Global,
    schema: &Schema,
    names: &Option<Items<Name>>,
    tuple: &Tuple,
) -> Result<Row, AllocError>
    requires { length tuple.now.values ≡ width schema.now names.now }
    ensures { IfOk result (λ row. row ≡ stored_tuple schema.now names.now tuple.now) }
{
    let values = tuple_values(
        alloc,
        schema.columns.items(),
        names,
        tuple.values.as_slice(),
    )?;
    Ok(Row {
        values: Sequence::from_vec(values),
    })
}

/// The rows of these tuples, in their order, for the listed columns, or all of them where there is no list.
pub fn tuple_rows(
    alloc: Global,
    schema: &Schema,
    names: &Option<Items<Name>>,
    tuples: &[Tuple],
) -> Result<Vec<Row>, AllocError>
    requires { All (λ tuple. length tuple.values ≡ width schema.now names.now) tuples.now }
    ensures { IfOk result (λ rows. rows.items ≡ stored_tuples schema.now names.now tuples.now) }
{
    let mut rows = Vec::new(alloc);
    for tuple in tuples {
        rows.push(tuple_row(alloc, schema, names, tuple)?)?;
    }
    Ok(rows)
}
