//! Written NULLs, and columns left out, where a column takes no NULL.

ghost use Rattle.std.specs.Prelude.{◌≡◌, not};
ghost use Rattle.std.specs.List.{list_any};
ghost use Rattle.std.specs.Option.{option_copied};
ghost use Rattle.tt_plain.specs.Places.{each, each_at, if_there, leftmost};
ghost use Rattle.tt_plain.specs.WrongCounts.{is_name};
ghost use Rattle.tt_plain.specs.NullsInNotNull as spec;

use crate::alone::lone_literal;
use crate::columns::{column_named, target_column};
use crate::places::earlier;
use sqlite_items::Items;
use tt_sql::{Item, Selection, Set, Tuple};
use tt_value::{Column, Literal, Name, Schema, Text, Value};

fn takes_no_null(column: Option<&Column>) -> bool
    ensures { result ≡ spec.takes_no_null (option_copied column.entry) }
{
    match column {
        None => false,
        Some(column) => !column.nullable,
    }
}

fn null_literal(column: Option<&Column>, literal: &Literal) -> Option<u32>
    ensures { result ≡ leftmost (spec.null_literal (option_copied column.entry) literal.now) }
{
    if takes_no_null(column) && matches!(literal.value, Value::Null) {
        Some(literal.place)
    } else {
        None
    }
}

fn null_item(column: Option<&Column>, item: &Item) -> Option<u32>
    ensures { result ≡ leftmost (spec.null_item (option_copied column.entry) item.now) }
{
    match item {
        Item::Expr(expr) => match lone_literal(expr) {
            None => None,
            Some(literal) => null_literal(column, literal),
        },
        _ => None,
    }
}

fn nulls_in_values(schema: &Schema, names: &Option<Items<Name>>, values: &[Literal]) -> Option<u32>
    ensures { result ≡ leftmost (each_at (spec.null_value schema.now names.now) 0 values.now) }
{
    let mut found = None;
    for (at, literal) in values.iter().enumerate() {
        found = earlier(
            found,
            null_literal(target_column(schema, names, at), literal),
        );
    }
    found
}

/// The leftmost NULL that is written for a column that takes none.
pub fn nulls_in_tuples(
    schema: &Schema,
    names: &Option<Items<Name>>,
    tuples: &[Tuple],
) -> Option<u32>
    ensures { result ≡ leftmost (each (spec.nulls_in_tuple schema.now names.now) tuples.now) }
{
    let mut found = None;
    for tuple in tuples {
        found = earlier(
            found,
            nulls_in_values(schema, names, tuple.values.as_slice()),
        );
    }
    found
}

fn nulls_in_items(schema: &Schema, names: &Option<Items<Name>>, items: &[Item]) -> Option<u32>
    ensures { result ≡ leftmost (each_at (spec.null_in_item schema.now names.now) 0 items.now) }
{
    let mut found = None;
    for (at, item) in items.iter().enumerate() {
        found = earlier(found, null_item(target_column(schema, names, at), item));
    }
    found
}

/// The leftmost item that is a written NULL and goes into a column that takes none. A star has no such item.
pub fn nulls_in_selection(
    schema: &Schema,
    names: &Option<Items<Name>>,
    selection: &Selection,
) -> Option<u32>
    ensures { result ≡ leftmost (spec.nulls_in_selection schema.now names.now selection.now) }
{
    match selection {
        Selection::All(_) => None,
        Selection::Listed(items) => nulls_in_items(schema, names, items.as_slice()),
    }
}

fn has_name(names: &[Name], text: &Text) -> bool
    ensures { result ≡ list_any (is_name text.now) names.now }
{
    names.iter().any(|name| *text == name.text)
}

/// Whether a column takes no NULL and is not in the list.
fn is_left_out(names: &[Name], column: &Column) -> bool
    ensures { result ≡ spec.is_left_out names.now column.now }
{
    !column.nullable && !has_name(names, &column.name)
}

fn leaves_out(schema: &Schema, names: &[Name]) -> bool
    ensures { result ≡ list_any (spec.is_left_out names.now) schema.now.columns }
{
    schema
        .columns
        .items()
        .iter()
        .any(|column| is_left_out(names, column))
}

/// The table's place, if its list leaves a column out that takes no NULL.
pub fn left_out(schema: &Schema, place: u32, names: &Option<Items<Name>>) -> Option<u32>
    ensures { result ≡ leftmost (if_there (spec.left_out schema.now place) names.now) }
{
    match names {
        None => None,
        Some(names) => {
            if leaves_out(schema, names.as_slice()) {
                Some(place)
            } else {
                None
            }
        }
    }
}

fn null_set(schema: &Schema, set: &Set) -> Option<u32>
    ensures { result ≡ leftmost (spec.null_set schema.now set.now) }
{
    match lone_literal(&set.value) {
        None => None,
        Some(literal) => null_literal(column_named(schema, &set.column), literal),
    }
}

/// The leftmost NULL to which a column is set that takes none.
pub fn nulls_in_sets(schema: &Schema, sets: &[Set]) -> Option<u32>
    ensures { result ≡ leftmost (each (spec.null_set schema.now) sets.now) }
{
    let mut found = None;
    for set in sets {
        found = earlier(found, null_set(schema, set));
    }
    found
}
