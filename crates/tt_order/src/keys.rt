//! The keys of ORDER BY, and where their values stand in the rows of the answer.

ghost use Rattle.std.specs.Prelude.{◌≡◌, ◌-◌, map, IfOk, pos};
ghost use Rattle.std.specs.Option.{option_copied};
ghost use Rattle.std.specs.List.{position};
ghost use Rattle.tt_sql.specs.meaning.Scopes.{query_scope};
ghost use Rattle.tt_sql.specs.meaning.Queries.{plain_column as column_alone, same_place as is_same_place, is_item_of as is_item, key_place as place_in, value_at as value_in};
ghost use Rattle.tt_value.specs.declared.value.Value.TheVariants.{Null};
ghost use Rattle.tt_scope.specs.Places.{HasPlaces};
ghost use Rattle.tt_order.specs.PlacedKeys.{placed, placed_keys, by_key, by_keys};

use std::alloc::{AllocError, Global};
use std::cmp::Ordering;
use tt_scope::place_of;
use tt_sql::{Expr, Factor, Item, Key, KeyColumn, Query, Selection};
use tt_value::{ColumnName, Row, Schema, Value, compare, compare_rows};

/// A key whose place in the rows of the answer is known, from 0. A place where rows have no value is as
/// if they had NULL there.
#[derive(Clone, Copy)]
pub struct PlacedKey {
    pub place: Option<usize>,
    pub descending: bool,
}

/// The keys of the query, in order.
pub fn keys_of(
    alloc: Global,
    schemas: &[Schema],
    query: &Query,
) -> Result<Vec<PlacedKey>, AllocError>
    requires { HasPlaces schemas.now query.now }
    ensures { IfOk result (λ keys. keys.items
        ≡ placed_keys (query_scope schemas.now query.now) query.now) }
{
    let mut keys = Vec::new(alloc);
    for key in query.order.as_slice() {
        keys.push(placed_key(schemas, query, key))?;
    }
    Ok(keys)
}

fn placed_key(schemas: &[Schema], query: &Query, key: &Key) -> PlacedKey
    requires { HasPlaces schemas.now query.now }
    ensures { result ≡ placed (query_scope schemas.now query.now) query.now.selection key.now }
{
    PlacedKey {
        place: key_place(schemas, query, &key.by),
        descending: key.descending,
    }
}

// By position from 1, or the first plain item of the column.
fn key_place(schemas: &[Schema], query: &Query, by: &KeyColumn) -> Option<usize>
    requires { HasPlaces schemas.now query.now }
    ensures { result ≡ place_in (query_scope schemas.now query.now) query.now.selection by.now }
{
    match by {
        KeyColumn::Position(number) => Some(number.value.saturating_sub(1) as usize),
        KeyColumn::Column(column) => match &query.selection {
            Selection::All(_) => place_of(schemas, query, column),
            Selection::Listed(items) => item_place(schemas, query, column, items.as_slice()),
        },
    }
}

// The first item that is this column alone.
fn item_place(
    schemas: &[Schema],
    query: &Query,
    column: &ColumnName,
    items: &[Item],
) -> Option<usize>
    requires { HasPlaces schemas.now query.now }
    ensures { result ≡ position (is_item (query_scope schemas.now query.now) column.now) items.now }
{
    items
        .iter()
        .position(|item| is_item_of(schemas, query, column, item))
}

// Whether an item is this column alone.
fn is_item_of(schemas: &[Schema], query: &Query, column: &ColumnName, item: &Item) -> bool
    requires { HasPlaces schemas.now query.now }
    ensures { result ≡ is_item (query_scope schemas.now query.now) column.now item.now }
{
    match item {
        Item::Expr(expr) => match plain_column(expr) {
            None => false,
            Some(plain) => same_place(
                place_of(schemas, query, column),
                place_of(schemas, query, plain),
            ),
        },
        _ => false,
    }
}

// The column that an expression is, where it is a name alone.
fn plain_column(expr: &Expr) -> Option<&ColumnName>
    ensures { option_copied result ≡ column_alone expr.now }
{
    if !expr.others.is_empty() || !expr.first.others.is_empty() {
        return None;
    }
    match &expr.first.first {
        Factor::Column(column) => Some(column),
        _ => None,
    }
}

fn same_place(a: Option<usize>, b: Option<usize>) -> bool
    ensures { result ≡ is_same_place a b }
{
    match (a, b) {
        (Some(a), Some(b)) => a == b,
        _ => false,
    }
}

/// The order by the keys, and of what ties by whole rows.
pub fn compare_by(keys: &[PlacedKey], a: &Row, b: &Row) -> Ordering
    ensures { result ≡ by_keys keys.now a.now b.now }
{
    for key in keys {
        let order = compare_at(key, a, b);
        if order.is_ne() {
            return order;
        }
    }
    compare_rows(a, b)
}

// DESC reverses one key, NULL included.
fn compare_at(key: &PlacedKey, a: &Row, b: &Row) -> Ordering
    ensures { result ≡ by_key key.now a.now b.now }
{
    let null = Value::Null;
    let ascending = compare(value_at(key.place, a, &null), value_at(key.place, b, &null));
    if key.descending {
        ascending.reverse()
    } else {
        ascending
    }
}

fn value_at<'a>(place: Option<usize>, row: &'a Row, null: &'a Value) -> &'a Value
    requires { null.now ≡ Null }
    ensures { result.now ≡ value_in place row.now }
{
    let found = match place {
        None => None,
        Some(place) => row.values.get(place),
    };
    match found {
        None => null,
        Some(value) => value,
    }
}
