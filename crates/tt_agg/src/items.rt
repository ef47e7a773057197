//! The items of a query over a group of rows. None is out of range.

ghost use Rattle.std.specs.Prelude.{◌≡◌, IfOk, option_map};
ghost use Rattle.std.specs.Option.{option_copied};
ghost use Rattle.tt_scope.specs.Places.{IsCounted, scope_in};
ghost use Rattle.tt_sql.specs.meaning.Queries.{column_values as values_in, first_value as value_of_first, item_value as value_of_item, selected as selected_in, first_row as first_of};
ghost use Rattle.tt_agg.specs.Lent.{lent};
ghost use Rattle.tt_agg.specs.Selected.{present_at, item_values as values_of_items};

use crate::values::{copy_or_null, greatest, least, sum_of};
use std::alloc::{AllocError, Global};
use tt_eval::evaluate;
use tt_scope::{Tables, place_in};
use tt_sql::{Item, Selection};
use tt_value::{ColumnName, Expr, Row, Sequence, Value};

/// The row of the answer that a group gives: its first row, or the value of each item.
pub fn selected(
    alloc: Global,
    tables: &Tables<'_>,
    selection: &Selection,
    group: &[&Row],
) -> Result<Option<Row>, AllocError>
    requires { IsCounted (scope_in tables.now) }
    ensures { IfOk result (λ row. row ≡ selected_in (scope_in tables.now) selection.now (lent group.now)) }
{
    match selection {
        Selection::All(_) => Ok(Some(first_row(alloc, group)?)),
        Selection::Listed(items) => {
            match item_values(alloc, tables, items.as_slice(), group)? {
                None => Ok(None),
                Some(values) => Ok(Some(row_of(values))),
            }
        }
    }
}

fn row_of(values: Vec<Value>) -> Row
    ensures { result ≡ record { values = values.items } }
{
    Row {
        values: Sequence::from_vec(values),
    }
}

fn first_row(alloc: Global, group: &[&Row]) -> Result<Row, AllocError>
    ensures { IfOk result (λ row. row ≡ first_of (lent group.now)) }
{
    match group.split_first() {
        None => Ok(row_of(Vec::new(alloc))),
        Some((row, _)) => copy_of(row),
    }
}

fn copy_of(row: &Row) -> Result<Row, AllocError>
    ensures { IfOk result (λ copy. copy ≡ row.now) }
{
    row.clone()
}

fn item_values(
    alloc: Global,
    tables: &Tables<'_>,
    items: &[Item],
    group: &[&Row],
) -> Result<Option<Vec<Value>>, AllocError>
    requires { IsCounted (scope_in tables.now) }
    ensures { IfOk result (λ found. option_map (λ values. values.items) found
        ≡ values_of_items (scope_in tables.now) (lent group.now) items.now) }
{
    let mut values = Vec::new(alloc);
    for item in items {
        let Some(value) = item_value(alloc, tables, item, group)? else {
            return Ok(None);
        };
        values.push(value)?;
    }
    Ok(Some(values))
}

fn item_value(
    alloc: Global,
    tables: &Tables<'_>,
    item: &Item,
    group: &[&Row],
) -> Result<Option<Value>, AllocError>
    requires { IsCounted (scope_in tables.now) }
    ensures { IfOk result (λ v. v ≡ value_of_item (scope_in tables.now) (lent group.now) item.now) }
{
    match item {
        Item::Expr(expr) => first_value(tables, expr, group),
        Item::CountAll(_) => Ok(Some(Value::Int(group.len() as i64))),
        Item::Count(_, column) => {
            let values = column_values(alloc, tables, column, group)?;
            Ok(Some(Value::Int(values.len() as i64)))
        }
        Item::Sum(_, column) => {
            let values = column_values(alloc, tables, column, group)?;
            Ok(sum_of(&values))
        }
        Item::Min(_, column) => {
            let values = column_values(alloc, tables, column, group)?;
            Ok(Some(copy_or_null(least(&values))?))
        }
        Item::Max(_, column) => {
            let values = column_values(alloc, tables, column, group)?;
            Ok(Some(copy_or_null(greatest(&values))?))
        }
    }
}

// An expression of a group is one of its columns, so the first row has its value.
fn first_value(
    tables: &Tables<'_>,
    expr: &Expr,
    group: &[&Row],
) -> Result<Option<Value>, AllocError>
    requires { IsCounted (scope_in tables.now) }
    ensures { IfOk result (λ v. v ≡ value_of_first (scope_in tables.now) expr.now (lent group.now)) }
{
    match group.split_first() {
        None => Ok(Some(Value::Null)),
        Some((row, _)) => evaluate(tables, row, expr),
    }
}

// The values of a column that are not NULL.
fn column_values<'a>(
    alloc: Global,
    tables: &Tables<'_>,
    column: &ColumnName,
    group: &[&'a Row],
) -> Result<Vec<&'a Value>, AllocError>
    requires { IsCounted (scope_in tables.now) }
    ensures { IfOk result (λ values. lent values.items
        ≡ values_in (scope_in tables.now) column.now (lent group.now)) }
{
    let place = place_in(tables, column);
    let mut values = Vec::new(alloc);
    for row in group {
        if let Some(value) = present(place, row) {
            values.push(value)?;
        }
    }
    Ok(values)
}

fn present(place: Option<usize>, row: &Row) -> Option<&Value>
    ensures { option_copied result ≡ present_at place row.now }
{
    let found = match place {
        None => None,
        Some(place) => row.values.get(place),
    };
    match found {
        Some(Value::Null) => None,
        _ => found,
    }
}
