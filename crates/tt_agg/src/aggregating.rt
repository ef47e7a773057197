//! The rows of an answer in no order.

ghost use Rattle.std.specs.Prelude.{◌≡◌, IfOk, IfErr, IsTrue, map, Some, option_map};
ghost use Rattle.tt_sql.specs.meaning.Scopes.{query_scope};
ghost use Rattle.tt_sql.specs.meaning.Queries.{all_some, has_aggregate as aggregates, is_aggregate as aggregate_item, selected_rows};
ghost use Rattle.tt_scope.specs.Places.{HasPlaces, IsCounted, scope_in};
ghost use Rattle.std.specs.List.{list_any};
ghost use Rattle.tt_agg.specs.Lent.{lent};
ghost use Rattle.tt_agg.specs.Groups.{group_row};
ghost use Rattle.tt_agg.specs.Selected.{IsOutOfRange, IsWhole, single_row, whole_row, ungrouped_rows, grouped_rows};

use crate::error::AggregateError;
use crate::groups::groups_by;
use crate::items::selected;
use std::alloc::{AllocError, Global};
use tt_scope::{Tables, place_in};
use tt_sql::{Item, Query, Selection};
use tt_value::{ColumnName, Row, Schema};

/// The rows of the query's answer before they are ordered and cut, given the rows that it takes: each row's
/// items, or those of each group, groups in the order in which their keys come first. It is out of range
/// where a value or a sum leaves 64 bits, whatever the limit. The schemas are those of the query's tables.
pub fn aggregate(
    alloc: Global,
    schemas: &[Schema],
    query: &Query,
    rows: &[Row],
) -> Result<Vec<Row>, AggregateError>
    requires { HasPlaces schemas.now query.now }
    ensures rows { IfOk result (λ answer. selected_rows (query_scope schemas.now query.now) query.now rows.now
        ≡ Some answer.items) }
    ensures out { IfErr result (IsOutOfRange (selected_rows (query_scope schemas.now query.now) query.now rows.now)) }
{
    let tables = Tables {
        first: &query.first.table,
        joins: query.joins.as_slice(),
        schemas,
    };
    match answer(alloc, &tables, query, rows)? {
        None => Err(AggregateError::OutOfRange),
        Some(answer) => Ok(answer),
    }
}

/// The same of rows that are given away. Where the query selects whole rows they are moved, and none is copied.
pub fn select(
    alloc: Global,
    schemas: &[Schema],
    query: &Query,
    rows: Vec<Row>,
) -> Result<Vec<Row>, AggregateError>
    requires { HasPlaces schemas.now query.now }
    ensures rows { IfOk result (λ answer. selected_rows (query_scope schemas.now query.now) query.now rows.items
        ≡ Some answer.items) }
    ensures out { IfErr result (IsOutOfRange (selected_rows (query_scope schemas.now query.now) query.now rows.items)) }
{
    if selects_whole_rows(query) {
        Ok(rows)
    } else {
        aggregate(alloc, schemas, query, &rows)
    }
}

fn selects_whole_rows(query: &Query) -> bool
    ensures { IsTrue result → IsWhole query.now }
{
    match &query.selection {
        Selection::All(_) => query.group.is_empty(),
        Selection::Listed(_) => false,
    }
}

fn answer(
    alloc: Global,
    tables: &Tables<'_>,
    query: &Query,
    rows: &[Row],
) -> Result<Option<Vec<Row>>, AllocError>
    requires { IsCounted (scope_in tables.now) }
    ensures { IfOk result (λ found. option_map (λ answer. answer.items) found
        ≡ selected_rows (scope_in tables.now) query.now rows.now) }
{
    if query.group.is_empty() {
        ungrouped_answer(alloc, tables, &query.selection, rows)
    } else {
        grouped_answer(alloc, tables, query, rows)
    }
}

fn ungrouped_answer(
    alloc: Global,
    tables: &Tables<'_>,
    selection: &Selection,
    rows: &[Row],
) -> Result<Option<Vec<Row>>, AllocError>
    requires { IsCounted (scope_in tables.now) }
    ensures { IfOk result (λ found. option_map (λ answer. answer.items) found
        ≡ ungrouped_rows (scope_in tables.now) selection.now rows.now) }
{
    if has_aggregate(selection) {
        whole_answer(alloc, tables, selection, rows)
    } else {
        row_answers(alloc, tables, selection, rows)
    }
}

fn grouped_answer(
    alloc: Global,
    tables: &Tables<'_>,
    query: &Query,
    rows: &[Row],
) -> Result<Option<Vec<Row>>, AllocError>
    requires { IsCounted (scope_in tables.now) }
    ensures { IfOk result (λ found. option_map (λ answer. answer.items) found
        ≡ grouped_rows (scope_in tables.now) query.now rows.now) }
{
    let places = places_of(alloc, tables, query.group.as_slice())?;
    let groups = groups_by(alloc, &places, rows)?;
    group_answers(alloc, tables, &query.selection, &groups)
}

// The row of each group.
fn group_answers(
    alloc: Global,
    tables: &Tables<'_>,
    selection: &Selection,
    groups: &[Vec<&Row>],
) -> Result<Option<Vec<Row>>, AllocError>
    requires { IsCounted (scope_in tables.now) }
    ensures { IfOk result (λ found. option_map (λ answer. answer.items) found
        ≡ all_some (map (group_row (scope_in tables.now) selection.now) groups.now)) }
{
    let mut answer = Vec::new(alloc);
    for group in groups {
        let Some(row) = selected(alloc, tables, selection, group)? else {
            return Ok(None);
        };
        answer.push(row)?;
    }
    Ok(Some(answer))
}

// The row of each row by itself.
fn row_answers(
    alloc: Global,
    tables: &Tables<'_>,
    selection: &Selection,
    rows: &[Row],
) -> Result<Option<Vec<Row>>, AllocError>
    requires { IsCounted (scope_in tables.now) }
    ensures { IfOk result (λ found. option_map (λ answer. answer.items) found
        ≡ all_some (map (single_row (scope_in tables.now) selection.now) rows.now)) }
{
    let mut answer = Vec::with_capacity(alloc, rows.len())?;
    for row in rows {
        let Some(row) = selected(alloc, tables, selection, &[row])? else {
            return Ok(None);
        };
        answer.push(row)?;
    }
    Ok(Some(answer))
}

// The row of all rows together.
fn whole_answer(
    alloc: Global,
    tables: &Tables<'_>,
    selection: &Selection,
    rows: &[Row],
) -> Result<Option<Vec<Row>>, AllocError>
    requires { IsCounted (scope_in tables.now) }
    ensures { IfOk result (λ found. option_map (λ answer. answer.items) found
        ≡ whole_row (scope_in tables.now) selection.now rows.now) }
{
    let group = references(alloc, rows)?;
    let Some(row) = selected(alloc, tables, selection, &group)? else {
        return Ok(None);
    };
    let mut answer = Vec::new(alloc);
    answer.push(row)?;
    Ok(Some(answer))
}

fn references<'a>(alloc: Global, rows: &'a [Row]) -> Result<Vec<&'a Row>, AllocError>
    ensures { IfOk result (λ group. lent group.items ≡ rows.now) }
{
    let mut group = Vec::with_capacity(alloc, rows.len())?;
    for row in rows {
        group.push(row)?;
    }
    Ok(group)
}

fn places_of(
    alloc: Global,
    tables: &Tables<'_>,
    columns: &[ColumnName],
) -> Result<Vec<Option<usize>>, AllocError>
    requires { IsCounted (scope_in tables.now) }
    ensures { IfOk result (λ places. places.items ≡ map (scope_in tables.now).place_of columns.now) }
{
    let mut places = Vec::new(alloc);
    for column in columns {
        places.push(place_in(tables, column))?;
    }
    Ok(places)
}

fn has_aggregate(selection: &Selection) -> bool
    ensures { result ≡ aggregates selection.now }
{
    match selection {
        Selection::All(_) => false,
        Selection::Listed(items) => any_aggregate(items.as_slice()),
    }
}

fn any_aggregate(items: &[Item]) -> bool
    ensures { result ≡ list_any aggregate_item items.now }
{
    items.iter().any(is_aggregate)
}

fn is_aggregate(item: &Item) -> bool
    ensures { result ≡ aggregate_item item.now }
{
    !matches!(item, Item::Expr(_))
}
