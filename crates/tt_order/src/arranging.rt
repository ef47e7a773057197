//! The rows of an answer in its order.

ghost use Rattle.std.specs.Prelude.{◌≡◌, List, take, IfOk, IfSome, OnOk, IsPermutation, IsSorted};
ghost use Rattle.tt_value.specs.declared.value.Row.{Row as RowValue};
ghost use Rattle.tt_sql.specs.meaning.Scopes.{query_scope};
ghost use Rattle.tt_sql.specs.meaning.Queries.{arranged, limited, sorted_by};
ghost use Rattle.tt_scope.specs.Places.{HasPlaces};
ghost use Rattle.tt_order.specs.PlacedKeys.{by_keys};

use crate::keys::{PlacedKey, compare_by, keys_of};
use std::alloc::{AllocError, Global};
use tt_sql::Query;
use tt_value::{Number, Row, Schema};

/// The rows in the order of the query's answer, and no more of them than its limit. A key is a position
/// from 1 or the first item that is its column alone; DESC reverses that key alone, NULL included; what
/// ties stands by whole rows, ascending. The schemas are those of the query's tables, in order. Where the
/// limit is far below the number of rows, no more than twice as many are sorted at a time.
pub fn arrange(
    alloc: Global,
    schemas: &[Schema],
    query: &Query,
    rows: Vec<Row>,
) -> Result<Vec<Row>, AllocError>
    requires { HasPlaces schemas.now query.now }
    ensures { IfOk result (λ answer. answer.items
        ≡ arranged (query_scope schemas.now query.now) query.now rows.items) }
{
    let keys = keys_of(alloc, schemas, query)?;
    match few_wanted(&query.limit, rows.len()) {
        None => all_rows(&keys, &query.limit, rows),
        Some(most) => first_rows(alloc, &keys, most, rows),
    }
}

// The limit, where it is far below so many rows.
fn few_wanted(limit: &Option<Number>, count: usize) -> Option<usize>
    ensures { IfSome result (λ most. (rows : List RowValue) → limited limit.now rows ≡ take most rows) }
{
    let Some(number) = limit else {
        return None;
    };
    let most = number.value as usize;
    if most < count / 8 { Some(most) } else { None }
}

fn all_rows(
    keys: &[PlacedKey],
    most: &Option<Number>,
    mut rows: Vec<Row>,
) -> Result<Vec<Row>, AllocError>
    ensures { IfOk result (λ answer. answer.items ≡ limited most.now (sorted_by (by_keys keys.now) rows.items)) }
{
    sort(keys, &mut rows)?;
    limit(most, &mut rows);
    Ok(rows)
}

// The first rows in the order. No more than twice as many are kept while the others are looked at.
fn first_rows(
    alloc: Global,
    keys: &[PlacedKey],
    most: usize,
    rows: Vec<Row>,
) -> Result<Vec<Row>, AllocError>
    ensures { IfOk result (λ answer. answer.items ≡ take most (sorted_by (by_keys keys.now) rows.items)) }
{
    let mut kept = Vec::new(alloc);
    for row in rows {
        kept.push(row)?;
        if kept.len() / 2 >= most {
            keep_first(keys, most, &mut kept)?;
        }
    }
    keep_first(keys, most, &mut kept)?;
    Ok(kept)
}

fn keep_first(keys: &[PlacedKey], most: usize, rows: &mut Vec<Row>) -> Result<(), AllocError>
    ensures { OnOk result (rows.new.items ≡ take most (sorted_by (by_keys keys.now) rows.old.items)) }
{
    sort(keys, rows)?;
    rows.truncate(most);
    Ok(())
}

fn sort(keys: &[PlacedKey], rows: &mut Vec<Row>) -> Result<(), AllocError>
    ensures same { IsPermutation rows.old.items rows.new.items }
    ensures sorted { OnOk result (IsSorted (by_keys keys.now) rows.new.items) }
{
    rows.sort_by(|a, b| compare_by(keys, a, b))
}

fn limit(most: &Option<Number>, rows: &mut Vec<Row>)
    ensures { rows.new.items ≡ limited most.now rows.old.items }
{
    if let Some(number) = most {
        rows.truncate(number.value as usize);
    }
}
