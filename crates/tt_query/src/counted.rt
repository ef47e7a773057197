//! Queries that only ask how many rows there are.

ghost use Rattle.std.specs.Prelude.{◌≡◌, IfOk, [], ◌∷◌, pos, replicate};
ghost use Rattle.std.specs.List.{list_all};
ghost use Rattle.tt_value.specs.declared.value.Value.TheVariants as value;
ghost use Rattle.tt_query.specs.Counts as spec;

use std::alloc::{AllocError, Global};
use tt_sql::{Item, Query, Selection};
use tt_value::{Row, Sequence, Value};

fn is_count(item: &Item) -> bool
    ensures { result ≡ spec.is_count item.now }
{
    matches!(item, Item::CountAll(_))
}

fn are_counts(items: &[Item]) -> bool
    ensures { result ≡ list_all spec.is_count items.now }
{
    items.iter().all(is_count)
}

/// How many items a query has, where each is the number of all rows and there are no groups.
pub fn counts_in(query: &Query) -> Option<usize>
    ensures { result ≡ spec.counts_in query.now }
{
    if query.group.is_empty() {
        count_items(&query.selection)
    } else {
        None
    }
}

fn count_items(selection: &Selection) -> Option<usize>
    ensures { result ≡ spec.count_items selection.now }
{
    match selection {
        Selection::All(_) => None,
        Selection::Listed(items) => counts_of(items.as_slice()),
    }
}

fn counts_of(items: &[Item]) -> Option<usize>
    ensures { result ≡ spec.counts_of items.now }
{
    if !items.is_empty() && are_counts(items) {
        Some(items.len())
    } else {
        None
    }
}

/// The one row that such a query selects. A number that no INT can be is answered as want of memory.
pub fn row_of_counts(alloc: Global, items: usize, count: usize) -> Result<Vec<Row>, AllocError>
    ensures { IfOk result (λ rows. rows.items ≡ record { values = replicate items (value.Int (pos count)) } ∷ []) }
{
    let Ok(number) = i64::try_from(count) else {
        return Err(AllocError);
    };
    let mut values = Vec::with_capacity(alloc, items)?;
    for _item in 0..items {
        values.push(Value::Int(number))?;
    }
    let mut rows = Vec::new(alloc);
    rows.push(Row {
        values: Sequence::from_vec(values),
    })?;
    Ok(rows)
}
