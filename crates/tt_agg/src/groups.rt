//! Rows with equal values in the columns of GROUP BY.

ghost use Rattle.std.specs.Prelude.{◌≡◌, ◌≤◌, ◌<◌, ◌++◌, List, [], ◌∷◌, length, IfOk, OnOk};
ghost use Rattle.std.specs.BTreeMap as tree;
ghost use Rattle.tt_value.specs.declared.value.Row.{Row as RowValue};
ghost use Rattle.tt_value.specs.values.Order.{row_cmp};
ghost use Rattle.tt_sql.specs.meaning.Queries.{grouped, value_at as value_in};
ghost use Rattle.tt_agg.specs.Groups.{key_at, rows_of, with_row, place_for, with_key, HasPlacesOf};

use std::alloc::{AllocError, Global};
use std::collections::BTreeMap;
use tt_value::{Row, Sequence, Value};

/// The rows of each key, keys in the order in which they come first. The key of a row is its values at the
/// places; NULLs are one key. No row is copied.
pub fn groups_by<'a>(
    alloc: Global,
    places: &[Option<usize>],
    rows: &'a [Row],
) -> Result<Vec<Vec<&'a Row>>, AllocError>
    ensures { IfOk result (λ groups. rows_of groups.items ≡ grouped (key_at places.now) rows.now) }
{
    let mut found = BTreeMap::new(alloc);
    let mut groups = Vec::new(alloc);
    for row in rows {
        let key = key_of(alloc, places, row)?;
        let place = place_of(&mut found, key, groups.len())?;
        add(alloc, &mut groups, place, row)?;
    }
    Ok(groups)
}

fn key_of(alloc: Global, places: &[Option<usize>], row: &Row) -> Result<Row, AllocError>
    ensures { IfOk result (λ key. key ≡ key_at places.now row.now) }
{
    let mut values = Vec::with_capacity(alloc, places.len())?;
    for place in places {
        values.push(value_at(*place, row)?)?;
    }
    Ok(Row {
        values: Sequence::from_vec(values),
    })
}

fn value_at(place: Option<usize>, row: &Row) -> Result<Value, AllocError>
    ensures { IfOk result (λ v. v ≡ value_in place row.now) }
{
    let found = match place {
        None => None,
        Some(place) => row.values.get(place),
    };
    match found {
        None => Ok(Value::Null),
        Some(value) => value.clone(),
    }
}

// The place of a key among the keys that were found, where it comes if it is new.
fn place_of(found: &mut BTreeMap<Row, usize>, key: Row, next: usize) -> Result<usize, AllocError>
    ensures place { IfOk result (λ place. (keys : List RowValue) → HasPlacesOf keys found.old
        → next ≡ length keys → place ≡ place_for key keys) }
    ensures found { OnOk result ((keys : List RowValue) → HasPlacesOf keys found.old
        → next ≡ length keys → HasPlacesOf (with_key key keys) found.new) }
{
    match known(found, &key) {
        Some(place) => Ok(place),
        None => {
            found.insert(key, next)?;
            Ok(next)
        }
    }
}

fn known(found: &BTreeMap<Row, usize>, key: &Row) -> Option<usize>
    ensures { result ≡ tree.get row_cmp found.now key.now }
{
    found.get(key).copied()
}

// A row behind those of its group, or as a new group behind all.
fn add<'a>(
    alloc: Global,
    groups: &mut Vec<Vec<&'a Row>>,
    place: usize,
    row: &'a Row,
) -> Result<(), AllocError>
    requires { place ≤ length groups.old.items }
    ensures { OnOk result (rows_of groups.new.items ≡ with_row place row.now (rows_of groups.old.items)) }
{
    if place == groups.len() {
        begin(alloc, groups, row)
    } else {
        extend(groups, place, row)
    }
}

fn begin<'a>(alloc: Global, groups: &mut Vec<Vec<&'a Row>>, row: &'a Row) -> Result<(), AllocError>
    ensures { OnOk result (rows_of groups.new.items ≡ rows_of groups.old.items ++ (row.now ∷ []) ∷ []) }
{
    let mut group = Vec::new(alloc);
    group.push(row)?;
    groups.push(group)?;
    Ok(())
}

fn extend<'a>(groups: &mut Vec<Vec<&'a Row>>, place: usize, row: &'a Row) -> Result<(), AllocError>
    requires { place < length groups.old.items }
    ensures { OnOk result (rows_of groups.new.items ≡ with_row place row.now (rows_of groups.old.items)) }
{
    groups[place].push(row)?;
    Ok(())
}
