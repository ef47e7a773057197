//! One condition over all rows of a partition. Each loop stands by itself.

ghost use Rattle.std.specs.Prelude.{◌≡◌, ℕ, IfOk, map};
ghost use Rattle.std.specs.List.{range_with_len};
ghost use Rattle.tt_value.specs.trees.Predicates as spec;
ghost use Rattle.tt_value.specs.trees.Truths.{truth_of_bool};
ghost use Rattle.tt_filter.specs.RowTruths.{HasTruths};
ghost use Rattle.tt_filter.specs.Sides.{value_in, side_value, sides_compared, side_null, side_begins};

use crate::given::{begins, compared, null};
use crate::sides::{Side, Values, side_kind, value_at, values_beside};
use crate::truths::Truths;
use std::alloc::{AllocError, Global};
use tt_value::{Comparison, Text};

/// What a sign says of the values of two operands, row by row.
fn compare_values(
    alloc: Global,
    rows: usize,
    left: &Values<'_>,
    sign: Comparison,
    right: &Values<'_>,
) -> Result<Truths, AllocError>
    ensures { IfOk result (HasTruths
        (map (λ k. spec.compared sign (value_in left.now k) (value_in right.now k)) (range_with_len 0 rows))) }
{
    let mut found = Truths::with_room(alloc, rows)?;
    for at in 0..rows {
        let truth = compared(sign, value_at(left, at), value_at(right, at));
        found.push(truth)?;
    }
    Ok(found)
}

/// Whether the values of an operand are NULL, row by row.
fn null_values(alloc: Global, rows: usize, values: &Values<'_>) -> Result<Truths, AllocError>
    ensures { IfOk result (HasTruths
        (map (λ k. truth_of_bool (spec.is_null (value_in values.now k))) (range_with_len 0 rows))) }
{
    let mut found = Truths::with_room(alloc, rows)?;
    for at in 0..rows {
        found.push(null(value_at(values, at)))?;
    }
    Ok(found)
}

/// Whether the values of an operand begin with these bytes, row by row.
fn begin_values(
    alloc: Global,
    rows: usize,
    values: &Values<'_>,
    front: &[u8],
) -> Result<Truths, AllocError>
    ensures { IfOk result (HasTruths
        (map (λ k. spec.begins (value_in values.now k) front.now) (range_with_len 0 rows))) }
{
    let mut found = Truths::with_room(alloc, rows)?;
    for at in 0..rows {
        found.push(begins(value_at(values, at), front))?;
    }
    Ok(found)
}

/// A comparison of two operands, each read beside the kind of the other, on so many rows.
pub fn compare_sides(
    alloc: Global,
    rows: usize,
    left: Side<'_>,
    sign: Comparison,
    right: Side<'_>,
) -> Result<Truths, AllocError>
    ensures { IfOk result (HasTruths
        (map (sides_compared left.entry sign right.entry) (range_with_len 0 rows))) }
{
    let left_values = values_beside(side_kind(right), left);
    let right_values = values_beside(side_kind(left), right);
    compare_values(alloc, rows, &left_values, sign, &right_values)
}

/// Whether an operand is NULL, on so many rows.
pub fn null_side(alloc: Global, rows: usize, side: Side<'_>) -> Result<Truths, AllocError>
    ensures { IfOk result (HasTruths (map (side_null side.entry) (range_with_len 0 rows))) }
{
    let values = values_beside(None, side);
    null_values(alloc, rows, &values)
}

/// Whether an operand begins with a text, on so many rows.
pub fn begin_side(
    alloc: Global,
    rows: usize,
    side: Side<'_>,
    front: &Text,
) -> Result<Truths, AllocError>
    ensures { IfOk result (HasTruths (map (side_begins side.entry front.now) (range_with_len 0 rows))) }
{
    let values = values_beside(None, side);
    begin_values(alloc, rows, &values, front.as_str().as_bytes())
}
