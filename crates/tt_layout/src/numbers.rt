//! Ascending lists of part numbers, put together and taken apart in one pass.
ghost use Rattle.std.specs.Prelude.{◌≡◌, ◌++◌, true, IfOk};
ghost use Rattle.tt_layout.specs.Numbers.{IsAscending, without, joined};

use std::alloc::{AllocError, Global};

/// The numbers that are not in the other list.
pub(crate) fn remaining(
    alloc: Global,
    mut numbers: &[u64],
    mut gone: &[u64],
) -> Result<Vec<u64>, AllocError>
    requires numbers { IsAscending numbers.now }
    requires gone { IsAscending gone.now }
    ensures { IfOk result (λ kept. kept.items ≡ without gone.now numbers.now) }
{
    let mut kept = Vec::with_capacity(alloc, numbers.len())?;
    while let (Some((number, later)), Some((taken, others))) = (
        numbers.split_first(),
        gone.split_first(),
    ) {
        if *number < *taken {
            kept.push(*number)?;
            numbers = later;
        } else if *taken < *number {
            gone = others;
        } else {
            numbers = later;
        }
    }
    kept.extend_from_slice(numbers)?;
    Ok(kept)
}

// Whether each number of the one list is below each of the other.
fn is_below(left: &[u64], right: &[u64]) -> bool
    requires left { IsAscending left.now }
    requires right { IsAscending right.now }
    ensures { result ≡ true → left.now ++ right.now ≡ joined left.now right.now }
{
    match (left.last(), right.first()) {
        (Some(last), Some(first)) => *last < *first,
        _ => true,
    }
}

// The numbers of the one list, and behind them those of the other.
fn appended(alloc: Global, left: &[u64], right: &[u64]) -> Result<Vec<u64>, AllocError>
    ensures { IfOk result (λ numbers. numbers.items ≡ left.now ++ right.now) }
{
    let mut numbers = Vec::with_capacity(alloc, left.len() + right.len())?;
    numbers.extend_from_slice(left)?;
    numbers.extend_from_slice(right)?;
    Ok(numbers)
}

/// The numbers of both lists. Where one is below the other, it is copied as a whole.
pub(crate) fn merged(
    alloc: Global,
    mut left: &[u64],
    mut right: &[u64],
) -> Result<Vec<u64>, AllocError>
    requires left { IsAscending left.now }
    requires right { IsAscending right.now }
    ensures { IfOk result (λ both. both.items ≡ joined left.now right.now) }
{
    if is_below(left, right) {
        return appended(alloc, left, right);
    }
    let mut both = Vec::with_capacity(alloc, left.len() + right.len())?;
    while let (Some((first, firsts)), Some((second, seconds))) = (
        left.split_first(),
        right.split_first(),
    ) {
        if *first < *second {
            both.push(*first)?;
            left = firsts;
        } else if *second < *first {
            both.push(*second)?;
            right = seconds;
        } else {
            left = firsts;
        }
    }
    both.extend_from_slice(left)?;
    both.extend_from_slice(right)?;
    Ok(both)
}

/// The numbers of both lists. Where the one is below the other, it is given back and nothing of it is copied.
pub(crate) fn put_behind(
    alloc: Global,
    mut left: Vec<u64>,
    right: &[u64],
) -> Result<Vec<u64>, AllocError>
    requires left { IsAscending left.items }
    requires right { IsAscending right.now }
    ensures { IfOk result (λ both. both.items ≡ joined left.items right.now) }
{
    if is_below(&left, right) {
        left.extend_from_slice(right)?;
        return Ok(left);
    }
    merged(alloc, &left, right)
}
