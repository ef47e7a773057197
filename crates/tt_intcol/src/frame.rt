//! Reading the body of a frame.

ghost use Rattle.std.specs.Prelude.{◌≡◌, ◌+◌, ◌-◌, ◌*◌, ◌^◌, ◌<◌, ◌≤◌, ◌==◌, ◌&&◌, nat_lt, if◌then◌else◌, true, false, length, map, pos, ◌+ℤ◌, IfOk, MatchOption};
ghost use Rattle.std.specs.List.{list_any, list_all};
ghost use Rattle.std.specs.Int.RustNames.{int_le};
ghost use Rattle.tt_value.specs.columns.Packing.{bytes_for, width_of};
ghost use Rattle.tt_intcol.specs.IntBody.{greatest_of};
ghost use Rattle.tt_value.specs.columns.Steps.{SomeWhere};
ghost use Rattle.tt_intcol.specs.IntReading.{packed_fault, GivesList, frame_at, top_of as top_value, is_within, is_frame};

use crate::parts::{LAST_DAY, PartError, bad, place, read_byte, read_value};
use crate::reading::{packed_size, read_packed};
use std::alloc::{AllocError, Global};
use tt_value::{Kind, packing};

fn top_of(kind: Kind) -> i64
    ensures { result ≡ top_value kind }
{
    match kind {
        Kind::Date => LAST_DAY,
        _ => i64::MAX,
    }
}

fn has_zero(numbers: &[u64]) -> bool
    ensures { result ≡ list_any (λ n. n == 0) numbers.now }
{
    numbers.iter().any(|number| *number == 0)
}

/// The greatest difference of a frame, 0 where there are none.
pub fn greatest(numbers: &[u64]) -> u64
    ensures { result ≡ greatest_of numbers.now }
{
    let mut most = 0u64;
    for number in numbers {
        most = most.max(*number);
    }
    most
}

/// The value so far above another; none past the greatest of the kind.
fn raise(kind: Kind, low: i64, number: u64) -> Option<i64>
    ensures { SomeWhere (is_within kind low number) (λ v. v) (low +ℤ pos number) result }
{
    let value = low.checked_add_unsigned(number)?;
    if value > top_of(kind) {
        return None;
    }
    Some(value)
}

/// The values so far above the least; none where one is past the greatest of the kind.
fn raised(
    alloc: Global,
    kind: Kind,
    low: i64,
    numbers: &[u64],
) -> Result<Option<Vec<i64>>, AllocError>
    ensures { IfOk result (λ found. MatchOption found
        (list_all (is_within kind low) numbers.now ≡ false)
        (λ v. (list_all (is_within kind low) numbers.now ≡ true) × (v.items ≡ map (λ n. low +ℤ pos n) numbers.now))) }
{
    let mut values = Vec::with_capacity(alloc, numbers.len())?;
    for number in numbers {
        match raise(kind, low, *number) {
            None => return Ok(None),
            Some(value) => values.push(value)?,
        }
    }
    Ok(Some(values))
}

/// The values of a frame; none where its differences are not those of a frame.
fn frame_values(
    alloc: Global,
    kind: Kind,
    low: i64,
    width: u8,
    numbers: &[u64],
) -> Result<Option<Vec<i64>>, AllocError>
    ensures { IfOk result (λ found. MatchOption found
        (is_frame kind low width numbers.now ≡ false)
        (λ v. (is_frame kind low width numbers.now ≡ true) × (v.items ≡ map (λ n. low +ℤ pos n) numbers.now))) }
{
    if !has_zero(numbers) {
        return Ok(None);
    }
    if packing::width_of(greatest(numbers)) != u32::from(width) {
        return Ok(None);
    }
    raised(alloc, kind, low, numbers)
}

/// The fault of packed numbers that are wider than any difference.
fn too_wide(end: u64, width: u8, count: usize, bytes: &[u8]) -> PartError
    ensures { result ≡ PartError.At (packed_fault end width count bytes.now) }
{
    if (bytes.len() as u128) < packed_size(count, u32::from(width)) {
        bad(end)
    } else {
        bad(place(end, bytes))
    }
}

/// The values of a frame, of which there are so many.
#[tactic(auto, unfolding(crate::specs::IntReading::frame_at))]
pub fn read_frame(
    alloc: Global,
    kind: Kind,
    end: u64,
    count: usize,
    bytes: &[u8],
) -> Result<(Vec<i64>, &[u8]), PartError>
    ensures { GivesList result (frame_at kind end count bytes.now) }
{
    let (low, rest) = read_value(kind, end, bytes)?;
    let (width, rest) = read_byte(end, rest)?;
    if width > 64 {
        return Err(too_wide(end, width, count, rest));
    }
    let (numbers, after) = read_packed(alloc, end, u32::from(width), count, rest)?;
    match frame_values(alloc, kind, low, width, &numbers)? {
        None => Err(bad(place(end, rest))),
        Some(values) => Ok((values, after)),
    }
}
