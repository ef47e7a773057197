//! The parts of a column's bytes: numbers, values, packed numbers and the bitmap.

ghost use Rattle.std.specs.Prelude.{◌≡◌, ◌+◌, ◌-◌, ◌^◌, ◌<◌, ◌≤◌, length, All, Ok, Err};
ghost use Rattle.std.specs.Int.{w8, w32, w64};
ghost use Rattle.tt_value.specs.columns.Reading.{number_at, packed_at, count_at};
ghost use Rattle.tt_intcol.specs.IntReading.{GivesOne, value_at, int_at, date_at, is_day as day_test};
ghost use Rattle.tt_intcol.specs.declared.parts.PartError.TheVariants as part_errors;

use std::alloc::{AllocError, AllocFailed, Global};
use tt_value::{Kind, Sequence, packing};

/// The first and the last day of the years 1 to 9999.
pub const FIRST_DAY: i64 = -719_162;

/// The day 9999-12-31. Both are days since 1970-01-01.
pub const LAST_DAY: i64 = 2_932_896;

/// Why a part was not read: memory ran out, or it has a fault at that place of bitmap and body.
#[derive(Drop)]
pub enum PartError {
    Memory,
    At(u64),
}

impl From<AllocError> for PartError {
    ghost from_gives = { λ _ e. e ≡ part_errors.Memory };

    fn from(_error: AllocError) -> PartError {
        PartError::Memory
    }
}

impl<T: Drop> From<AllocFailed<T>> for PartError {
    ghost from_gives = { λ _ e. e ≡ part_errors.Memory };

    fn from(_error: AllocFailed<T>) -> PartError {
        PartError::Memory
    }
}

/// The place where what is left begins, if the bytes end at `end`.
pub fn place(end: u64, bytes: &[u8]) -> u64
    ensures { result ≡ end - length bytes.now }
{
    end.saturating_sub(bytes.len() as u64)
}

/// Bytes are below 256.
pub fn are_bytes(bytes: &[u8])
    ensures { All (λ byte. byte < 256) bytes.now }
{}

/// The bytes of a part.
pub fn part(bytes: &Sequence<u8>) -> &[u8]
    ensures same { result.now ≡ bytes.now }
    ensures bytes { All (λ byte. byte < 256) result.now }
{
    let part = bytes.items();
    are_bytes(part);
    part
}

/// A fault at that place.
pub fn bad(place: u64) -> PartError
    ensures { result ≡ PartError.At place }
{
    PartError::At(place)
}

/// A byte, and what stands behind it. Where there is none the fault is at `end`.
pub fn read_byte(end: u64, bytes: &[u8]) -> Result<(u8, &[u8]), PartError>
    ensures { GivesOne result (number_at w8 end bytes.now) }
{
    match bytes.split_first() {
        Some((first, rest)) => Ok((*first, rest)),
        None => Err(bad(end)),
    }
}

/// Four bytes, the least significant first, and what stands behind them. Where there are fewer the fault is at
/// `end`.
pub fn read_u32(end: u64, bytes: &[u8]) -> Result<(u32, &[u8]), PartError>
    ensures { GivesOne result (number_at w32 end bytes.now) }
{
    if bytes.len() < 4 {
        return Err(bad(end));
    }
    let (front, rest) = bytes.split_at(4);
    let number = u32::from_le_bytes([front[0], front[1], front[2], front[3]]);
    Ok((number, rest))
}

/// Eight bytes in the same way.
pub fn read_u64(end: u64, bytes: &[u8]) -> Result<(u64, &[u8]), PartError>
    ensures { GivesOne result (number_at w64 end bytes.now) }
{
    if bytes.len() < 8 {
        return Err(bad(end));
    }
    let (front, rest) = bytes.split_at(8);
    let number = u64::from_le_bytes([
        front[0], front[1], front[2], front[3], front[4], front[5], front[6], front[7],
    ]);
    Ok((number, rest))
}

/// Whether a day, counted from 1970-01-01, is one of the years 1 to 9999.
pub fn is_day(number: i64) -> bool
    ensures { result ≡ day_test number }
{
    FIRST_DAY <= number && number <= LAST_DAY
}

#[tactic(auto, unfolding(crate::specs::IntReading::int_at))]
fn read_int(end: u64, bytes: &[u8]) -> Result<(i64, &[u8]), PartError>
    ensures { GivesOne result (int_at end bytes.now) }
{
    let (number, rest) = read_u64(end, bytes)?;
    Ok((number.cast_signed(), rest))
}

#[tactic(auto, unfolding(crate::specs::IntReading::date_at))]
fn read_date(end: u64, bytes: &[u8]) -> Result<(i64, &[u8]), PartError>
    ensures { GivesOne result (date_at end bytes.now) }
{
    let (number, rest) = read_u32(end, bytes)?;
    let day = i64::from(number.cast_signed());
    if !is_day(day) {
        return Err(bad(place(end, bytes)));
    }
    Ok((day, rest))
}

/// A value of the kind.
pub fn read_value(kind: Kind, end: u64, bytes: &[u8]) -> Result<(i64, &[u8]), PartError>
    ensures { GivesOne result (value_at kind end bytes.now) }
{
    match kind {
        Kind::Date => read_date(end, bytes),
        _ => read_int(end, bytes),
    }
}

/// A number of runs or of distinct values.
#[tactic(auto, unfolding(tt_value::specs::columns::Reading::count_at))]
pub fn read_count(end: u64, most: usize, bytes: &[u8]) -> Result<(u32, &[u8]), PartError>
    ensures { GivesOne result (count_at end most bytes.now) }
{
    let (count, rest) = read_u32(end, bytes)?;
    if count as usize > most || (count == 0 && most != 0) {
        return Err(bad(place(end, bytes)));
    }
    Ok((count, rest))
}
