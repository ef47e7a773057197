//! The parts of a column's bytes: numbers, texts and packed numbers.

ghost use Rattle.std.specs.Prelude.{◌≡◌, ◌+◌, ◌-◌, ◌*◌, ◌^◌, ◌<◌, ◌≤◌, true, false, length, Ok, Err, MatchOption};
ghost use Rattle.std.specs.List.{position};
ghost use Rattle.std.specs.Int.{w16, w32};
ghost use Rattle.tt_value.specs.values.Texts.{is_control as control_test};
ghost use Rattle.tt_value.specs.columns.Packing.{bytes_for};
ghost use Rattle.tt_value.specs.columns.Reading.{number_at, packed_at, count_at};
ghost use Rattle.tt_value.specs.columns.Steps.{SomeWhere};
ghost use Rattle.tt_textcol.specs.TextReading.{GivesOne, GivesList, is_text, text_at};
ghost use Rattle.tt_textcol.specs.declared.parts.PartError.TheVariants as part_errors;

use crate::text_ref::TextRef;
use std::alloc::{AllocError, AllocFailed, Global};
use tt_value::packing;

/// Why a part was not read: memory ran out, or it has a fault at that place of bitmap and body.
#[derive(Drop)]
pub enum PartError {
    Memory,
    At(u64),
}

impl From<AllocError> for PartError {
    ghost from_gives = { λ _ e. e ≡ part_errors.Memory };

    fn from(_error: AllocError) -> PartError {
        PartError::Memory
    }
}

impl<T: Drop> From<AllocFailed<T>> for PartError {
    ghost from_gives = { λ _ e. e ≡ part_errors.Memory };

    fn from(_error: AllocFailed<T>) -> PartError {
        PartError::Memory
    }
}

/// The place where what is left begins, if the bytes end at `end`.
pub fn place(end: u64, bytes: &[u8]) -> u64
    ensures { result ≡ end - length bytes.now }
{
    end.saturating_sub(bytes.len() as u64)
}

/// A fault at that place.
pub fn bad(place: u64) -> PartError
    ensures { result ≡ PartError.At place }
{
    PartError::At(place)
}

fn read_u16(end: u64, bytes: &[u8]) -> Result<(u16, &[u8]), PartError>
    ensures { GivesOne result (number_at w16 end bytes.now) }
{
    if bytes.len() < 2 {
        return Err(bad(end));
    }
    let (front, rest) = bytes.split_at(2);
    let number = u16::from_le_bytes([front[0], front[1]]);
    Ok((number, rest))
}

/// Four bytes, the least significant first, and what stands behind them. Where there are fewer the fault is at
/// `end`.
pub fn read_u32(end: u64, bytes: &[u8]) -> Result<(u32, &[u8]), PartError>
    ensures { GivesOne result (number_at w32 end bytes.now) }
{
    if bytes.len() < 4 {
        return Err(bad(end));
    }
    let (front, rest) = bytes.split_at(4);
    let number = u32::from_le_bytes([front[0], front[1], front[2], front[3]]);
    Ok((number, rest))
}

fn is_control(byte: u8) -> bool
    ensures { result ≡ control_test byte }
{
    byte < 0x20 || byte == 0x7f
}

fn first_control(bytes: &[u8]) -> Option<usize>
    ensures { result ≡ position control_test bytes.now }
{
    bytes.iter().position(|byte| is_control(*byte))
}

/// These bytes as a text, where they are one that a column may hold.
fn text_of(bytes: &[u8]) -> Option<TextRef<'_>>
    requires { length bytes.now ≤ 65535 }
    ensures { SomeWhere (is_text bytes.now) (λ t. t) bytes.now result }
{
    let Ok(text) = str::from_utf8(bytes) else {
        return None;
    };
    match first_control(bytes) {
        Some(_) => None,
        None => Some(TextRef::new(text)),
    }
}

/// A text with its length.
#[tactic(auto, unfolding(crate::specs::TextReading::text_at))]
pub fn read_text(end: u64, bytes: &[u8]) -> Result<(TextRef<'_>, &[u8]), PartError>
    ensures { GivesOne result (text_at end bytes.now) }
{
    let (length, rest) = read_u16(end, bytes)?;
    let length = length as usize;
    if rest.len() < length {
        return Err(bad(end));
    }
    let (front, after) = rest.split_at(length);
    match text_of(front) {
        None => Err(bad(place(end, bytes))),
        Some(text) => Ok((text, after)),
    }
}

/// A number of runs or of distinct values.
#[tactic(auto, unfolding(tt_value::specs::columns::Reading::count_at))]
pub fn read_count(end: u64, most: usize, bytes: &[u8]) -> Result<(u32, &[u8]), PartError>
    ensures { GivesOne result (count_at end most bytes.now) }
{
    let (count, rest) = read_u32(end, bytes)?;
    if count as usize > most || (count == 0 && most != 0) {
        return Err(bad(place(end, bytes)));
    }
    Ok((count, rest))
}

/// How many bytes so many numbers of that width take.
pub fn packed_size(count: usize, width: u32) -> u128
    requires { width < 256 }
    ensures { result ≡ bytes_for (count * width) }
{
    (count as u128 * u128::from(width) + 7) / 8
}

/// Packed numbers.
#[tactic(auto, unfolding(tt_value::specs::columns::Reading::packed_at))]
pub fn read_packed(
    alloc: Global,
    end: u64,
    width: u32,
    count: usize,
    bytes: &[u8],
) -> Result<(Vec<u64>, &[u8]), PartError>
    requires { width ≤ 64 }
    ensures { GivesList result (packed_at end width count bytes.now) }
{
    let size = packed_size(count, width);
    if (bytes.len() as u128) < size {
        return Err(bad(end));
    }
    let (front, rest) = bytes.split_at(size as usize);
    match packing::unpack(alloc, front, width, count)? {
        None => Err(bad(place(end, bytes))),
        Some(numbers) => Ok((numbers, rest)),
    }
}
