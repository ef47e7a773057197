//! Numbers in an image, the least significant byte first.

ghost use Rattle.std.specs.Prelude.{◌≡◌, ◌-◌, ◌^◌, ◌<◌, length, Ok, Err};
ghost use Rattle.std.specs.Int.{w8, w16, w32, w64};
ghost use Rattle.tt_value.specs.columns.Reading.{number_at};
ghost use Rattle.tt_partition.specs.Outcome.{Gives};

use crate::error::{BadImage, ImageError};

/// The place where what is left begins, if the bytes end at `end`.
pub fn place(end: u64, bytes: &[u8]) -> u64
    ensures place { result ≡ end - length bytes.now }
    ensures few { length bytes.now < 2 ^ 64 }
{
    end.saturating_sub(bytes.len() as u64)
}

/// A fault at that place.
pub fn bad(place: u64) -> ImageError
    ensures { result ≡ ImageError.BadImage (record { place = place }) }
{
    ImageError::BadImage(BadImage { place })
}

/// A byte, and what stands behind it. Where there is none the fault is at `end`.
pub fn read_u8(end: u64, bytes: &[u8]) -> Result<(u8, &[u8]), ImageError>
    ensures { Gives (λ x. (x.0, x.1.now)) result (number_at w8 end bytes.now) }
{
    match bytes.split_first() {
        Some((first, rest)) => Ok((*first, rest)),
        None => Err(bad(end)),
    }
}

/// Two bytes, and what stands behind them.
pub fn read_u16(end: u64, bytes: &[u8]) -> Result<(u16, &[u8]), ImageError>
    ensures { Gives (λ x. (x.0, x.1.now)) result (number_at w16 end bytes.now) }
{
    if bytes.len() < 2 {
        return Err(bad(end));
    }
    let (front, rest) = bytes.split_at(2);
    let number = u16::from_le_bytes([front[0], front[1]]);
    Ok((number, rest))
}

/// Four bytes, and what stands behind them.
pub fn read_u32(end: u64, bytes: &[u8]) -> Result<(u32, &[u8]), ImageError>
    ensures { Gives (λ x. (x.0, x.1.now)) result (number_at w32 end bytes.now) }
{
    if bytes.len() < 4 {
        return Err(bad(end));
    }
    let (front, rest) = bytes.split_at(4);
    let number = u32::from_le_bytes([front[0], front[1], front[2], front[3]]);
    Ok((number, rest))
}

/// Eight bytes, and what stands behind them.
pub fn read_u64(end: u64, bytes: &[u8]) -> Result<(u64, &[u8]), ImageError>
    ensures { Gives (λ x. (x.0, x.1.now)) result (number_at w64 end bytes.now) }
{
    if bytes.len() < 8 {
        return Err(bad(end));
    }
    let (front, rest) = bytes.split_at(8);
    let number = u64::from_le_bytes([
        front[0], front[1], front[2], front[3], front[4], front[5], front[6], front[7],
    ]);
    Ok((number, rest))
}
