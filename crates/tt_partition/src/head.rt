//! The heads: of an image, and of a column.

ghost use Rattle.std.specs.Prelude.{◌≡◌, ◌-◌, ◌+◌, ◌<◌, ◌≤◌, ◌==◌, ◌&&◌, nat_lt, nat_le, not, length, take, drop, Ok, Err, Some, None};
ghost use Rattle.std.specs.Str.{bytes_eq};
ghost use Rattle.tt_partition.specs.Image.{magic};
ghost use Rattle.tt_partition.specs.ImageReading.{magic_at, row_count_at, column_count_at, kind_of as kind_of_code, kind_at, has_encoding as encoding_test, encoding_at, nulls_at, head_at};
ghost use Rattle.tt_partition.specs.Outcome.{Gives};

use crate::error::ImageError;
use crate::numbers::{bad, place, read_u8, read_u16, read_u32, read_u64};
use tt_value::Kind;

/// The bytes `TTP1`.
pub const MAGIC: [u8; 4] = [84, 84, 80, 49];

/// The most rows of a partition.
pub const MOST_ROWS: u32 = 65_536;

/// The most columns of a partition.
pub const MOST_COLUMNS: u16 = 32;

/// The bytes `TTP1`, and what stands behind them.
#[tactic(auto, unfolding(crate::specs::ImageReading::magic_at))]
pub fn read_magic(end: u64, bytes: &[u8]) -> Result<&[u8], ImageError>
    ensures { Gives (λ x. x.now) result (magic_at end bytes.now) }
{
    if bytes.len() < 4 {
        return Err(bad(end));
    }
    let (front, rest) = bytes.split_at(4);
    if front != MAGIC.as_slice() {
        return Err(bad(place(end, bytes)));
    }
    Ok(rest)
}

/// The number of rows, 1 to 65,536.
#[tactic(auto, unfolding(crate::specs::ImageReading::row_count_at))]
pub fn read_row_count(end: u64, bytes: &[u8]) -> Result<(u32, &[u8]), ImageError>
    ensures { Gives (λ x. (x.0, x.1.now)) result (row_count_at end bytes.now) }
{
    let (count, rest) = read_u32(end, bytes)?;
    if count == 0 || count > MOST_ROWS {
        return Err(bad(place(end, bytes)));
    }
    Ok((count, rest))
}

/// The number of columns, 1 to 32.
#[tactic(auto, unfolding(crate::specs::ImageReading::column_count_at))]
pub fn read_column_count(end: u64, bytes: &[u8]) -> Result<(u16, &[u8]), ImageError>
    ensures { Gives (λ x. (x.0, x.1.now)) result (column_count_at end bytes.now) }
{
    let (count, rest) = read_u16(end, bytes)?;
    if count == 0 || count > MOST_COLUMNS {
        return Err(bad(place(end, bytes)));
    }
    Ok((count, rest))
}

/// What stands in front of a column's bitmap.
#[derive(Clone, Copy)]
pub struct Head {
    pub kind: Kind,
    pub encoding: u8,
    pub nulls: bool,
    /// How many bytes the body is said to have.
    pub size: u64,
}

fn kind_of(code: u8) -> Option<Kind>
    ensures { result ≡ kind_of_code code }
{
    match code {
        1 => Some(Kind::Int),
        2 => Some(Kind::Date),
        3 => Some(Kind::Varchar),
        _ => None,
    }
}

#[tactic(auto, unfolding(crate::specs::ImageReading::kind_at))]
fn read_kind(end: u64, bytes: &[u8]) -> Result<(Kind, &[u8]), ImageError>
    ensures { Gives (λ x. (x.0, x.1.now)) result (kind_at end bytes.now) }
{
    let (code, rest) = read_u8(end, bytes)?;
    match kind_of(code) {
        None => Err(bad(place(end, bytes))),
        Some(kind) => Ok((kind, rest)),
    }
}

/// Whether columns of the kind have a form of this code.
fn has_encoding(kind: Kind, code: u8) -> bool
    ensures { result ≡ encoding_test kind code }
{
    match kind {
        Kind::Varchar => code <= 3 && code != 1,
        _ => code <= 3,
    }
}

#[tactic(auto, unfolding(crate::specs::ImageReading::encoding_at))]
fn read_encoding(kind: Kind, end: u64, bytes: &[u8]) -> Result<(u8, &[u8]), ImageError>
    ensures { Gives (λ x. (x.0, x.1.now)) result (encoding_at kind end bytes.now) }
{
    let (code, rest) = read_u8(end, bytes)?;
    if !has_encoding(kind, code) {
        return Err(bad(place(end, bytes)));
    }
    Ok((code, rest))
}

#[tactic(auto, unfolding(crate::specs::ImageReading::nulls_at))]
fn read_nulls(end: u64, bytes: &[u8]) -> Result<(bool, &[u8]), ImageError>
    ensures { Gives (λ x. (x.0, x.1.now)) result (nulls_at end bytes.now) }
{
    let (code, rest) = read_u8(end, bytes)?;
    if code > 1 {
        return Err(bad(place(end, bytes)));
    }
    Ok((code == 1, rest))
}

/// The head of a column, and what stands behind it.
#[tactic(auto, unfolding(crate::specs::ImageReading::head_at))]
pub fn read_head(end: u64, bytes: &[u8]) -> Result<(Head, &[u8]), ImageError>
    ensures { Gives (λ x. (x.0, x.1.now)) result (head_at end bytes.now) }
{
    let (kind, rest) = read_kind(end, bytes)?;
    let (encoding, rest) = read_encoding(kind, end, rest)?;
    let (nulls, rest) = read_nulls(end, rest)?;
    let (size, rest) = read_u64(end, rest)?;
    let head = Head {
        kind,
        encoding,
        nulls,
        size,
    };
    Ok((head, rest))
}
