//! Reading an image.

ghost use Rattle.std.specs.Prelude.{◌≡◌, ◌+◌, ◌-◌, ◌^◌, ◌<◌, ◌≤◌, length, map, take, drop, IfOk};
ghost use Rattle.tt_value.specs.columns.Reading.{values_at};
ghost use Rattle.tt_partition.specs.ImageReading.{bitmap_size as size_of_bitmap, behind as bytes_behind, bitmap_in, body_in, values_in, fault_place as place_of_fault, column_values_at, column_at, no_order, columns_in};
ghost use Rattle.tt_partition.specs.Outcome.{Gives, GivesColumn};
ghost use Rattle.tt_partition.specs.ColumnView.{column_values, column_kind, column_view};

use crate::column::{ColumnError, ColumnValues, read_values};
use crate::error::ImageError;
use crate::head::{Head, read_column_count, read_head, read_magic, read_row_count};
use crate::numbers::{bad, place};
use std::alloc::Global;
use tt_value::{BadColumn, FaultAt};

/// So many bytes, or all where there are fewer, and what stands behind them.
fn split(bytes: &[u8], size: u64) -> (&[u8], &[u8])
    ensures front { result.0.now ≡ take size bytes.now }
    ensures rest { result.1.now ≡ drop size bytes.now }
{
    let at = size.min(bytes.len() as u64) as usize;
    bytes.split_at(at)
}

/// How many bytes the bitmap has.
fn bitmap_size(rows: u32, nulls: bool) -> u64
    ensures { result ≡ size_of_bitmap rows nulls }
{
    if nulls { (u64::from(rows) + 7) / 8 } else { 0 }
}

/// The place of the fault of a column.
fn fault_place(encoding: u64, bitmap: u64, end: u64, short: bool, fault: BadColumn) -> u64
    requires { bitmap + fault.place < 2 ^ 64 }
    ensures { result ≡ place_of_fault encoding bitmap end short fault.place fault.at }
{
    match fault.at {
        FaultAt::Byte => bitmap + fault.place,
        FaultAt::Encoding => encoding,
        FaultAt::Longer => { if short { end } else { encoding } }
    }
}

/// The values of a column whose encoding stands at a place, from what stands behind its head.
#[tactic(auto, unfolding(crate::specs::ImageReading::column_values_at))]
fn read_column_values(
    alloc: Global,
    rows: u32,
    encoding: u64,
    end: u64,
    head: Head,
    bytes: &[u8],
) -> Result<ColumnValues<'_>, ImageError>
    ensures values { Gives column_values result (column_values_at rows encoding end head bytes.now) }
    ensures kind { IfOk result (λ column. column_kind column ≡ head.kind) }
{
    let (bitmap, rest) = split(bytes, bitmap_size(rows, head.nulls));
    let (body, _behind) = split(rest, head.size);
    let short = (body.len() as u64) < head.size;
    match read_values(
        alloc,
        head.kind,
        rows,
        head.encoding,
        head.nulls,
        bitmap,
        body,
    ) {
        Err(ColumnError::Memory) => Err(ImageError::Memory),
        Err(ColumnError::BadColumn(fault)) => {
            let begin = place(end, bytes);
            Err(bad(fault_place(encoding, begin, end, short, fault)))
        }
        Ok(values) => {
            if short {
                return Err(bad(end));
            }
            Ok(values)
        }
    }
}

/// What stands behind a column, from what stands behind its head.
pub fn behind(rows: u32, head: Head, bytes: &[u8]) -> &[u8]
    ensures { result.now ≡ bytes_behind rows head bytes.now }
{
    let (_bitmap, rest) = split(bytes, bitmap_size(rows, head.nulls));
    let (_body, behind) = split(rest, head.size);
    behind
}

/// A column of so many values, and what stands behind it.
#[tactic(auto, unfolding(crate::specs::ImageReading::column_at))]
pub fn read_column(
    alloc: Global,
    rows: u32,
    end: u64,
    bytes: &[u8],
) -> Result<(ColumnValues<'_>, &[u8]), ImageError>
    ensures { Gives (λ x. (column_view x.0, x.1.now)) result (column_at rows end bytes.now) }
{
    let (head, rest) = read_head(end, bytes)?;
    let (_kind, behind_kind) = split(bytes, 1);
    let encoding = place(end, behind_kind);
    let values = read_column_values(alloc, rows, encoding, end, head, rest)?;
    Ok((values, behind(rows, head, rest)))
}

/// So many columns, and what stands behind them.
fn read_columns(
    alloc: Global,
    rows: u32,
    end: u64,
    count: u16,
    bytes: &[u8],
) -> Result<(Vec<ColumnValues<'_>>, &[u8]), ImageError>
    ensures { Gives (λ x. (map column_view x.0.items, x.1.now)) result
        (values_at (column_at rows) no_order end count bytes.now) }
{
    let mut columns = Vec::with_capacity(alloc, count as usize)?;
    let mut rest = bytes;
    for _turn in 0..count {
        let (column, after) = read_column(alloc, rows, end, rest)?;
        columns.push(column)?;
        rest = after;
    }
    Ok((columns, rest))
}

/// The columns of an image, each of so many values.
#[derive(Drop)]
pub struct Columns<'a> {
    pub rows: u32,
    pub columns: Vec<ColumnValues<'a>>,
}

/// The columns of an image, or the place of the first fault.
#[tactic(auto, unfolding(crate::specs::ImageReading::columns_in))]
pub fn read_image(alloc: Global, bytes: &[u8]) -> Result<Columns<'_>, ImageError>
    ensures { Gives (λ x. (x.rows, map column_view x.columns.items)) result (columns_in bytes.now) }
{
    let end = bytes.len() as u64;
    let rest = read_magic(end, bytes)?;
    let (rows, rest) = read_row_count(end, rest)?;
    let (count, rest) = read_column_count(end, rest)?;
    let (columns, rest) = read_columns(alloc, rows, end, count, rest)?;
    if !rest.is_empty() {
        return Err(bad(place(end, rest)));
    }
    Ok(Columns { rows, columns })
}
