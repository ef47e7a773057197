//! Reading one column of an image.

ghost use Rattle.std.specs.Prelude.{◌≡◌};
ghost use Rattle.tt_partition.specs.Picking.{past_column, past_columns, column_in};
ghost use Rattle.tt_partition.specs.Outcome.{Gives};
ghost use Rattle.tt_partition.specs.ColumnView.{column_view};

use crate::column::ColumnValues;
use crate::error::ImageError;
use crate::head::{read_column_count, read_head, read_magic, read_row_count};
use crate::reading::{behind, read_column};
use std::alloc::Global;

/// What stands behind a column. Only its head is looked at.
#[tactic(auto, unfolding(crate::specs::Picking::past_column))]
fn skip_column(rows: u32, end: u64, bytes: &[u8]) -> Result<&[u8], ImageError>
    ensures { Gives (λ x. x.now) result (past_column rows end bytes.now) }
{
    let (head, rest) = read_head(end, bytes)?;
    Ok(behind(rows, head, rest))
}

/// What stands behind so many columns.
fn skip_columns(rows: u32, end: u64, count: usize, bytes: &[u8]) -> Result<&[u8], ImageError>
    ensures { Gives (λ x. x.now) result (past_columns rows end count bytes.now) }
{
    let mut rest = bytes;
    for _turn in 0..count {
        rest = skip_column(rows, end, rest)?;
    }
    Ok(rest)
}

/// The column at a place, or the place of the first fault.
#[tactic(auto, unfolding(crate::specs::Picking::column_in))]
pub fn pick_column(
    alloc: Global,
    place: usize,
    bytes: &[u8],
) -> Result<ColumnValues<'_>, ImageError>
    ensures { Gives column_view result (column_in place bytes.now) }
{
    let end = bytes.len() as u64;
    let rest = read_magic(end, bytes)?;
    let (rows, rest) = read_row_count(end, rest)?;
    let (_count, rest) = read_column_count(end, rest)?;
    let rest = skip_columns(rows, end, place, rest)?;
    let (column, _behind) = read_column(alloc, rows, end, rest)?;
    Ok(column)
}
