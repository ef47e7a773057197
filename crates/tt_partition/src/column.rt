//! The values of a column, read from its bytes.

ghost use Rattle.std.specs.Prelude.{◌≡◌, IfOk};
ghost use Rattle.tt_intcol.specs.IntReading as numbers_read;
ghost use Rattle.tt_textcol.specs.TextReading as texts_read;
ghost use Rattle.tt_partition.specs.ImageReading.{values_in};
ghost use Rattle.tt_partition.specs.Outcome.{GivesColumn};
ghost use Rattle.tt_partition.specs.ColumnView.{column_values, column_kind};

use std::alloc::Global;
use tt_textcol::TextRef;
use tt_value::{BadColumn, Kind, Sequence};

/// The values of a column in the order of the rows, None for NULL. A date is a day number, day 0 being
/// 1970-01-01. The texts stand in the image, and none is copied.
#[derive(Drop)]
pub enum ColumnValues<'a> {
    Ints(Sequence<Option<i64>>),
    Dates(Sequence<Option<i64>>),
    Texts(Sequence<Option<TextRef<'a>>>),
}

/// Why there are no values: memory ran out, or the bytes are no column.
#[derive(Drop)]
pub enum ColumnError {
    Memory,
    BadColumn(BadColumn),
}

fn read_numbers(
    alloc: Global,
    kind: Kind,
    rows: u32,
    encoding: u8,
    nulls: bool,
    bitmap: &[u8],
    body: &[u8],
) -> Result<Sequence<Option<i64>>, ColumnError>
    ensures { GivesColumn (λ v. v) result
        (numbers_read.rows_of kind rows (numbers_read.column_with encoding nulls bitmap.now body.now)) }
{
    match tt_intcol::decode_parts(alloc, kind, rows, encoding, nulls, bitmap, body) {
        Ok(numbers) => Ok(Sequence::from_vec(numbers)),
        Err(tt_intcol::DecodeError::Memory) => Err(ColumnError::Memory),
        Err(tt_intcol::DecodeError::BadColumn(bad)) => Err(ColumnError::BadColumn(bad)),
    }
}

fn read_texts<'a>(
    alloc: Global,
    rows: u32,
    encoding: u8,
    nulls: bool,
    bitmap: &[u8],
    body: &'a [u8],
) -> Result<Sequence<Option<TextRef<'a>>>, ColumnError>
    ensures { GivesColumn (λ v. v) result
        (texts_read.rows_of rows (texts_read.column_with encoding nulls bitmap.now body.now)) }
{
    match tt_textcol::decode_refs(alloc, rows, encoding, nulls, bitmap, body) {
        Ok(texts) => Ok(Sequence::from_vec(texts)),
        Err(tt_textcol::DecodeError::Memory) => Err(ColumnError::Memory),
        Err(tt_textcol::DecodeError::BadColumn(bad)) => Err(ColumnError::BadColumn(bad)),
    }
}

/// So many values of the kind, from a bitmap and a body.
pub fn read_values<'a>(
    alloc: Global,
    kind: Kind,
    rows: u32,
    encoding: u8,
    nulls: bool,
    bitmap: &[u8],
    body: &'a [u8],
) -> Result<ColumnValues<'a>, ColumnError>
    ensures values { GivesColumn column_values result (values_in kind rows encoding nulls bitmap.now body.now) }
    ensures kind { IfOk result (λ column. column_kind column ≡ kind) }
{
    match kind {
        Kind::Int => {
            let numbers = read_numbers(alloc, kind, rows, encoding, nulls, bitmap, body)?;
            Ok(ColumnValues::Ints(numbers))
        }
        Kind::Date => {
            let days = read_numbers(alloc, kind, rows, encoding, nulls, bitmap, body)?;
            Ok(ColumnValues::Dates(days))
        }
        Kind::Varchar => {
            let texts = read_texts(alloc, rows, encoding, nulls, bitmap, body)?;
            Ok(ColumnValues::Texts(texts))
        }
    }
}
