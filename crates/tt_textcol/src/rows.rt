//! Reading a whole column.

ghost use Rattle.std.specs.Prelude.{◌≡◌, ◌+◌, ◌-◌, ◌*◌, ◌^◌, ◌<◌, ◌≤◌, ◌==◌, List, ◌∷◌, length, drop, count_by, ℕ, Option, Ok, IfOk};
ghost use Rattle.std.specs.List.{list_any, AllByRecursion};
ghost use Rattle.tt_value.specs.columns.Body.{present};
ghost use Rattle.tt_value.specs.columns.Reading.{flags_at, has_flag, present_count, spread};
ghost use Rattle.tt_textcol.specs.TextBody.{body, encoding_of, IsColumnOf, IfColumnOf};
ghost use Rattle.tt_value.specs.columns.Steps.{IsNextRow};
ghost use Rattle.tt_textcol.specs.TextReading.{Gives, GivesList, GivesWhole, encoding_at, body_at, whole_body, values_in, rows_in, rows_of};

use crate::choice;
use crate::column::{DecodeError, TextColumn};
use crate::encoding::Encoding;
use crate::parts::{PartError, bad, place, read_packed};
use crate::reading::{read_dictionary_values, read_run_values, read_values};
use crate::text_ref::TextRef;
use std::alloc::{AllocError, Global};
use tt_value::{BadColumn, FaultAt, Text};

/// A fault at the byte of the encoding.
fn bad_encoding(at: FaultAt) -> BadColumn
    ensures { result ≡ record { place = 0; at = at } }
{
    BadColumn { place: 0, at }
}

fn read_encoding(code: u8) -> Result<Encoding, DecodeError>
    ensures { Gives (λ e. e) result (encoding_at code) }
{
    match code {
        0 => Ok(Encoding::Plain),
        2 => Ok(Encoding::Run),
        3 => Ok(Encoding::Dictionary),
        _ => Err(DecodeError::BadColumn(bad_encoding(FaultAt::Encoding))),
    }
}

fn has_flag(flags: &[u64]) -> bool
    ensures { result ≡ has_flag flags.now }
{
    flags.iter().any(|flag| *flag == 1)
}

/// The flags of a bitmap: 1 for NULL.
#[tactic(auto, unfolding(tt_value::specs::columns::Reading::flags_at))]
fn read_flags(alloc: Global, rows: u32, nulls: bool, bitmap: &[u8]) -> Result<Vec<u64>, PartError>
    ensures { GivesWhole result (flags_at rows nulls bitmap.now) }
{
    if !nulls {
        if !bitmap.is_empty() {
            return Err(bad(0));
        }
        return Ok(vec![in alloc; 0u64; rows as usize]?);
    }
    let end = bitmap.len() as u64;
    let (flags, rest) = read_packed(alloc, end, 1, rows as usize, bitmap)?;
    if !has_flag(&flags) {
        return Err(bad(0));
    }
    if !rest.is_empty() {
        return Err(bad(place(end, rest)));
    }
    Ok(flags)
}

/// A byte is below 256.
fn bytes_fit(bytes: &[u8])
    ensures { AllByRecursion (λ b. b < 2 ^ 8) bytes.now }
{}

fn count_present(flags: &[u64]) -> usize
    ensures { result ≡ present_count flags.now }
{
    flags.iter().filter(|flag| **flag == 0).count()
}

/// The row of a flag, where the next text stands at `at`, and where the next one stands behind it.
fn row_at<'a>(flag: u64, values: &[TextRef<'a>], at: usize) -> (Option<TextRef<'a>>, usize)
    ensures { IsNextRow flag (drop at values.now) result.0 (drop result.1 values.now) }
{
    match values.get(at) {
        None => (None, at),
        Some(value) => {
            if flag != 0 {
                return (None, at);
            }
            (Some(value.again()), at + 1)
        }
    }
}

fn spread<'a>(
    alloc: Global,
    flags: &[u64],
    values: &[TextRef<'a>],
) -> Result<Vec<Option<TextRef<'a>>>, AllocError>
    ensures { IfOk result (λ rows. rows.items ≡ spread flags.now values.now) }
{
    let mut rows = Vec::with_capacity(alloc, flags.len())?;
    let mut at = 0;
    for flag in flags {
        let (row, next) = row_at(*flag, values, at);
        rows.push(row)?;
        at = next;
    }
    Ok(rows)
}

/// The texts of a body of that form, so many.
fn read_body(
    alloc: Global,
    encoding: Encoding,
    end: u64,
    count: usize,
    bytes: &[u8],
) -> Result<(Vec<TextRef<'_>>, &[u8]), PartError>
    ensures { GivesList result (body_at encoding end count bytes.now) }
{
    match encoding {
        Encoding::Plain => read_values(alloc, end, count, bytes),
        Encoding::Run => read_run_values(alloc, end, count, bytes),
        Encoding::Dictionary => read_dictionary_values(alloc, end, count, bytes),
    }
}

/// The texts of a body that ends behind its last part, and how long it is.
#[tactic(auto, unfolding(crate::specs::TextReading::whole_body))]
fn read_whole(
    alloc: Global,
    encoding: Encoding,
    end: u64,
    count: usize,
    bytes: &[u8],
) -> Result<Vec<TextRef<'_>>, PartError>
    ensures values { GivesWhole result (whole_body encoding end count bytes.now) }
    ensures length { IfOk result (λ v. length bytes.now ≡ length (body v.items encoding)) }
{
    bytes_fit(bytes);
    let (values, rest) = read_body(alloc, encoding, end, count, bytes)?;
    if !rest.is_empty() {
        return Err(bad(place(end, rest)));
    }
    Ok(values)
}

/// The texts of the body, where its form is the shortest.
#[tactic(auto, unfolding(crate::specs::TextReading::values_in))]
fn read_all(
    alloc: Global,
    encoding: Encoding,
    end: u64,
    count: usize,
    bytes: &[u8],
) -> Result<Vec<TextRef<'_>>, DecodeError>
    ensures { Gives (λ v. v.items) result (values_in encoding end count bytes.now) }
{
    let values = read_whole(alloc, encoding, end, count, bytes)?;
    if !choice::is_shortest(alloc, encoding, bytes.len(), &values)? {
        return Err(DecodeError::BadColumn(bad_encoding(FaultAt::Longer)));
    }
    Ok(values)
}

/// The rows of a column whose bytes stand elsewhere, as in `decode`. No text is copied.
#[tactic(auto, unfolding(crate::specs::TextReading::rows_of))]
pub fn decode_refs<'a>(
    alloc: Global,
    rows: u32,
    encoding: u8,
    nulls: bool,
    bitmap: &[u8],
    body: &'a [u8],
) -> Result<Vec<Option<TextRef<'a>>>, DecodeError>
    ensures { Gives (λ v. v.items) result (rows_in rows encoding nulls bitmap.now body.now) }
{
    let encoding = read_encoding(encoding)?;
    let flags = read_flags(alloc, rows, nulls, bitmap)?;
    let end = bitmap.len() as u64 + body.len() as u64;
    let values = read_all(alloc, encoding, end, count_present(&flags), body)?;
    Ok(spread(alloc, &flags, &values)?)
}

fn text_of(alloc: Global, row: &Option<TextRef<'_>>) -> Result<Option<Text>, AllocError>
    ensures { IfOk result (λ t. t ≡ row.now) }
{
    match row {
        None => Ok(None),
        Some(text) => Ok(Some(text.to_text(alloc)?)),
    }
}

/// Here is the one copy of each text.
fn texts_of(alloc: Global, rows: &[Option<TextRef<'_>>]) -> Result<Vec<Option<Text>>, AllocError>
    ensures { IfOk result (λ v. v.items ≡ rows.now) }
{
    let mut texts = Vec::with_capacity(alloc, rows.len())?;
    for row in rows {
        texts.push(text_of(alloc, row)?)?;
    }
    Ok(texts)
}

/// The same with a copy of each text.
pub fn decode_parts(
    alloc: Global,
    rows: u32,
    encoding: u8,
    nulls: bool,
    bitmap: &[u8],
    body: &[u8],
) -> Result<Vec<Option<Text>>, DecodeError>
    ensures { Gives (λ v. v.items) result (rows_in rows encoding nulls bitmap.now body.now) }
{
    let texts = decode_refs(alloc, rows, encoding, nulls, bitmap, body)?;
    Ok(texts_of(alloc, &texts)?)
}

/// The rows of a column: the texts in order, NULL where the bitmap has its bit. A column that no rows
/// have is refused with the place of its first fault.
pub fn decode(
    alloc: Global,
    rows: u32,
    column: &TextColumn,
) -> Result<Vec<Option<Text>>, DecodeError>
    // The column of some rows is read as these rows.
    ensures again { IfColumnOf rows column.now (λ vs. Gives (λ v. v.items) result (Ok vs)) }
    // Which rows they are, or which place it is; only want of memory is free.
    ensures exact { Gives (λ v. v.items) result (rows_of rows column.now) }
    // What is read are so many rows, of values, and the column is their column.
    ensures only { IfOk result (λ v. IsColumnOf rows v.items column.now) }
{
    let bitmap = column.bitmap.items();
    let body = column.body.items();
    bytes_fit(bitmap);
    bytes_fit(body);
    decode_parts(alloc, rows, column.encoding, column.nulls, bitmap, body)
}
