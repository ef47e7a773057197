//! Reading a whole column.

ghost use Rattle.std.specs.Prelude.{◌≡◌, ◌≢◌, ◌+◌, ◌-◌, ◌*◌, ◌^◌, ◌<◌, ◌≤◌, ◌==◌, List, ◌∷◌, length, count_by, ℕ, ℤ, Option, Ok, IfOk, All};
ghost use Rattle.std.specs.List.{list_any};
ghost use Rattle.tt_value.specs.columns.Reading.{flags_at, has_flag, present_count, spread};
ghost use Rattle.std.specs.List.{AllByRecursion};
ghost use Rattle.tt_value.specs.columns.Body.{present};
ghost use Rattle.tt_intcol.specs.IntBody.{body, encoding_of, column_of, IsValue};
ghost use Rattle.tt_value.specs.columns.Steps.{IsNextRow};
ghost use Rattle.tt_intcol.specs.IntReading.{Gives, GivesList, GivesWhole, encoding_at, body_at, is_empty_frame as empty_frame_test, whole_body, values_in, rows_in, IfColumnOf, rows_of};

use crate::choice;
use crate::column::{DecodeError, IntColumn};
use crate::encoding::Encoding;
use crate::frame::read_frame;
use crate::parts::{PartError, are_bytes, bad, part, place};
use crate::reading::{read_dictionary_values, read_packed, read_run_values, read_values};
use std::alloc::{AllocError, Global};
use tt_value::{BadColumn, FaultAt, Kind};

/// A fault at the byte of the encoding.
fn bad_encoding(at: FaultAt) -> BadColumn
    ensures { result ≡ record { place = 0; at = at } }
{
    BadColumn { place: 0, at }
}

fn read_encoding(code: u8) -> Result<Encoding, DecodeError>
    ensures { Gives (λ e. e) result (encoding_at code) }
{
    match code {
        0 => Ok(Encoding::Plain),
        1 => Ok(Encoding::Frame),
        2 => Ok(Encoding::Run),
        3 => Ok(Encoding::Dictionary),
        _ => Err(DecodeError::BadColumn(bad_encoding(FaultAt::Encoding))),
    }
}

fn has_flag(flags: &[u64]) -> bool
    ensures { result ≡ has_flag flags.now }
{
    flags.iter().any(|flag| *flag == 1)
}

/// The flags of a bitmap: 1 for NULL.
#[tactic(auto, unfolding(tt_value::specs::columns::Reading::flags_at))]
fn read_flags(alloc: Global, rows: u32, nulls: bool, bitmap: &[u8]) -> Result<Vec<u64>, PartError>
    ensures { GivesWhole result (flags_at rows nulls bitmap.now) }
{
    if !nulls {
        if !bitmap.is_empty() {
            return Err(bad(0));
        }
        return Ok(vec![in alloc; 0u64; rows as usize]?);
    }
    let end = bitmap.len() as u64;
    let (flags, rest) = read_packed(alloc, end, 1, rows as usize, bitmap)?;
    if !has_flag(&flags) {
        return Err(bad(0));
    }
    if !rest.is_empty() {
        return Err(bad(place(end, rest)));
    }
    Ok(flags)
}

fn count_present(flags: &[u64]) -> usize
    ensures { result ≡ present_count flags.now }
{
    flags.iter().filter(|flag| **flag == 0).count()
}

/// The row of a flag, and the values of the rows behind it.
fn next_row(flag: u64, values: &[i64]) -> (Option<i64>, &[i64])
    ensures { IsNextRow flag values.now result.0 result.1.now }
{
    match values.split_first() {
        None => (None, values),
        Some((value, others)) => {
            if flag == 0 {
                (Some(*value), others)
            } else {
                (None, values)
            }
        }
    }
}

fn spread(alloc: Global, flags: &[u64], values: &[i64]) -> Result<Vec<Option<i64>>, AllocError>
    ensures { IfOk result (λ rows. rows.items ≡ spread flags.now values.now) }
{
    let mut rows = Vec::with_capacity(alloc, flags.len())?;
    let mut rest = values;
    for flag in flags {
        let (row, others) = next_row(*flag, rest);
        rows.push(row)?;
        rest = others;
    }
    Ok(rows)
}

/// Whether it is a frame of no values, which is no form.
fn is_empty_frame(encoding: Encoding, count: usize) -> bool
    ensures { result ≡ empty_frame_test encoding count }
{
    match encoding {
        Encoding::Frame => count == 0,
        _ => false,
    }
}

/// The values of a body of that form, of which there are so many.
fn read_body(
    alloc: Global,
    kind: Kind,
    encoding: Encoding,
    end: u64,
    count: usize,
    bytes: &[u8],
) -> Result<(Vec<i64>, &[u8]), PartError>
    ensures { GivesList result (body_at kind encoding end count bytes.now) }
{
    match encoding {
        Encoding::Plain => read_values(alloc, kind, end, count, bytes),
        Encoding::Frame => read_frame(alloc, kind, end, count, bytes),
        Encoding::Run => read_run_values(alloc, kind, end, count, bytes),
        Encoding::Dictionary => read_dictionary_values(alloc, kind, end, count, bytes),
    }
}

/// The values of a body that ends behind its last part, and how long it is.
#[tactic(auto, unfolding(crate::specs::IntReading::whole_body))]
fn read_whole(
    alloc: Global,
    kind: Kind,
    encoding: Encoding,
    end: u64,
    count: usize,
    bytes: &[u8],
) -> Result<Vec<i64>, PartError>
    requires { All (λ byte. byte < 256) bytes.now }
    ensures values { GivesWhole result (whole_body kind encoding end count bytes.now) }
    ensures length { IfOk result (λ v. length bytes.now ≡ length (body kind v.items encoding)) }
{
    let (values, rest) = read_body(alloc, kind, encoding, end, count, bytes)?;
    if !rest.is_empty() {
        return Err(bad(place(end, rest)));
    }
    Ok(values)
}

/// The values of the body, where its form is the shortest.
#[tactic(auto, unfolding(crate::specs::IntReading::values_in))]
fn read_all(
    alloc: Global,
    kind: Kind,
    encoding: Encoding,
    end: u64,
    count: usize,
    bytes: &[u8],
) -> Result<Vec<i64>, DecodeError>
    requires { All (λ byte. byte < 256) bytes.now }
    ensures { Gives (λ v. v.items) result (values_in kind encoding end count bytes.now) }
{
    if is_empty_frame(encoding, count) {
        return Err(DecodeError::BadColumn(bad_encoding(FaultAt::Encoding)));
    }
    let values = read_whole(alloc, kind, encoding, end, count, bytes)?;
    if !choice::is_shortest(alloc, kind, encoding, bytes.len(), &values)? {
        return Err(DecodeError::BadColumn(bad_encoding(FaultAt::Longer)));
    }
    Ok(values)
}

/// The rows of a column whose bytes stand elsewhere, as in `decode`.
#[tactic(auto, unfolding(crate::specs::IntReading::rows_of))]
pub fn decode_parts(
    alloc: Global,
    kind: Kind,
    rows: u32,
    encoding: u8,
    nulls: bool,
    bitmap: &[u8],
    body: &[u8],
) -> Result<Vec<Option<i64>>, DecodeError>
    ensures { Gives (λ v. v.items) result (rows_in kind rows encoding nulls bitmap.now body.now) }
{
    let encoding = read_encoding(encoding)?;
    are_bytes(body);
    let flags = read_flags(alloc, rows, nulls, bitmap)?;
    let end = bitmap.len() as u64 + body.len() as u64;
    let values = read_all(alloc, kind, encoding, end, count_present(&flags), body)?;
    Ok(spread(alloc, &flags, &values)?)
}

/// The rows of a column: the values in order, NULL where the bitmap has its bit. A column that no rows
/// have is refused with the place of its first fault.
pub fn decode(
    alloc: Global,
    kind: Kind,
    rows: u32,
    column: &IntColumn,
) -> Result<Vec<Option<i64>>, DecodeError>
    requires { kind ≢ Kind.Varchar }
    // The column of some rows is read as these rows.
    ensures again { IfColumnOf kind rows column.now (λ vs. Gives (λ v. v.items) result (Ok vs)) }
    // Each column that is read is the column of the rows that it gives: so many rows, of the kind.
    ensures only { IfOk result (λ v. column.now ≡ column_of kind v.items) }
    ensures count { IfOk result (λ v. length v.items ≡ rows) }
    ensures values { IfOk result (λ v. AllByRecursion (IsValue kind) (present v.items)) }
    // Which rows they are, or which place it is; only want of memory is free.
    ensures exact { Gives (λ v. v.items) result (rows_of kind rows column.now) }
{
    let bitmap = part(&column.bitmap);
    let body = part(&column.body);
    decode_parts(
        alloc,
        kind,
        rows,
        column.encoding,
        column.nulls,
        bitmap,
        body,
    )
}
