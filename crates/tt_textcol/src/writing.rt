//! Writing a whole column.

ghost use Rattle.std.specs.Prelude.{◌≡◌, ◌^◌, ◌<◌, length, map, IfOk};
ghost use Rattle.tt_value.specs.columns.Body.{null_flag as flag_of, null_flags, has_null as null_test, present as values_of, bitmap_of};
ghost use Rattle.tt_textcol.specs.TextBody.{column_of};

use crate::bodies::body_of;
use crate::choice;
use crate::column::{EncodeError, TextColumn};
use crate::text_ref::TextRef;
use std::alloc::{AllocError, Global};
use tt_value::{Sequence, Text, packing};

fn has_null(rows: &[Option<TextRef<'_>>]) -> bool
    ensures { result ≡ null_test rows.now }
{
    rows.iter().any(|row| row.is_none())
}

fn null_flag(row: &Option<TextRef<'_>>) -> u64
    ensures { result ≡ flag_of row.now }
{
    match row {
        None => 1,
        Some(_) => 0,
    }
}

fn null_flags(alloc: Global, rows: &[Option<TextRef<'_>>]) -> Result<Vec<u64>, AllocError>
    ensures { IfOk result (λ v. v.items ≡ null_flags rows.now) }
{
    rows.iter().map(|row| null_flag(row)).collect(alloc)
}

/// The texts that are not NULL, in the order of the rows. None is copied.
fn present<'a>(alloc: Global, rows: &[Option<TextRef<'a>>]) -> Result<Vec<TextRef<'a>>, AllocError>
    ensures { IfOk result (λ v. v.items ≡ values_of rows.now) }
{
    let mut texts = Vec::with_capacity(alloc, rows.len())?;
    for row in rows {
        if let Some(text) = row {
            texts.push(text.again())?;
        }
    }
    Ok(texts)
}

fn bitmap(alloc: Global, rows: &[Option<TextRef<'_>>]) -> Result<Vec<u8>, AllocError>
    ensures { IfOk result (λ v. v.items ≡ bitmap_of rows.now) }
{
    let bytes = Vec::new(alloc);
    if !has_null(rows) {
        return Ok(bytes);
    }
    let flags = null_flags(alloc, rows)?;
    packing::pack(bytes, 1, &flags)
}

/// The column of these rows, of which there are fewer than 2 ^ 32: a bitmap where there is a NULL, and
/// the texts in the shortest of the three forms. The texts stand elsewhere, and none is copied.
#[tactic(auto, unfolding(crate::specs::TextBody::column_of))]
pub fn encode_refs(alloc: Global, values: &[Option<TextRef<'_>>]) -> Result<TextColumn, EncodeError>
    requires few { length values.now < 2 ^ 32 }
    ensures column { IfOk result (λ column. column ≡ column_of values.now) }
{
    let present = present(alloc, values)?;
    let (encoding, entries) = choice::encoding_of(alloc, &present)?;
    let body = body_of(alloc, &present, &entries, encoding)?;
    let bitmap = bitmap(alloc, values)?;
    Ok(TextColumn {
        encoding: encoding.code(),
        nulls: has_null(values),
        bitmap: Sequence::from_vec(bitmap),
        body: Sequence::from_vec(body),
    })
}

fn text_ref(row: &Option<Text>) -> Option<TextRef<'_>>
    ensures { result ≡ row.now }
{
    match row {
        None => None,
        Some(text) => Some(TextRef::of(text)),
    }
}

/// The texts, where they stand.
fn text_refs(alloc: Global, rows: &[Option<Text>]) -> Result<Vec<Option<TextRef<'_>>>, AllocError>
    ensures { IfOk result (λ v. v.items ≡ rows.now) }
{
    let mut texts = Vec::with_capacity(alloc, rows.len())?;
    for row in rows {
        texts.push(text_ref(row))?;
    }
    Ok(texts)
}

/// The column of these rows, as in `encode_refs`.
pub fn encode(alloc: Global, values: &[Option<Text>]) -> Result<TextColumn, EncodeError>
    requires few { length values.now < 2 ^ 32 }
    ensures column { IfOk result (λ column. column ≡ column_of values.now) }
{
    let texts = text_refs(alloc, values)?;
    encode_refs(alloc, &texts)
}
