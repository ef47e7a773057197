//! Writing the image of rows.

ghost use Rattle.std.specs.Prelude.{◌≡◌, ◌^◌, ◌<◌, ◌≤◌, ◌++◌, length, map, IfOk, OnOk, All};
ghost use Rattle.tt_value.specs.columns.Body.{present};
ghost use Rattle.tt_intcol.specs.IntBody.{IsDay};
ghost use Rattle.tt_zone.specs.Zones.{column_at};
ghost use Rattle.std.specs.List.{AllByRecursion};
ghost use Rattle.tt_partition.specs.Table.{IsOf, columns_of, IsPart};
ghost use Rattle.tt_partition.specs.Cuts.{table_with};
ghost use Rattle.tt_partition.specs.Image.{columns_bytes, image_of, magic, kind_code as code_of, null_code as code_of_nulls, number_in, text_in, spelled, number_bytes, text_bytes, column_bytes};

use crate::head::MAGIC;
use std::alloc::{AllocError, Global};
use tt_textcol::TextRef;
use tt_value::{Kind, Row, Schema, Value};

fn kind_code(kind: Kind) -> u8
    ensures { result ≡ code_of kind }
{
    match kind {
        Kind::Int => 1,
        Kind::Date => 2,
        Kind::Varchar => 3,
    }
}

/// The number of a value, the day of a date.
fn number_in(value: &Value) -> Option<i64>
    ensures { result ≡ number_in value.now }
{
    match value {
        Value::Int(number) => Some(*number),
        Value::Date(day) => Some(i64::from(*day)),
        _ => None,
    }
}

/// The text of a value. No byte is copied.
fn text_in(value: &Value) -> Option<TextRef<'_>>
    ensures { result ≡ text_in value.now }
{
    match value {
        Value::Text(text) => Some(TextRef::of(text)),
        _ => None,
    }
}

/// The numbers of the column at a place, None for NULL.
pub fn numbers_of(alloc: Global, rows: &[Row], place: usize) -> Result<Vec<Option<i64>>, AllocError>
    ensures { IfOk result (λ v. v.items ≡ map number_in (column_at place rows.now)) }
{
    let mut numbers = Vec::with_capacity(alloc, rows.len())?;
    for row in rows {
        let number = match row.values.get(place) {
            None => None,
            Some(value) => number_in(value),
        };
        numbers.push(number)?;
    }
    Ok(numbers)
}

/// The texts of the column at a place, None for NULL. No byte is copied.
pub fn texts_of(
    alloc: Global,
    rows: &[Row],
    place: usize,
) -> Result<Vec<Option<TextRef<'_>>>, AllocError>
    ensures { IfOk result (λ v. v.items ≡ map text_in (column_at place rows.now)) }
{
    let mut texts = Vec::with_capacity(alloc, rows.len())?;
    for row in rows {
        let text = match row.values.get(place) {
            None => None,
            Some(value) => text_in(value),
        };
        texts.push(text)?;
    }
    Ok(texts)
}

/// Adds a column: its head, its bitmap and its body.
fn push_column(
    out: &mut Vec<u8>,
    kind: Kind,
    encoding: u8,
    nulls: bool,
    bitmap: &[u8],
    body: &[u8],
) -> Result<(), AllocError>
    ensures { OnOk result (out.new.items ≡ out.old.items ++ spelled kind encoding nulls bitmap.now body.now) }
{
    out.extend_from_slice(&[kind_code(kind), encoding, u8::from(nulls)])?;
    out.extend_from_slice(&(body.len() as u64).to_le_bytes())?;
    out.extend_from_slice(bitmap)?;
    out.extend_from_slice(body)?;
    Ok(())
}

/// Adds the column of these numbers, of which there are few enough; dates are days of the years 1 to 9999.
fn push_numbers(
    alloc: Global,
    out: &mut Vec<u8>,
    kind: Kind,
    numbers: &[Option<i64>],
) -> Result<(), AllocError>
    requires kind { kind ≡ Kind.Varchar → ⊥ }
    requires few { length numbers.now < 2 ^ 32 }
    requires days { kind ≡ Kind.Date → All IsDay (present numbers.now) }
    ensures { OnOk result (out.new.items ≡ out.old.items ++ number_bytes kind numbers.now) }
{
    let Ok(column) = tt_intcol::encode(alloc, kind, numbers) else {
        return Err(AllocError);
    };
    push_column(
        out,
        kind,
        column.encoding,
        column.nulls,
        column.bitmap.items(),
        column.body.items(),
    )
}

/// Adds the column of these texts, of which there are few enough.
fn push_texts(
    alloc: Global,
    out: &mut Vec<u8>,
    texts: &[Option<TextRef<'_>>],
) -> Result<(), AllocError>
    requires few { length texts.now < 2 ^ 32 }
    ensures { OnOk result (out.new.items ≡ out.old.items ++ text_bytes texts.now) }
{
    let Ok(column) = tt_textcol::encode_refs(alloc, texts) else {
        return Err(AllocError);
    };
    push_column(
        out,
        Kind::Varchar,
        column.encoding,
        column.nulls,
        column.bitmap.items(),
        column.body.items(),
    )
}

/// Adds the column at a place of the rows.
fn push_column_at(
    alloc: Global,
    out: &mut Vec<u8>,
    kind: Kind,
    place: usize,
    rows: &[Row],
) -> Result<(), AllocError>
    requires few { length rows.now < 2 ^ 32 }
    requires values { AllByRecursion (IsOf kind) (column_at place rows.now) }
    ensures { OnOk result (out.new.items ≡ out.old.items ++ column_bytes kind (column_at place rows.now)) }
{
    match kind {
        Kind::Varchar => {
            let texts = texts_of(alloc, rows, place)?;
            push_texts(alloc, out, &texts)
        }
        _ => {
            let numbers = numbers_of(alloc, rows, place)?;
            push_numbers(alloc, out, kind, &numbers)
        }
    }
}

/// Adds the columns of the rows, in the order of the schema.
fn push_columns(
    alloc: Global,
    out: &mut Vec<u8>,
    schema: &Schema,
    rows: &[Row],
) -> Result<(), AllocError>
    requires { IsPart (table_with schema.now rows.now) }
    ensures { OnOk result
        (out.new.items ≡ out.old.items ++ columns_bytes (columns_of (table_with schema.now rows.now))) }
{
    let columns = schema.columns.items();
    for place in 0..columns.len() {
        push_column_at(alloc, out, columns[place].kind, place, rows)?;
    }
    Ok(())
}

/// The image of rows that have the kinds of a schema.
#[tactic(auto, unfolding(crate::specs::Image::image_of))]
pub fn image_of(alloc: Global, schema: &Schema, rows: &[Row]) -> Result<Vec<u8>, AllocError>
    requires { IsPart (table_with schema.now rows.now) }
    ensures { IfOk result (λ v. v.items ≡ image_of (table_with schema.now rows.now)) }
{
    let mut out = Vec::new(alloc);
    out.extend_from_slice(&MAGIC)?;
    out.extend_from_slice(&(rows.len() as u32).to_le_bytes())?;
    out.extend_from_slice(&(schema.columns.len() as u16).to_le_bytes())?;
    push_columns(alloc, &mut out, schema, rows)?;
    out.shrink_to_fit();
    Ok(out)
}
