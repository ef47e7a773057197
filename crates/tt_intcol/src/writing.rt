//! Writing a whole column.

ghost use Rattle.std.specs.Prelude.{◌≡◌, ◌≢◌, ◌^◌, ◌<◌, length, map, All, IfOk};
ghost use Rattle.tt_value.specs.columns.Body.{null_flag as flag_of, null_flags, has_null as null_test, present as values_of, bitmap_of};
ghost use Rattle.tt_intcol.specs.IntBody.{column_of, IsDay};

use crate::bodies::body_of;
use crate::choice;
use crate::column::{EncodeError, IntColumn};
use std::alloc::{AllocError, Global};
use tt_value::{Kind, Sequence, packing};

fn has_null(rows: &[Option<i64>]) -> bool
    ensures { result ≡ null_test rows.now }
{
    rows.iter().any(|row| row.is_none())
}

fn null_flag(row: Option<i64>) -> u64
    ensures { result ≡ flag_of row }
{
    match row {
        None => 1,
        Some(_) => 0,
    }
}

fn null_flags(alloc: Global, rows: &[Option<i64>]) -> Result<Vec<u64>, AllocError>
    ensures { IfOk result (λ v. v.items ≡ null_flags rows.now) }
{
    rows.iter().map(|row| null_flag(*row)).collect(alloc)
}

fn present(alloc: Global, rows: &[Option<i64>]) -> Result<Vec<i64>, AllocError>
    ensures { IfOk result (λ v. v.items ≡ values_of rows.now) }
{
    rows.iter().filter_map(|row| *row).collect(alloc)
}

fn bitmap(alloc: Global, rows: &[Option<i64>]) -> Result<Vec<u8>, AllocError>
    ensures { IfOk result (λ v. v.items ≡ bitmap_of rows.now) }
{
    let bytes = Vec::new(alloc);
    if !has_null(rows) {
        return Ok(bytes);
    }
    let flags = null_flags(alloc, rows)?;
    packing::pack(bytes, 1, &flags)
}

/// The column of these rows, of which there are fewer than 2 ^ 32: a bitmap where there is a NULL, and
/// the values in the shortest of the four forms. Dates are days of the years 1 to 9999.
#[tactic(auto, unfolding(crate::specs::IntBody::column_of))]
pub fn encode(alloc: Global, kind: Kind, values: &[Option<i64>]) -> Result<IntColumn, EncodeError>
    requires kind { kind ≢ Kind.Varchar }
    requires few { length values.now < 2 ^ 32 }
    requires days { kind ≡ Kind.Date → All IsDay (values_of values.now) }
    ensures column { IfOk result (λ column. column ≡ column_of kind values.now) }
{
    let present = present(alloc, values)?;
    let encoding = choice::encoding_of(alloc, kind, &present)?;
    let body = body_of(alloc, kind, &present, encoding)?;
    let bitmap = bitmap(alloc, values)?;
    Ok(IntColumn {
        encoding: encoding.code(),
        nulls: has_null(values),
        bitmap: Sequence::from_vec(bitmap),
        body: Sequence::from_vec(body),
    })
}
