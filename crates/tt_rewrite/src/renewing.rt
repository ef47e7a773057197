//! What becomes of parts of which rows get new values.

ghost use Rattle.std.specs.Prelude.{◌≡◌, Bool, [], ◌∷◌, IfOk, map, true};
ghost use Rattle.std.specs.List.{AllByRecursion};
ghost use Rattle.tt_value.specs.declared.value.Row.{Row};
ghost use Rattle.tt_value.specs.trees.Predicates.{takes, is_null};
ghost use Rattle.tt_value.specs.trees.Scope.{table_scope};
ghost use Rattle.tt_sql.specs.meaning.Changes as changes;
ghost use Rattle.tt_partition.specs.Cuts.{kinds_of};
ghost use Rattle.tt_rewrite.specs.Renewed as renewed_of;
ghost use Rattle.tt_rewrite.specs.Renewed.{GoesOn, IsAsWide, PartGoesOn};
ghost use Rattle.tt_rewrite.specs.Sets.{IsSetting, becomes};

use crate::leaving::{Left, counted, holds_rows};
use crate::setting::{Setting, renewed};
use crate::taking::{may_take, taken_bits};
use std::alloc::{AllocError, Global};
use tt_bits::Bits;
use tt_partition::Partition;
use tt_value::{Predicate, Row, Schema, Sequence, Value};

/// What is left of parts of which rows are renewed, and the place of the first column in which a new row has a NULL that
/// may not be there.
#[derive(Drop)]
pub struct Renewed {
    pub left: Left,
    pub missing: Option<usize>,
}

fn is_null_value(value: &Value) -> bool
    ensures { result ≡ is_null value.now }
{
    match value {
        Value::Null => true,
        _ => false,
    }
}

fn is_missing_at(schema: &Schema, place: usize, row: &Row) -> bool
    ensures { result ≡ changes.is_missing_at schema.now place row.now }
{
    let Some(column) = schema.columns.get(place) else {
        return false;
    };
    let Some(value) = row.values.get(place) else {
        return false;
    };
    !column.nullable && is_null_value(value)
}

// The first column in which the row has a NULL that may not be there.
fn first_missing(schema: &Schema, row: &Row) -> Option<usize>
    ensures { result ≡ changes.first_missing schema.now (row.now ∷ []) }
{
    for place in 0..schema.columns.len() {
        if is_missing_at(schema, place, row) {
            return Some(place);
        }
    }
    None
}

fn earlier(a: Option<usize>, b: Option<usize>) -> Option<usize>
    ensures { result ≡ renewed_of.earlier a b }
{
    match (a, b) {
        (None, b) => b,
        (Some(a), None) => Some(a),
        (Some(a), Some(b)) => Some(a.min(b)),
    }
}

// The new row of a row that is taken. False where a value of it is out of range.
fn renew_row(
    alloc: Global,
    setting: &Setting<'_>,
    row: &Row,
    rows: &mut Sequence<Row>,
    missing: &mut Option<usize>,
) -> Result<bool, AllocError>
    requires setting { IsSetting setting.now }
    requires row { IsAsWide setting.now.schema.now row.now }
    ensures { IfOk result (GoesOn (λ row. true) (becomes setting.now) setting.now.schema.now (row.now ∷ [])
        rows.old rows.new missing.old missing.new) }
{
    let Some(new) = renewed(alloc, setting, row)? else {
        return Ok(false);
    };
    *missing = earlier(*missing, first_missing(setting.schema, &new));
    rows.push(new)?;
    Ok(true)
}

fn is_set(bit: Option<bool>) -> bool
    ensures { result ≡ renewed_of.is_set bit }
{
    match bit {
        None => false,
        Some(bit) => bit,
    }
}

fn take_row(
    alloc: Global,
    setting: &Setting<'_>,
    bit: Option<bool>,
    row: Row,
    rows: &mut Sequence<Row>,
    missing: &mut Option<usize>,
) -> Result<bool, AllocError>
    requires setting { IsSetting setting.now }
    requires row { IsAsWide setting.now.schema.now row }
    ensures { IfOk result (GoesOn (λ row. renewed_of.is_set bit) (becomes setting.now) setting.now.schema.now (row ∷ [])
        rows.old rows.new missing.old missing.new) }
{
    if is_set(bit) {
        return renew_row(alloc, setting, &row, rows, missing);
    }
    rows.push(row)?;
    Ok(true)
}

// The rows of a part, those with new values of which the bits are set. None is copied that stays.
fn renew_rows(
    alloc: Global,
    setting: &Setting<'_>,
    found: Vec<Row>,
    bits: &Bits,
    rows: &mut Sequence<Row>,
    missing: &mut Option<usize>,
) -> Result<bool, AllocError>
    requires setting { IsSetting setting.now }
    requires found { AllByRecursion (IsAsWide setting.now.schema.now) found.items }
    ensures { IfOk result (λ within. (taken : Row → Bool) → bits.now ≡ map taken found.items
        → GoesOn taken (becomes setting.now) setting.now.schema.now found.items
        rows.old rows.new missing.old missing.new within) }
{
    let mut at = 0;
    for row in found {
        if !take_row(alloc, setting, bits.get(at), row, rows, missing)? {
            return Ok(false);
        }
        at += 1;
    }
    Ok(true)
}

fn renew_found(
    alloc: Global,
    setting: &Setting<'_>,
    partition: &Partition,
    bits: &Bits,
    rows: &mut Sequence<Row>,
    missing: &mut Option<usize>,
) -> Result<bool, AllocError>
    requires setting { IsSetting setting.now }
    requires kinds { partition.now.kinds ≡ kinds_of setting.now.schema.now }
    ensures { IfOk result (λ within. (taken : Row → Bool) → bits.now ≡ map taken partition.now.rows
        → GoesOn taken (becomes setting.now) setting.now.schema.now partition.now.rows
        rows.old rows.new missing.old missing.new within) }
{
    holds_rows(partition);
    let found = partition.rows()?;
    renew_rows(alloc, setting, found, bits, rows, missing)
}

/// A part more. Where no row of it is taken, it stays as it is. False where a new value is out of range.
pub fn renew_part(
    alloc: Global,
    setting: &Setting<'_>,
    number: u64,
    partition: &Partition,
    filter: &Option<Predicate>,
    renewed: &mut Renewed,
) -> Result<bool, AllocError>
    requires setting { IsSetting setting.now }
    requires kinds { partition.now.kinds ≡ kinds_of setting.now.schema.now }
    ensures { IfOk result (PartGoesOn (takes (table_scope setting.now.schema.now) filter.now) (becomes setting.now)
        setting.now.schema.now (number, partition.now) renewed.old renewed.new) }
{
    if !may_take(setting.schema, partition, filter) {
        return Ok(true);
    }
    let bits = taken_bits(alloc, setting.schema, partition, filter)?;
    let count = bits.count();
    if count == 0 {
        return Ok(true);
    }
    renewed.left.count = counted(renewed.left.count, count)?;
    renewed.left.gone.push(number)?;
    renew_found(
        alloc,
        setting,
        partition,
        &bits,
        &mut renewed.left.rows,
        &mut renewed.missing,
    )
}
