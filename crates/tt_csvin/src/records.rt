//! The row of a record.
ghost use Rattle.std.specs.Prelude.{◌≡◌, ◌<◌, ◌^◌, None, length, IfOk, IfErr};
ghost use Rattle.csv.specs.Records.{fields_of};
ghost use Rattle.tt_value.specs.trees.Scope.{value_or_null};
ghost use Rattle.tt_plain.specs.meaning.StagedRows.{field_fault, field_value, record_fault, row_of_record};
ghost use Rattle.tt_csvin.specs.Staged.{RefusesAs};

use crate::StagedError;
use crate::fields::value_of;
use csv::StringRecord;
use std::alloc::Global;
use tt_history::Refusal;
use tt_value::{Column, Row, Sequence, Value};

/// The row of a record, which counts from 1. A record of another number of fields than there are columns is refused at
/// column 0, and else the first field that cannot be read, or is NULL where none may be.
pub(crate) fn row_of(
    alloc: Global,
    columns: &[Column],
    number: u32,
    fields: &StringRecord,
) -> Result<Row, StagedError>
    requires { length columns.now < 2 ^ 32 }
    ensures row { IfOk result (λ row. row ≡ row_of_record columns.now (fields_of fields.now)) }
    ensures sound { IfOk result
        (λ _. record_fault columns.now number (fields_of fields.now) ≡ None) }
    ensures refused { IfErr result
        (RefusesAs (record_fault columns.now number (fields_of fields.now))) }
{
    if fields.len() != columns.len() {
        return Err(StagedError::Refused(Refusal::BadData(number, 0)));
    }
    let mut values = Vec::new(alloc);
    for (place, column) in columns.iter().enumerate() {
        let Some(field) = fields.get(place) else {
            unreachable!()
        };
        let value = match cell(alloc, column, number, place as u32 + 1, field) {
            Ok(value) => value,
            Err(error) => return Err(error),
        };
        values.push(value)?;
    }
    Ok(Row {
        values: Sequence::from_vec(values),
    })
}

/// The value of a field in its column, which counts from 1.
fn cell(
    alloc: Global,
    column: &Column,
    number: u32,
    place: u32,
    field: &str,
) -> Result<Value, StagedError>
    ensures value { IfOk result
        (λ value. value ≡ value_or_null (field_value column.now.kind field.now)) }
    ensures sound { IfOk result
        (λ _. field_fault number place column.now (field_value column.now.kind field.now) ≡ None) }
    ensures refused { IfErr result (RefusesAs
        (field_fault number place column.now (field_value column.now.kind field.now))) }
{
    match value_of(alloc, column.kind, field)? {
        None => Err(StagedError::Refused(Refusal::BadData(number, place))),
        Some(Value::Null) if !column.nullable => Err(StagedError::Refused(Refusal::NullInRow(
            place,
        ))),
        Some(value) => Ok(value),
    }
}
