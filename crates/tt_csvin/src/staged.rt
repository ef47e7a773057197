//! The rows of all records of a file.
ghost use Rattle.std.specs.Prelude.{◌≡◌, ◌+◌, ◌<◌, ◌^◌, ◌++◌, ◌∷◌, [], None, length, IfOk, IfErr, OnOk};
ghost use Rattle.csv.specs.Records.{fields_of};
ghost use Rattle.tt_plain.specs.meaning.StagedRows.{copied, record_fault, row_of_record};
ghost use Rattle.tt_csvin.specs.Staged.{AddsRows, RefusesAs, RefusesFile};

use crate::StagedError;
use crate::records::row_of;
use csv::{ReaderBuilder, StringRecord};
use std::alloc::Global;
use tt_value::{Column, Row, Schema};

/// The rows of a staged file for a table, in order: records of fields between commas, with quotes or without, where an
/// empty field is NULL. Refused by the first record that does not fit, and in it by the first field, which count from 1:
/// `BadData` where it cannot be read, at column 0 where the record has another number of fields, and `NullInRow` where it is
/// NULL and may not be.
pub fn rows(alloc: Global, file: &str, schema: &Schema) -> Result<Vec<Row>, StagedError>
    requires short { length file.now < 2 ^ 32 }
    requires columns { length schema.now.columns < 2 ^ 32 }
    ensures rows { IfOk result (λ rows. AddsRows (copied schema.now file.now) rows.items) }
    ensures refused { IfErr result (RefusesFile (copied schema.now file.now)) }
{
    let reader = ReaderBuilder::new()
        .has_headers(false)
        .flexible(true)
        .from_reader(alloc, file.as_bytes());
    let mut rows = Vec::new(alloc);
    for record in reader.into_records() {
        let Ok(record) = record else {
            return Err(StagedError::Memory);
        };
        match add_row(alloc, schema.columns.items(), &record, &mut rows) {
            Ok(()) => {}
            Err(error) => return Err(error),
        }
    }
    Ok(rows)
}

/// Adds the row of the next record behind those of all records before it.
fn add_row(
    alloc: Global,
    columns: &[Column],
    fields: &StringRecord,
    rows: &mut Vec<Row>,
) -> Result<(), StagedError>
    requires few { length rows.old.items + 1 < 2 ^ 32 }
    requires columns { length columns.now < 2 ^ 32 }
    ensures row { OnOk result (rows.new.items
        ≡ rows.old.items ++ row_of_record columns.now (fields_of fields.now) ∷ []) }
    ensures sound { OnOk result
        (record_fault columns.now (length rows.old.items + 1) (fields_of fields.now) ≡ None) }
    ensures refused { IfErr result (RefusesAs
        (record_fault columns.now (length rows.old.items + 1) (fields_of fields.now))) }
{
    let number = rows.len() as u32 + 1;
    let row = match row_of(alloc, columns, number, fields) {
        Ok(row) => row,
        Err(error) => return Err(error),
    };
    rows.push(row)?;
    Ok(())
}
