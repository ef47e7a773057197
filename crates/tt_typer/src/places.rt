//! The leftmost of some places, and where parts of a statement begin.

ghost use Rattle.std.specs.Prelude.{◌≡◌};
ghost use Rattle.tt_plain.specs.Places as spec;

use tt_value::{ColumnName, Name, Operand, TableName};

/// The one further to the left, if there is any.
pub fn earlier(a: Option<u32>, b: Option<u32>) -> Option<u32>
    ensures { result ≡ spec.earlier a b }
{
    match (a, b) {
        (None, b) => b,
        (a, None) => a,
        (Some(a), Some(b)) => Some(a.min(b)),
    }
}

/// Where a column's name begins, with its table's name in front or without.
pub fn column_begin(column: &ColumnName) -> u32
    ensures { result ≡ spec.column_begin column.now }
{
    match &column.table {
        None => column.name.place,
        Some(front) => front.place,
    }
}

/// Where a table's name begins, with another name in front or without.
pub fn table_begin(table: &TableName) -> u32
    ensures { result ≡ spec.table_begin table.now }
{
    match &table.schema {
        None => table.name.place,
        Some(schema) => schema.place,
    }
}
