//! Whether rows fit a schema.

ghost use Rattle.std.specs.Prelude.{◌↔◌, ◌≡◌, IsTrue};
ghost use Rattle.tt_intcol.specs.IntBody.{IsDay};
ghost use Rattle.tt_partition.specs.Cuts.{column_kinds, kinds_of};
ghost use Rattle.tt_partition.specs.Fits.{FitsKind, FitKinds, FitSchema};

use tt_value::{Column, Kind, Row, Schema, Value};

/// Day 0 is 1970-01-01.
const FIRST_DAY: i32 = -719_162;

const LAST_DAY: i32 = 2_932_896;

/// Whether it is a day of the years 1 to 9999.
fn is_day(day: i32) -> bool
    ensures { IsTrue result ↔ IsDay day }
{
    FIRST_DAY <= day && day <= LAST_DAY
}

fn fits_kind(kind: Kind, value: &Value) -> bool
    ensures { IsTrue result ↔ FitsKind kind value.now }
{
    match (kind, value) {
        (_, Value::Null) => true,
        (Kind::Int, Value::Int(_)) => true,
        (Kind::Date, Value::Date(day)) => is_day(*day),
        (Kind::Varchar, Value::Text(_)) => true,
        _ => false,
    }
}

fn fit_columns(columns: &[Column], values: &[Value]) -> bool
    ensures { IsTrue result ↔ FitKinds (column_kinds columns.now) values.now }
{
    if columns.len() != values.len() {
        return false;
    }
    for at in 0..values.len() {
        if !fits_kind(columns[at].kind, &values[at]) {
            return false;
        }
    }
    true
}

/// Whether each row has one value for each column, NULL or of the column's kind, a date being a day of the years
/// 1 to 9999.
pub fn fits(schema: &Schema, rows: &[Row]) -> bool
    ensures { IsTrue result ↔ FitSchema schema.now rows.now }
{
    let columns = schema.columns.items();
    for row in rows {
        if !fit_columns(columns, row.values.items()) {
            return false;
        }
    }
    true
}
