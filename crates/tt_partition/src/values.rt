//! What the types of values say of them.

ghost use Rattle.tt_partition.specs.Validity.{IsValid, AreValid};
ghost use Rattle.std.specs.Int.{w64};
ghost use Rattle.std.specs.Int.RustNames.{FitsSigned};
ghost use Rattle.std.specs.List.{AllByRecursion};

use tt_value::{Row, Value};

fn number_fits(number: i64)
    ensures { FitsSigned w64 number }
{}

/// A number fits its type, and a text is one.
fn is_valid(value: &Value)
    ensures { IsValid value.now }
{
    match value {
        Value::Text(text) => {
            let _ = text.as_str().as_bytes();
        }
        Value::Int(number) => {
            number_fits(*number);
        }
        _ => {}
    }
}

fn are_valid(values: &[Value])
    ensures { AllByRecursion IsValid values.now }
{
    for value in values {
        is_valid(value);
    }
}

/// The values of rows keep what their types say.
pub fn rows_are_valid(rows: &[Row])
    ensures { AllByRecursion AreValid rows.now }
{
    for row in rows {
        are_valid(row.values.items());
    }
}
