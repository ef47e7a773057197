//! How rows are written.

ghost use Rattle.std.specs.Prelude.{◌≡◌, ◌++◌, ◌∷◌, [], OnOk, OnErr};
ghost use Rattle.std.specs.Fmt.{signed_decimal};
ghost use Rattle.tt_value.specs.values.RowText.{IsPrintable, IsPrintableValue, Extends, row_text, value_text, quotes_doubled};

use crate::date::write_date;
use crate::value::{Row, Value};
use itoa::Buffer;
use std::alloc::AllocError;

/// Appends the row's values with a comma between any two: a number in decimal, a date as `YYYY-MM-DD`, a
/// text in single quotes with each quote doubled, and `NULL`. A date must be a day of the years 1 to 9999.
/// Where memory runs out, part of the text may stand behind what was there.
pub fn write_row(row: &Row, out: &mut Vec<u8>) -> Result<(), AllocError>
    requires { IsPrintable row.now }
    ensures ok { OnOk result (out.new.items ≡ out.old.items ++ row_text row.now) }
    ensures err { OnErr result (Extends out.old.items out.new.items) }
{
    let Some((first, others)) = row.values.items().split_first() else {
        return Ok(());
    };
    write_value(first, out)?;
    for value in others {
        out.push(b',')?;
        write_value(value, out)?;
    }
    Ok(())
}

fn write_value(value: &Value, out: &mut Vec<u8>) -> Result<(), AllocError>
    requires { IsPrintableValue value.now }
    ensures ok { OnOk result (out.new.items ≡ out.old.items ++ value_text value.now) }
    ensures err { OnErr result (Extends out.old.items out.new.items) }
{
    match value {
        Value::Null => {
            out.extend_from_slice(b"NULL")?;
            Ok(())
        }
        Value::Int(number) => write_number(*number, out),
        Value::Date(day) => {
            write_date(*day, out)?;
            Ok(())
        }
        Value::Text(text) => write_quoted(text.as_str().as_bytes(), out),
    }
}

fn write_number(number: i64, out: &mut Vec<u8>) -> Result<(), AllocError>
    ensures ok { OnOk result (out.new.items ≡ out.old.items ++ signed_decimal number) }
    ensures err { OnErr result (Extends out.old.items out.new.items) }
{
    let mut buffer = Buffer::new();
    out.extend_from_slice(buffer.format(number).as_bytes())?;
    Ok(())
}

fn write_quoted(bytes: &[u8], out: &mut Vec<u8>) -> Result<(), AllocError>
    ensures ok { OnOk result (out.new.items
        ≡ out.old.items ++ (39 ∷ quotes_doubled bytes.now ++ 39 ∷ [])) }
    ensures err { OnErr result (Extends out.old.items out.new.items) }
{
    out.push(b'\'')?;
    for byte in bytes {
        if *byte == b'\'' {
            out.extend_from_slice(b"''")?;
        } else {
            out.push(*byte)?;
        }
    }
    out.push(b'\'')?;
    Ok(())
}
