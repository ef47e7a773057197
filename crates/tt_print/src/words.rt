//! Words, names, numbers, texts and literals. Each writer puts a blank in front of each word.
#![tactic(auto, unfolding(crate::specs::text::Words::spaced))]

ghost use Rattle.std.specs.Prelude.{◌≡◌, ◌∷◌, [], map, OnOk, IsTrue, codes};
ghost use Rattle.std.specs.Fmt.{decimal};
ghost use Rattle.tt_value.specs.calendar.Calendar.{IsDay};
ghost use Rattle.tt_value.specs.values.RowText.{quotes_doubled};
ghost use Rattle.tt_print.specs.text.Words.{listed, word_if, words_if, name_words, front_words, column_name_words, table_name_words, quoted, quoted_words, number_words, int_words, is_day as day_test, date_bytes, day_word, literal_words, Writes, Adds};

use itoa::Buffer;
use std::alloc::AllocError;
use tt_value::{ColumnName, Literal, Name, Number, Quoted, TableName, Value, write_date};

/// Writes a blank and then the word, which may be a sign.
pub fn write_word(word: &[u8], out: &mut Vec<u8>) -> Result<(), AllocError>
    ensures ok { OnOk result (Writes out.old out.new (word.now ∷ [])) }
{
    out.push(b' ')?;
    out.extend_from_slice(word)?;
    Ok(())
}

/// Writes the word if it is wanted.
pub fn write_if(wanted: bool, word: &[u8], out: &mut Vec<u8>) -> Result<(), AllocError>
    ensures ok { OnOk result (Writes out.old out.new (word_if wanted word.now)) }
{
    if wanted {
        write_word(word, out)?;
    }
    Ok(())
}

/// Writes the name as it is kept, in upper case and without quotes.
pub fn write_name(name: &Name, out: &mut Vec<u8>) -> Result<(), AllocError>
    ensures ok { OnOk result (Writes out.old out.new (name_words name.now)) }
{
    write_word(name.text.as_str().as_bytes(), out)
}

/// Writes the column's name, with its table's name and a point in front if it has one.
pub fn write_column_name(column: &ColumnName, out: &mut Vec<u8>) -> Result<(), AllocError>
    ensures ok { OnOk result (Writes out.old out.new (column_name_words column.now)) }
{
    write_front(&column.table, out)?;
    write_name(&column.name, out)?;
    Ok(())
}

/// Writes the name that stands in front of another, and a point.
fn write_front(front: &Option<Name>, out: &mut Vec<u8>) -> Result<(), AllocError>
    ensures ok { OnOk result (Writes out.old out.new (words_if front_words front.now)) }
{
    if let Some(name) = front {
        write_name(name, out)?;
        write_word(b".", out)?;
    }
    Ok(())
}

/// Writes the table's name, with its schema's name and a point in front if it has one.
pub fn write_table_name(table: &TableName, out: &mut Vec<u8>) -> Result<(), AllocError>
    ensures ok { OnOk result (Writes out.old out.new (table_name_words table.now)) }
{
    write_front(&table.schema, out)?;
    write_name(&table.name, out)?;
    Ok(())
}

/// Writes the names with commas between them.
pub fn write_names(names: &[Name], out: &mut Vec<u8>) -> Result<(), AllocError>
    ensures ok { OnOk result (Writes out.old out.new (listed (map name_words names.now))) }
{
    let Some((first, others)) = names.split_first() else {
        return Ok(());
    };
    write_name(first, out)?;
    for name in others {
        write_word(b",", out)?;
        write_name(name, out)?;
    }
    Ok(())
}

/// Writes the number in decimal, without zeros in front.
pub fn write_number(number: &Number, out: &mut Vec<u8>) -> Result<(), AllocError>
    ensures ok { OnOk result (Writes out.old out.new (number_words number.now)) }
{
    write_decimal(number.value, out)
}

/// Writes the text in quotes. Each quote in it is doubled.
pub fn write_quoted(text: &Quoted, out: &mut Vec<u8>) -> Result<(), AllocError>
    ensures ok { OnOk result (Writes out.old out.new (quoted_words text.now)) }
{
    write_quoted_bytes(text.text.as_str().as_bytes(), out)
}

/// Writes NULL, a number, DATE with a day in quotes, or a text in quotes. A minus is a word of its own.
pub fn write_literal(literal: &Literal, out: &mut Vec<u8>) -> Result<(), AllocError>
    ensures ok { OnOk result (Writes out.old out.new (literal_words literal.now)) }
{
    match &literal.value {
        Value::Null => write_word(b"NULL", out),
        Value::Int(number) => write_int(*number, out),
        Value::Date(day) => write_day(*day, out),
        Value::Text(text) => write_quoted_bytes(text.as_str().as_bytes(), out),
    }
}

/// Writes the literals with commas between them.
pub fn write_literals(literals: &[Literal], out: &mut Vec<u8>) -> Result<(), AllocError>
    ensures ok { OnOk result (Writes out.old out.new (listed (map literal_words literals.now))) }
{
    let Some((first, others)) = literals.split_first() else {
        return Ok(());
    };
    write_literal(first, out)?;
    for literal in others {
        write_word(b",", out)?;
        write_literal(literal, out)?;
    }
    Ok(())
}

fn write_int(number: i64, out: &mut Vec<u8>) -> Result<(), AllocError>
    ensures ok { OnOk result (Writes out.old out.new (int_words number)) }
{
    if number < 0 {
        write_word(b"-", out)?;
    }
    write_decimal(number.unsigned_abs(), out)
}

fn write_day(day: i32, out: &mut Vec<u8>) -> Result<(), AllocError>
    ensures ok { OnOk result (Writes out.old out.new (codes "DATE" ∷ day_word day ∷ [])) }
{
    write_word(b"DATE", out)?;
    write_day_word(day, out)?;
    Ok(())
}

fn write_decimal(number: u64, out: &mut Vec<u8>) -> Result<(), AllocError>
    ensures ok { OnOk result (Writes out.old out.new (decimal number ∷ [])) }
{
    let mut buffer = Buffer::new();
    write_word(buffer.format(number).as_bytes(), out)
}

fn write_quoted_bytes(bytes: &[u8], out: &mut Vec<u8>) -> Result<(), AllocError>
    ensures ok { OnOk result (Writes out.old out.new (quoted bytes.now ∷ [])) }
{
    out.extend_from_slice(b" '")?;
    write_doubled(bytes, out)?;
    out.push(b'\'')?;
    Ok(())
}

/// Writes the bytes of a text in quotes, with no blank in front: each quote is doubled.
pub fn write_doubled(bytes: &[u8], out: &mut Vec<u8>) -> Result<(), AllocError>
    ensures ok { OnOk result (Adds out.old out.new (quotes_doubled bytes.now)) }
{
    for byte in bytes {
        if *byte == b'\'' {
            out.extend_from_slice(b"''")?;
        } else {
            out.push(*byte)?;
        }
    }
    Ok(())
}

fn write_day_word(day: i32, out: &mut Vec<u8>) -> Result<(), AllocError>
    ensures ok { OnOk result (Writes out.old out.new (day_word day ∷ [])) }
{
    out.extend_from_slice(b" '")?;
    write_date_bytes(day, out)?;
    out.push(b'\'')?;
    Ok(())
}

fn write_date_bytes(day: i32, out: &mut Vec<u8>) -> Result<(), AllocError>
    ensures ok { OnOk result (Adds out.old out.new (date_bytes day)) }
{
    if is_day(day) {
        write_date(day, out)?;
    }
    Ok(())
}

/// Whether it is a day of the years 1 to 9999.
fn is_day(day: i32) -> bool
    ensures value { result ≡ day_test day }
    ensures day { IsTrue result → IsDay day }
{
    -719_162 <= day && day <= 2_932_896
}
