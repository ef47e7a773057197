//! Readers of names and numbers.

ghost use Rattle.std.specs.Prelude.{◌≡◌, ◌≤◌, ◌<◌, ◌+◌, ◌-◌, ◌*◌, ◌^◌, true, neg_ℤ, pos, length, min, All, IsTrue, IfOk};
ghost use Rattle.std.specs.List.{list_all};
ghost use Rattle.std.specs.Char.{is_ascii_digit};
ghost use Rattle.tt_lex.specs.Lexis.{text_of};
ghost use Rattle.tt_value.specs.values.Texts.{IsPrintableAscii};
ghost use Rattle.tt_sql.specs.grammar.TokenKinds.{upper};
ghost use Rattle.tt_value.specs.calendar.Reading.{digits_value as number_meant};
ghost use Rattle.tt_sql.specs.grammar.Combinators.{name as name_part, number as number_part, short_number as short_number_part};
ghost use Rattle.tt_sql.specs.determined.Queries.{IsAlone, IsAloneTable};
ghost use Rattle.tt_sql.specs.marks.Expressions.{name_marks, column_marks, table_marks, number_marks};
ghost use Rattle.tt_terminal.specs.Reading.{IsKnown};
ghost use Rattle.tt_terminal.specs.Optional.{IsNameOrNone, IsNumberOrNone, IsNegativeOrNone};
ghost use Rattle.tt_terminal.specs.Readers.{ReadsPart};

use crate::error::ParseError;
use crate::kind::LexemeKind;
use crate::rest::Rest;
use std::alloc::{AllocError, Global};
use tt_lex::Token;
use tt_sql::{ColumnName, Name, Number, TableName};
use tt_value::Text;

/// The bytes of a token.
pub fn bytes_of<'a>(text: &'a [u8], token: Token) -> &'a [u8]
    requires low { token.start ≤ token.«end» }
    requires high { token.«end» ≤ length text.now }
    ensures { result.now ≡ text_of text.entry.now token }
{
    &text[token.start as usize..token.end as usize]
}

/// These bytes in upper case.
pub fn upper_text(alloc: Global, bytes: &[u8]) -> Result<Text, AllocError>
    requires plain { All IsPrintableAscii (upper bytes.now) }
    requires short { length bytes.now ≤ 65535 }
    ensures { IfOk result (λ t. t ≡ upper bytes.now) }
{
    let raised: Vec<u8> = bytes
        .iter()
        .map(|byte| byte.to_ascii_uppercase())
        .collect(alloc)?;
    Text::from_ascii(alloc, &raised)
}

/// The name that stands here, if one does.
pub fn optional_name<'a>(
    alloc: Global,
    rest: Rest<'a>,
) -> Result<Option<(Name, Rest<'a>)>, AllocError>
    requires { IsKnown rest }
    ensures { IfOk result (IsNameOrNone rest.entry) }
{
    let Some((first, behind)) = rest.first() else {
        return Ok(None);
    };
    if !first.kind.is_name() {
        return Ok(None);
    }
    let text = upper_text(alloc, bytes_of(rest.text, first.token))?;
    let place = first.token.start;
    Ok(Some((Name { text, place }, behind)))
}

/// The name that has to stand here.
pub fn name_of<'a>(alloc: Global, rest: Rest<'a>) -> Result<(Name, Rest<'a>), ParseError>
    requires { IsKnown rest }
    ensures { ReadsPart name_marks name_part rest.entry result }
{
    match optional_name(alloc, rest)? {
        Some((name, behind)) => Ok((name, behind)),
        None => Err(rest.fault()),
    }
}

/// The name of a column. No table's name is written in front.
pub fn column_of<'a>(alloc: Global, rest: Rest<'a>) -> Result<(ColumnName, Rest<'a>), ParseError>
    requires { IsKnown rest }
    ensures reads { ReadsPart column_marks name_part rest.entry result }
    ensures given { IfOk result (λ x. IsAlone x.0) }
{
    let (name, rest) = name_of(alloc, rest)?;
    Ok((ColumnName { table: None, name }, rest))
}

/// The name of a table. No schema's name is written in front.
pub fn table_of<'a>(alloc: Global, rest: Rest<'a>) -> Result<(TableName, Rest<'a>), ParseError>
    requires { IsKnown rest }
    ensures reads { ReadsPart table_marks name_part rest.entry result }
    ensures given { IfOk result (λ x. IsAloneTable x.0) }
{
    let (name, rest) = name_of(alloc, rest)?;
    Ok((TableName { schema: None, name }, rest))
}

/// The number that these digits stand for, or 2^63 + 1 where it is greater.
pub fn value_of(digits: &[u8]) -> u64
    requires { list_all is_ascii_digit digits.now ≡ true }
    ensures { result ≡ min (number_meant digits.now) (2 ^ 63 + 1) }
{
    let mut value = 0;
    for digit in digits {
        value = with_digit(value, *digit);
    }
    value
}

/// The number with one more digit behind it, or 2^63 + 1 where it is greater.
fn with_digit(value: u64, digit: u8) -> u64
    requires digit { IsTrue (is_ascii_digit digit) }
    requires small { value ≤ 2 ^ 63 + 1 }
    ensures { result ≡ min (10 * value + (digit - 48)) (2 ^ 63 + 1) }
{
    if value > 922_337_203_685_477_580 {
        9_223_372_036_854_775_809
    } else {
        10 * value + u64::from(digit - b'0')
    }
}

/// The number that stands here, if one does.
pub fn optional_number<'a>(rest: Rest<'a>) -> Option<(Number, Rest<'a>)>
    requires { IsKnown rest }
    ensures { IsNumberOrNone rest.entry result }
{
    let (first, behind) = rest.first()?;
    if !first.kind.is_number() {
        return None;
    }
    let value = value_of(bytes_of(rest.text, first.token));
    let place = first.token.start;
    Some((Number { value, place }, behind))
}

/// The number that has to stand here.
pub fn number_of<'a>(rest: Rest<'a>) -> Result<(Number, Rest<'a>), ParseError>
    requires { IsKnown rest }
    ensures { ReadsPart number_marks number_part rest.entry result }
{
    match optional_number(rest) {
        Some((number, behind)) => Ok((number, behind)),
        None => Err(rest.fault()),
    }
}

/// The number of at most nine digits that has to stand here.
pub fn short_number_of<'a>(rest: Rest<'a>) -> Result<(Number, Rest<'a>), ParseError>
    requires { IsKnown rest }
    ensures { ReadsPart number_marks short_number_part rest.entry result }
{
    let Some(_behind) = rest.word(LexemeKind::ShortNumber) else {
        return Err(rest.fault());
    };
    match optional_number(rest) {
        Some((number, behind)) => Ok((number, behind)),
        None => unreachable!(),
    }
}

/// The number that stands behind a minus, with the minus, if one does.
pub fn optional_negative<'a>(rest: Rest<'a>) -> Option<(i64, Rest<'a>)>
    requires { IsKnown rest }
    ensures { IsNegativeOrNone rest.entry result }
{
    let (first, behind) = rest.first()?;
    if !first.kind.is_negative() {
        return None;
    }
    let value = value_of(bytes_of(rest.text, first.token));
    Some((negated(value), behind))
}

/// The number with a minus.
fn negated(value: u64) -> i64
    requires { value ≤ 2 ^ 63 }
    ensures { result ≡ neg_ℤ (pos value) }
{
    if value == 9_223_372_036_854_775_808 {
        i64::MIN
    } else {
        -(value as i64)
    }
}
