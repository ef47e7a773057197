//! Readers of quoted texts.

ghost use Rattle.std.specs.Prelude.{◌≡◌, ◌≤◌, ◌==◌, false, length, IfOk};
ghost use Rattle.std.specs.Str.{IsUtf8};
ghost use Rattle.tt_value.specs.values.Texts.{IsText};
ghost use Rattle.tt_value.specs.calendar.Calendar.{day_text, IsDay};
ghost use Rattle.tt_sql.specs.grammar.TokenKinds.{DATE_TEXT, text_kind, unquoted as unquoted_bytes, undoubled as undoubled_bytes};
ghost use Rattle.tt_sql.specs.grammar.Combinators.{quoted as quoted_part};
ghost use Rattle.tt_sql.specs.marks.Expressions.{quoted_marks};
ghost use Rattle.tt_terminal.specs.Reading.{IsKnown};
ghost use Rattle.tt_terminal.specs.Optional.{IsQuotedOrNone, IsDayTextOrNone};
ghost use Rattle.tt_terminal.specs.Readers.{ReadsPart};

use crate::error::ParseError;
use crate::kind::LexemeKind;
use crate::name::bytes_of;
use crate::rest::Rest;
use std::alloc::{AllocError, Global};
use tt_sql::Quoted;
use tt_time::read_date;
use tt_value::{BadText, Text};

/// These bytes, with one quote for each two.
fn undoubled(alloc: Global, bytes: &[u8]) -> Result<Vec<u8>, AllocError>
    ensures { IfOk result (λ v. v.items ≡ undoubled_bytes false bytes.now) }
{
    let mut single = Vec::new(alloc);
    let mut second = false;
    for byte in bytes {
        if second {
            second = false;
        } else {
            single.push(*byte)?;
            second = *byte == b'\'';
        }
    }
    Ok(single)
}

/// The text that these bytes mean, which begin and end with a quote.
pub fn unquoted(alloc: Global, bytes: &[u8]) -> Result<Text, AllocError>
    requires quotes { 2 ≤ length bytes.now }
    requires valid { IsUtf8 (unquoted_bytes bytes.now) }
    requires plain { IsText (unquoted_bytes bytes.now) }
    ensures { IfOk result (λ t. t ≡ unquoted_bytes bytes.now) }
{
    let single = undoubled(alloc, &bytes[1..bytes.len() - 1])?;
    let Ok(text) = str::from_utf8(&single) else {
        unreachable!();
    };
    match Text::from_str(alloc, text) {
        Ok(text) => Ok(text),
        Err(BadText::Memory) => Err(AllocError),
        Err(_) => unreachable!(),
    }
}

/// The quoted text that stands here, if one does.
pub fn optional_quoted<'a>(
    alloc: Global,
    rest: Rest<'a>,
) -> Result<Option<(Quoted, Rest<'a>)>, AllocError>
    requires { IsKnown rest }
    ensures { IfOk result (IsQuotedOrNone rest.entry) }
{
    let Some((first, behind)) = rest.first() else {
        return Ok(None);
    };
    if !first.kind.is_quoted() {
        return Ok(None);
    }
    let text = unquoted(alloc, bytes_of(rest.text, first.token))?;
    let place = first.token.start;
    Ok(Some((Quoted { text, place }, behind)))
}

/// The quoted text that has to stand here.
pub fn quoted_of<'a>(alloc: Global, rest: Rest<'a>) -> Result<(Quoted, Rest<'a>), ParseError>
    requires { IsKnown rest }
    ensures { ReadsPart quoted_marks quoted_part rest.entry result }
{
    match optional_quoted(alloc, rest)? {
        Some((quoted, behind)) => Ok((quoted, behind)),
        None => Err(rest.fault()),
    }
}

/// The day of the date whose text stands here, if one does.
pub fn optional_day<'a>(rest: Rest<'a>) -> Option<(i32, Rest<'a>)>
    requires { IsKnown rest }
    ensures { IsDayTextOrNone rest.entry result }
{
    let (first, behind) = rest.first()?;
    if first.kind.number() != LexemeKind::DateText.number() {
        return None;
    }
    Some((day_of(bytes_of(rest.text, first.token)), behind))
}

/// The day of a date's text, which begins and ends with a quote.
fn day_of(bytes: &[u8]) -> i32
    requires quotes { 2 ≤ length bytes.now }
    requires valid { IsUtf8 (unquoted_bytes bytes.now) }
    requires date { text_kind (unquoted_bytes bytes.now) ≡ DATE_TEXT }
    ensures text { unquoted_bytes bytes.now ≡ day_text result }
    ensures day { IsDay result }
{
    let Ok(text) = str::from_utf8(&bytes[1..bytes.len() - 1]) else {
        unreachable!();
    };
    match read_date(text) {
        Ok(day) => day,
        Err(_) => unreachable!(),
    }
}
