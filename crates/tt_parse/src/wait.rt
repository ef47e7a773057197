//! The reader of CALL SYSTEM$WAIT.

ghost use Rattle.tt_sql.specs.marks.Statements.{time_unit_marks, wait_marks};
ghost use Rattle.tt_sql.specs.grammar.Written.{wait};
ghost use Rattle.tt_terminal.specs.Reading.{IsKnown};
ghost use Rattle.tt_parse.specs.Tables.{IsUnitOrNone};
ghost use Rattle.tt_parse.specs.Waits.{time_unit, time_unit_or_seconds};
ghost use Rattle.tt_terminal.specs.Readers.{ReadsPart};

use std::alloc::Global;
use tt_sql::{TimeUnit, Wait};
use tt_terminal::error::ParseError;
use tt_terminal::fixed::after;
use tt_terminal::kind::LexemeKind;
use tt_terminal::name::short_number_of;
use tt_terminal::quoted::optional_quoted;
use tt_terminal::rest::Rest;

/// CALL SYSTEM$WAIT. Where no unit is written, seconds are meant.
pub fn wait_of<'a>(alloc: Global, rest: Rest<'a>) -> Result<(Wait, Rest<'a>), ParseError>
    requires { IsKnown rest }
    ensures { ReadsPart wait_marks wait rest.entry result }
{
    let rest = after(LexemeKind::Call, rest)?;
    let rest = after(LexemeKind::SystemWait, rest)?;
    let rest = after(LexemeKind::Open, rest)?;
    let (amount, rest) = short_number_of(rest)?;
    let (unit, rest) = optional_unit(alloc, rest)?;
    let rest = after(LexemeKind::Close, rest)?;
    Ok((Wait { amount, unit }, rest))
}

/// The unit behind a comma, if one stands here, or else seconds.
fn optional_unit<'a>(alloc: Global, rest: Rest<'a>) -> Result<(TimeUnit, Rest<'a>), ParseError>
    requires { IsKnown rest }
    ensures { ReadsPart time_unit_marks time_unit_or_seconds rest.entry result }
{
    let Some(rest) = rest.word(LexemeKind::Comma) else {
        return Ok((TimeUnit::Seconds, rest));
    };
    unit_text_of(alloc, rest)
}

/// The unit whose quoted name has to stand here.
fn unit_text_of<'a>(alloc: Global, rest: Rest<'a>) -> Result<(TimeUnit, Rest<'a>), ParseError>
    requires { IsKnown rest }
    ensures { ReadsPart time_unit_marks time_unit rest.entry result }
{
    let Some(_) = rest.word(LexemeKind::UnitText) else {
        return Err(rest.fault());
    };
    let Some((quoted, behind)) = optional_quoted(alloc, rest)? else {
        unreachable!();
    };
    match unit_of(quoted.text.as_str().as_bytes()) {
        Some(unit) => Ok((unit, behind)),
        None => unreachable!(),
    }
}

/// The unit of time that this word names, in any case, if it does.
pub fn unit_of(word: &[u8]) -> Option<TimeUnit>
    ensures { IsUnitOrNone word.now result }
{
    if word.eq_ignore_ascii_case(b"DAYS") {
        return Some(TimeUnit::Days);
    }
    if word.eq_ignore_ascii_case(b"HOURS") {
        return Some(TimeUnit::Hours);
    }
    if word.eq_ignore_ascii_case(b"MINUTES") {
        return Some(TimeUnit::Minutes);
    }
    if word.eq_ignore_ascii_case(b"SECONDS") {
        return Some(TimeUnit::Seconds);
    }
    if word.eq_ignore_ascii_case(b"MILLISECONDS") {
        return Some(TimeUnit::Milliseconds);
    }
    None
}
