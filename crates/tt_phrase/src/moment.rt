//! Readers of the moments at which queries and clones read.

ghost use Rattle.std.specs.Prelude.{IfOk, ⊤};
ghost use Rattle.tt_sql.specs.marks.Expressions.{number_marks};
ghost use Rattle.tt_sql.specs.grammar.Combinators.{brackets, maybe, quoted_moment};
ghost use Rattle.tt_sql.specs.determined.Queries.{IsGivenClause, IsGivenMoment};
ghost use Rattle.tt_sql.specs.trees.Lists.{IsListed, WhenThere};
ghost use Rattle.tt_sql.specs.marks.Queries.{clause_marks, moment_marks};
ghost use Rattle.tt_sql.specs.grammar.Written.{clause, moment, product};
ghost use Rattle.tt_terminal.specs.Reading.{IsKnown};
ghost use Rattle.tt_phrase.specs.Moments.{instant_marks, written_type, type_marks, offset};
ghost use Rattle.tt_terminal.specs.Readers.{ReadsPart, ReadsOver, ReadsList, ReadsMaybe};

use sqlite_items::Items;
use std::alloc::Global;
use tt_sql::{Clause, Moment, Number, Offset, Side};
use tt_terminal::error::ParseError;
use tt_terminal::fixed::{after, either_word, flag_of};
use tt_terminal::kind::LexemeKind;
use tt_terminal::name::short_number_of;
use tt_terminal::quoted::{optional_quoted, quoted_of};
use tt_terminal::rest::Rest;
use tt_time::read_timestamp;

/// AT or BEFORE with its moment, if it stands here.
pub fn optional_clause<'a>(
    alloc: Global,
    rest: Rest<'a>,
) -> Result<(Option<Clause>, Rest<'a>), ParseError>
    requires { IsKnown rest }
    ensures reads { ReadsMaybe clause_marks (maybe clause) rest.entry result }
    ensures given { IfOk result (λ x. WhenThere IsGivenClause x.0) }
{
    if let Some(rest) = rest.word(LexemeKind::At) {
        let (moment, rest) = bracketed_moment(alloc, rest)?;
        let side = Side::At;
        return Ok((Some(Clause { side, moment }), rest));
    }
    if let Some(rest) = rest.word(LexemeKind::Before) {
        let (moment, rest) = bracketed_moment(alloc, rest)?;
        let side = Side::Before;
        return Ok((Some(Clause { side, moment }), rest));
    }
    Ok((None, rest))
}

/// A moment in brackets.
fn bracketed_moment<'a>(alloc: Global, rest: Rest<'a>) -> Result<(Moment, Rest<'a>), ParseError>
    requires { IsKnown rest }
    ensures reads { ReadsPart moment_marks (brackets moment) rest.entry result }
    ensures given { IfOk result (λ x. IsGivenMoment x.0) }
{
    let rest = after(LexemeKind::Open, rest)?;
    let (moment, rest) = moment_of(alloc, rest)?;
    let rest = after(LexemeKind::Close, rest)?;
    Ok((moment, rest))
}

/// The moment that a clause names.
fn moment_of<'a>(alloc: Global, rest: Rest<'a>) -> Result<(Moment, Rest<'a>), ParseError>
    requires { IsKnown rest }
    ensures reads { ReadsPart moment_marks moment rest.entry result }
    ensures given { IfOk result (λ x. IsGivenMoment x.0) }
{
    if let Some(rest) = rest.word(LexemeKind::Timestamp) {
        let rest = after(LexemeKind::Arrow, rest)?;
        let (instant, rest) = instant_of(alloc, rest)?;
        let rest = past_type(rest)?;
        return Ok((Moment::Timestamp(instant), rest));
    }
    if let Some(rest) = rest.word(LexemeKind::Offset) {
        let rest = after(LexemeKind::Arrow, rest)?;
        return offset_of(alloc, rest);
    }
    if let Some(rest) = rest.word(LexemeKind::Statement) {
        let rest = after(LexemeKind::Arrow, rest)?;
        let (id, rest) = quoted_of(alloc, rest)?;
        return Ok((Moment::Statement(id), rest));
    }
    Err(rest.fault())
}

/// The moment of a timestamp's text, in milliseconds.
fn instant_of<'a>(alloc: Global, rest: Rest<'a>) -> Result<(i64, Rest<'a>), ParseError>
    requires { IsKnown rest }
    ensures { ReadsPart instant_marks quoted_moment rest.entry result }
{
    let Some(_) = rest.word(LexemeKind::TimeText) else {
        return Err(rest.fault());
    };
    let Some((quoted, behind)) = optional_quoted(alloc, rest)? else {
        unreachable!();
    };
    match read_timestamp(quoted.text.as_str()) {
        Ok(instant) => Ok((instant, behind)),
        Err(_) => unreachable!(),
    }
}

/// The type that may be written behind a timestamp.
fn past_type(rest: Rest<'_>) -> Result<Rest<'_>, ParseError>
    requires { IsKnown rest }
    ensures { ReadsOver type_marks written_type rest.entry result }
{
    let Some(rest) = rest.word(LexemeKind::DoubleColon) else {
        return Ok(rest);
    };
    match either_word(LexemeKind::Timestamp, LexemeKind::TimestampNtz, rest) {
        Some(behind) => Ok(behind),
        None => Err(rest.fault()),
    }
}

/// Seconds from now.
fn offset_of<'a>(alloc: Global, rest: Rest<'a>) -> Result<(Moment, Rest<'a>), ParseError>
    requires { IsKnown rest }
    ensures reads { ReadsPart moment_marks offset rest.entry result }
    ensures given { IfOk result (λ x. IsGivenMoment x.0) }
{
    let (negative, rest) = flag_of(LexemeKind::Minus, rest);
    let (factors, rest) = factors_of(alloc, rest)?;
    Ok((Moment::Offset(Offset { negative, factors }), rest))
}

/// One to three numbers with stars between them.
fn factors_of<'a>(alloc: Global, rest: Rest<'a>) -> Result<(Items<Number>, Rest<'a>), ParseError>
    requires { IsKnown rest }
    ensures reads { ReadsList number_marks product rest.entry result }
    ensures given { IfOk result (λ x. IsListed (λ n. ⊤) x.0) }
{
    let mut factors = Items::new(alloc);
    let (first, rest) = short_number_of(rest)?;
    factors.push(first)?;
    let Some(rest) = rest.word(LexemeKind::Star) else {
        return Ok((factors, rest));
    };
    let (second, rest) = short_number_of(rest)?;
    factors.push(second)?;
    let Some(rest) = rest.word(LexemeKind::Star) else {
        return Ok((factors, rest));
    };
    let (third, rest) = short_number_of(rest)?;
    factors.push(third)?;
    Ok((factors, rest))
}
