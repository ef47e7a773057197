//! Readers of fixed words and signs.

ghost use Rattle.std.specs.Prelude.{◌≡◌, ◌==◌, true, false, []};
ghost use Rattle.tt_sql.specs.grammar.Combinators.{one, placed, maybe};
ghost use Rattle.tt_sql.specs.grammar.Written.{spare};
ghost use Rattle.tt_sql.specs.marks.Expressions.{flag_marks};
ghost use Rattle.tt_terminal.specs.KindNumbers.{kind_number};
ghost use Rattle.tt_terminal.specs.Reading.{IsKnown, Passes, first_kind};
ghost use Rattle.tt_terminal.specs.Optional.{IsEitherOrNone, IsAnyOrNone};
ghost use Rattle.tt_terminal.specs.Readers.{ReadsPart, ReadsOver, place_marks, pair_of};

use crate::error::ParseError;
use crate::kind::LexemeKind;
use crate::rest::Rest;

/// What stands behind a word that has to stand here.
pub fn after(kind: LexemeKind, rest: Rest<'_>) -> Result<Rest<'_>, ParseError>
    requires { IsKnown rest }
    ensures { ReadsOver [] (one (kind_number kind)) rest.entry result }
{
    match rest.word(kind) {
        Some(behind) => Ok(behind),
        None => Err(rest.fault()),
    }
}

/// The place of a word that has to stand here.
pub fn place_of(kind: LexemeKind, rest: Rest<'_>) -> Result<(u32, Rest<'_>), ParseError>
    requires { IsKnown rest }
    ensures { ReadsPart place_marks (placed (kind_number kind)) rest.entry result }
{
    match rest.placed(kind) {
        Some(placed) => Ok(placed),
        None => Err(rest.fault()),
    }
}

/// Whether this word stands here.
pub fn flag_of(kind: LexemeKind, rest: Rest<'_>) -> (bool, Rest<'_>)
    requires { IsKnown rest }
    ensures { Passes [] (maybe (one (kind_number kind))) rest.entry (flag_marks result.0) result.1 }
{
    match rest.word(kind) {
        Some(behind) => (true, behind),
        None => (false, rest),
    }
}

/// Whether these two words stand here.
pub fn flag_of_both(
    first: LexemeKind,
    second: LexemeKind,
    rest: Rest<'_>,
) -> Result<(bool, Rest<'_>), ParseError>
    requires { IsKnown rest }
    ensures { ReadsPart flag_marks (maybe (pair_of (kind_number first) (kind_number second)))
        rest.entry result }
{
    let Some(rest) = rest.word(first) else {
        return Ok((false, rest));
    };
    let rest = after(second, rest)?;
    Ok((true, rest))
}

/// What stands behind a word that may stand here.
pub fn past(kind: LexemeKind, rest: Rest<'_>) -> Rest<'_>
    requires { IsKnown rest }
    ensures { Passes [] (spare (one (kind_number kind))) rest.entry [] result }
{
    match rest.word(kind) {
        Some(behind) => behind,
        None => rest,
    }
}

/// What stands behind one of two words, if one stands here.
pub fn either_word<'a>(first: LexemeKind, second: LexemeKind, rest: Rest<'a>) -> Option<Rest<'a>>
    requires { IsKnown rest }
    ensures { IsEitherOrNone (kind_number first) (kind_number second) rest.entry result }
{
    if let Some(behind) = rest.word(first) {
        return Some(behind);
    }
    rest.word(second)
}

/// What stands behind one of three words, if one stands here.
pub fn any_word<'a>(
    first: LexemeKind,
    second: LexemeKind,
    third: LexemeKind,
    rest: Rest<'a>,
) -> Option<Rest<'a>>
    requires { IsKnown rest }
    ensures { IsAnyOrNone (kind_number first) (kind_number second) (kind_number third)
        rest.entry result }
{
    if let Some(behind) = rest.word(first) {
        return Some(behind);
    }
    if let Some(behind) = rest.word(second) {
        return Some(behind);
    }
    rest.word(third)
}

/// Whether this word stands here.
pub fn stands(kind: LexemeKind, rest: Rest<'_>) -> bool
    requires { IsKnown rest }
    ensures { result ≡ (first_kind rest.entry == kind_number kind) }
{
    rest.word(kind).is_some()
}
