//! Two parts, one behind the other.

ghost use Rattle.std.specs.Prelude.{◌≡◌, [], IfOk};
ghost use Rattle.tt_sql.specs.grammar.Combinators.{one};
ghost use Rattle.tt_terminal.specs.KindNumbers.{kind_number};
ghost use Rattle.tt_terminal.specs.Pairs.{with_first};
ghost use Rattle.tt_terminal.specs.Reading.{IsKnown, Reads};

use crate::error::ParseError;
use crate::kind::LexemeKind;
use crate::rest::Rest;

/// What was read, and what stands behind a word that has to stand behind it.
pub fn followed<'a, T: Drop>(
    kind: LexemeKind,
    read: T,
    rest: Rest<'a>,
) -> Result<(T, Rest<'a>), ParseError>
    requires { IsKnown rest }
    ensures reads { Reads (λ x. []) (λ x. x.1) (one (kind_number kind)) rest.entry result }
    ensures kept { IfOk result (λ x. x.0 ≡ read) }
{
    match rest.word(kind) {
        Some(behind) => Ok((read, behind)),
        None => Err(rest.fault()),
    }
}

/// What was read, with what was read behind it.
pub fn paired<'a, A: Drop, B: Drop>(
    first: A,
    second: Result<(B, Rest<'a>), ParseError>,
) -> Result<(A, B, Rest<'a>), ParseError>
    ensures { result ≡ with_first first second.entry }
{
    match second {
        Ok((second, rest)) => Ok((first, second, rest)),
        Err(error) => Err(error),
    }
}
