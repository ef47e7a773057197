//! What is left of the tokens of a text.

ghost use Rattle.std.specs.Prelude.{◌≡◌, ◌<◌, false};
ghost use Rattle.tt_sql.specs.grammar.Written.{begins_other};
ghost use Rattle.tt_terminal.specs.declared.error.ParseError.TheVariants.{Syntax};
ghost use Rattle.tt_terminal.specs.KindNumbers.{kind_number};
ghost use Rattle.tt_terminal.specs.Reading.{IsKnown, first_kind, first_place};
ghost use Rattle.tt_terminal.specs.Optional.{TakesOrEnds, IsWordOrNone, IsPlacedOrNone};

use crate::error::ParseError;
use crate::kind::LexemeKind;
use tt_lex::Token;
use tt_sql::Syntax as Fault;

/// A token and its kind.
#[derive(Clone, Copy)]
pub struct Lexed {
    pub token: Token,
    pub kind: LexemeKind,
}

/// The tokens of a text from one of them on.
#[derive(Clone, Copy)]
pub struct Rest<'a> {
    pub text: &'a [u8],
    pub tokens: &'a [Lexed],
}

impl<'a> Rest<'a> {
    /// The token that stands here, and what stands behind it.
    pub fn first(self) -> Option<(Lexed, Rest<'a>)>
        requires { IsKnown self }
        ensures { TakesOrEnds self.entry result }
    {
        let (first, tokens) = self.tokens.split_first()?;
        let text = self.text;
        Some((*first, Rest { text, tokens }))
    }

    /// What stands behind a token of this kind, if one stands here.
    pub fn word(self, kind: LexemeKind) -> Option<Rest<'a>>
        requires { IsKnown self }
        ensures { IsWordOrNone (kind_number kind) self.entry result }
    {
        let (first, tokens) = self.tokens.split_first()?;
        if first.kind.number() != kind.number() {
            return None;
        }
        Some(Rest {
            text: self.text,
            tokens,
        })
    }

    /// The place of a token of this kind, and what stands behind it, if one stands here.
    pub fn placed(self, kind: LexemeKind) -> Option<(u32, Rest<'a>)>
        requires { IsKnown self }
        ensures { IsPlacedOrNone (kind_number kind) self.entry result }
    {
        let (first, rest) = self.first()?;
        if first.kind.number() != kind.number() {
            return None;
        }
        Some((first.token.start, rest))
    }

    /// Whether a factor may begin here that is no number.
    pub fn begins_factor(self) -> bool
        requires { IsKnown self }
        ensures { result ≡ begins_other (first_kind self.entry) }
    {
        match self.first() {
            Some((first, _)) => first.kind.begins_factor(),
            None => false,
        }
    }

    /// The fault at the token that stands here, or where the text ends.
    pub fn fault(self) -> ParseError
        requires { IsKnown self }
        ensures { result ≡ Syntax (record { place = first_place self.entry }) }
    {
        match self.tokens.first() {
            Some(first) => ParseError::Syntax(Fault {
                place: first.token.start,
            }),
            None => ParseError::Syntax(Fault {
                place: self.text.len() as u32,
            }),
        }
    }
}
