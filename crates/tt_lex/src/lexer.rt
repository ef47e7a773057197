//! The tokens of a whole text.

ghost use Rattle.std.specs.Prelude.{◌≡◌, ℕ, ◌^◌, ◌<◌, List, length, All, IfOk};
ghost use Rattle.tt_lex.specs.declared.Token.{Token};
ghost use Rattle.tt_lex.specs.declared.LexFault.{LexFault};
ghost use Rattle.tt_lex.specs.Lexis.{HasTokens, HasFault, IfFault, AreInOrder, IsBetweenCharacters};
ghost use Rattle.tt_lex.specs.Laws.{GivesTokensOf, GivesFaultOf};
ghost use Rattle.tt_lex.specs.TokensOf.{tokens_of, Gives};

use crate::scan::front_of;
use crate::{Token, TokensError};
use std::alloc::Global;

/// The tokens of a text, in order, or its first fault from the left.
pub fn tokens(alloc: Global, text: &str) -> Result<Vec<Token>, TokensError>
    requires { length text.now < 2 ^ 32 }

    // The tokens that are given are those of the text, and those of the text are given.
    ensures found { IfOk result (λ tokens. HasTokens text.now tokens.items) }
    ensures only { GivesTokensOf text.now result }

    // The fault that is given is the text's first one, and the text's first one is given.
    ensures fault { IfFault result (HasFault text.now) }
    ensures only_fault { GivesFaultOf text.now result }

    // So it is what the function on texts gives, unless memory runs out.
    ensures value { Gives (tokens_of text.now) result }

    ensures order { IfOk result (λ tokens. AreInOrder 0 (length text.now) tokens.items) }
    ensures characters { IfOk result (λ tokens. All (IsBetweenCharacters text.now) tokens.items) }
{
    let mut list = Vec::new(alloc);
    let mut rest = text.as_bytes();
    let mut at = 0;
    while !rest.is_empty() {
        let front = front_of(rest, at)?;
        let end = at + front.length as u32;
        if let Some(kind) = front.kind {
            let start = at;
            list.push(Token { start, end, kind })?;
        }
        let (_, behind) = rest.split_at(front.length);
        rest = behind;
        at = end;
    }
    Ok(list)
}
