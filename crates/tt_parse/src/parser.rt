//! Whole statements.

ghost use Rattle.std.specs.Prelude.{◌≡◌, ◌^◌, ◌<◌, length, Ok, IfOk};
ghost use Rattle.tt_lex.specs.TokensOf.{tokens_of};
ghost use Rattle.tt_sql.specs.determined.Statements.{IsGivenStatement};
ghost use Rattle.tt_sql.specs.text.StatementOf.{IsTextOf, statement_of};
ghost use Rattle.tt_parse.specs.Parsed.{GivesStatement, IsAtFault, Says};
ghost use Rattle.tt_terminal.specs.Reading.{IsKnown, seen};

use crate::lexed::lexed;
use crate::statement::statement_of;
use std::alloc::Global;
use tt_lex::Token;
use tt_lex::laws::{tokens_of_a_text, tokens_stand_in_their_text};
use tt_sql::Statement;
use tt_terminal::error::ParseError;
use tt_terminal::rest::Rest;

/// How many levels of brackets, NOTs and minuses a statement may have.
const LEVELS: u32 = 256;

/// The statement that a text is, whose tokens these are, or the place of its fault: the first token with which
/// no statement goes on, or the end of the text. A token that opens a level too many is such a token.
pub fn parse(alloc: Global, text: &str, tokens: &[Token]) -> Result<Statement, ParseError>
    requires short { length text.now < 2 ^ 32 }
    requires tokens { tokens_of text.now ≡ Ok tokens.now }

    // The statement of the text is given, or the place of its fault.
    ensures statement { GivesStatement result (statement_of text.now) }

    // So what is given is spelled by the text, and a place is where no statement goes on.
    ensures found { IfOk result (λ s. IsTextOf text.now s) }
    ensures fault { IsAtFault text.now result }
{
    tokens_of_a_text();
    tokens_stand_in_their_text();
    let text = text.as_bytes();
    let list = lexed(alloc, text, tokens)?;
    let tokens = &list;
    whole_statement(alloc, Rest { text, tokens })
}

/// The statement that all of these tokens are.
fn whole_statement(alloc: Global, rest: Rest<'_>) -> Result<Statement, ParseError>
    requires { IsKnown rest }
    ensures says { Says 256 (length rest.entry.text.now) (seen rest.entry) result }
    ensures given { IfOk result IsGivenStatement }
{
    let (statement, rest) = statement_of(alloc, LEVELS, rest)?;
    if rest.tokens.is_empty() {
        Ok(statement)
    } else {
        Err(rest.fault())
    }
}
