//! What a statement's text says: its statement, or the place of its fault.

ghost use Rattle.std.specs.Prelude.{◌≡◌, ◌<◌, ◌^◌, length, IfOk};
ghost use Rattle.tt_sql.specs.asked.Request.{as_read};
ghost use Rattle.tt_sql.specs.text.StatementOf.{fault_place as place_of, statement_of};

use std::alloc::{AllocError, Global};
use tt_lex::{LexFault, TokensError, tokens};
use tt_parse::{ParseError, parse};
use tt_sql::{Statement, Syntax};

fn fault_place(fault: LexFault) -> u32
    ensures { result ≡ place_of fault }
{
    match fault {
        LexFault::BadByte(place) => place,
        LexFault::UnclosedText(place) => place,
        LexFault::UnclosedComment(place) => place,
        LexFault::BackslashInText(place) => place,
        LexFault::TextTooLong(place) => place,
    }
}

/// The statement of a text, or the place of its fault.
#[tactic(auto, unfolding(tt_sql::specs::text::StatementOf::statement_of))]
pub fn read_statement(alloc: Global, text: &str) -> Result<Result<Statement, Syntax>, AllocError>
    requires { length text.now < 2 ^ 32 }
    ensures { IfOk result (λ read. as_read read ≡ statement_of text.now) }
{
    let tokens = match tokens(alloc, text) {
        Ok(tokens) => tokens,
        Err(TokensError::Lex(fault)) => {
            let place = fault_place(fault);
            return Ok(Err(Syntax { place }));
        }
        Err(TokensError::Memory) => return Err(AllocError),
    };
    match parse(alloc, text, tokens.as_slice()) {
        Ok(statement) => Ok(Ok(statement)),
        Err(ParseError::Syntax(syntax)) => Ok(Err(syntax)),
        Err(ParseError::Memory) => Err(AllocError),
    }
}
