//! Why a text gives no statement.

ghost use Rattle.std.specs.Prelude.{◌≡◌};
ghost use Rattle.tt_terminal.specs.declared.error.ParseError.TheVariants.{Memory};

use std::alloc::{AllocError, AllocFailed};
use tt_sql::Syntax;

/// Why no statement is given.
#[derive(Clone, Copy, PartialEq, Eq)]
pub enum ParseError {
    /// The text is no statement.
    Syntax(Syntax),
    /// There is no memory for the statement.
    Memory,
}

impl From<AllocError> for ParseError {
    ghost from_gives = { λ _ e. e ≡ Memory };

    fn from(_error: AllocError) -> ParseError {
        ParseError::Memory
    }
}

impl<T: Drop> From<AllocFailed<T>> for ParseError {
    ghost from_gives = { λ _ e. e ≡ Memory };

    fn from(_error: AllocFailed<T>) -> ParseError {
        ParseError::Memory
    }
}
