//! The words of the language: a text is divided into words, numbers, quoted texts and signs.
#![tactic(auto)]

pub mod laws;
mod lexer;
mod scan;

ghost use Rattle.std.specs.Prelude.{◌≡◌};
ghost use Rattle.tt_lex.specs.declared.TokensError.TheVariants.{Lex, Memory};

pub use lexer::tokens;
use std::alloc::{AllocError, AllocFailed};

/// What a token is.
#[derive(Clone, Copy, PartialEq, Eq)]
pub enum TokenKind {
    /// A letter or `_`, and then letters, digits, `_` and `$`.
    Word,
    /// Digits.
    Number,
    /// A text between quotes, with the quotes. Within it a quote is written twice.
    Quoted,
    /// One of `( ) , . ; * + - = <> != < <= > >= => ::`.
    Sign,
}

/// A token of a text: its bytes are those from `start` up to `end`.
#[derive(Clone, Copy, PartialEq, Eq)]
pub struct Token {
    pub start: u32,
    pub end: u32,
    pub kind: TokenKind,
}

/// Why a text has no tokens, with the place of the fault as a byte offset.
#[derive(Clone, Copy, PartialEq, Eq)]
pub enum LexFault {
    /// A byte that begins no token, or a control character in a quoted text.
    BadByte(u32),
    /// A quoted text without its closing quote. The place is its opening quote.
    UnclosedText(u32),
    /// A comment `/*` without its `*/`. The place is its beginning.
    UnclosedComment(u32),
    /// A backslash in a quoted text.
    BackslashInText(u32),
    /// A quoted text of more than 65,535 bytes, a doubled quote counted once. The place is its opening quote.
    TextTooLong(u32),
}

/// Why no tokens are given.
#[derive(Clone, Copy, PartialEq, Eq)]
pub enum TokensError {
    /// The text has this fault, and none further to the left.
    Lex(LexFault),
    /// There is no memory for the tokens.
    Memory,
}

impl From<LexFault> for TokensError {
    ghost from_gives = { λ fault e. e ≡ Lex fault };

    fn from(fault: LexFault) -> TokensError {
        TokensError::Lex(fault)
    }
}

impl From<AllocError> for TokensError {
    ghost from_gives = { λ _ e. e ≡ Memory };

    fn from(_e: AllocError) -> TokensError {
        TokensError::Memory
    }
}

impl<T: Drop> From<AllocFailed<T>> for TokensError {
    ghost from_gives = { λ _ e. e ≡ Memory };

    fn from(_e: AllocFailed<T>) -> TokensError {
        TokensError::Memory
    }
}
