//! The parser: the statement that a text is, or the place of its fault.
#![tactic(auto)]

mod change;
mod keywords;
mod lexed;
mod parser;
mod select;
mod statement;
mod table;
mod wait;

pub use parser::parse;
pub use tt_terminal::{LexemeKind, ParseError};
