//! Readers of the grammar's terminals: words and signs, names, numbers, quoted texts and literals.
#![tactic(auto)]

pub mod error;
pub mod fixed;
pub mod kind;
pub mod literal;
pub mod name;
pub mod pair;
pub mod quoted;
pub mod rest;

pub use error::ParseError;
pub use kind::LexemeKind;
