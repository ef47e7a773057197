//! Whether a row meets a predicate over the one table of a statement.
#![tactic(auto)]

pub mod given;
pub mod predicates;
pub mod scope;

pub use predicates::takes;
