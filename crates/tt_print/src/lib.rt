//! The one text of a statement, and what it is read as.
#![tactic(auto)]

mod changes;
mod expressions;
pub mod laws;
mod moments;
mod predicates;
mod queries;
mod statements;
mod tables;
mod words;

pub use statements::print;
