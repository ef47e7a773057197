//! The point of a clause: the moment at which AT or BEFORE reads a table.
#![tactic(auto)]

pub mod laws;
mod moments;
mod statements;

pub use moments::point;
