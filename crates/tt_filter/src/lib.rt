//! Which rows of a partition a predicate is true on, as bits.
#![tactic(auto)]

mod conditions;
mod decoding;
mod given;
mod selecting;
mod sides;
mod truths;

pub use selecting::select;
