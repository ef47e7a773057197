//! The value of an expression on a row.
#![tactic(auto)]

mod expression;
mod number;

pub use expression::evaluate;
pub use number::in_range;
