//! The marks of sessions on tables, shared or exclusive.
#![tactic(auto)]

pub mod mark;
pub mod marks;
mod sorted;

pub use mark::{HeldBy, Mark};
pub use marks::Marks;
