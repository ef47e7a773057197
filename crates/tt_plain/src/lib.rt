//! The plain store: its types, and its rules as definitions.
#![tactic(auto)]

pub mod ranges;
pub mod store;
pub mod store_laws;
pub mod tally;
