//! Definitions: the entries by which a session's statements make tables.
#![tactic(auto)]

pub mod defining;
pub mod making;

pub use defining::define;
