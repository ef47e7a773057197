//! The order of an answer: by the keys of ORDER BY, ties by whole rows, and no more rows than LIMIT.
#![tactic(auto)]

mod arranging;
mod keys;
pub mod laws;

pub use arranging::arrange;
