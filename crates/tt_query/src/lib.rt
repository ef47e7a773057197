//! The answer of a query over the partitions that its ticket holds.
#![tactic(auto)]

mod answering;
mod counted;

pub use answering::answer;
