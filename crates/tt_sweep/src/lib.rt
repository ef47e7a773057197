//! Which stored partitions nothing names any more.
#![tactic(auto)]

pub mod claim;
pub mod claims;
pub mod list;
pub mod numbers;
pub mod sweep;

pub use claim::Claim;
pub use list::Doomed;
