//! Dates and timestamps: read from text exactly by their grammar, and written.
#![tactic(auto)]

mod dates;
mod digits;
pub mod laws;
mod timestamps;

pub use dates::{read_date, write_date};
pub use timestamps::read_timestamp;

/// A text that is no date.
#[derive(Clone, Copy, PartialEq, Eq)]
pub struct BadDate;

/// A text that is no timestamp.
#[derive(Clone, Copy, PartialEq, Eq)]
pub struct BadTimestamp;
