//! The text of a history: the line of each entry, the lines of replies, and the whole transcript.
#![tactic(auto)]

mod append;
pub mod laws;
mod line;
mod reply;
mod whole;

pub use line::write;
pub use reply::write_reply;
pub use whole::transcript;
