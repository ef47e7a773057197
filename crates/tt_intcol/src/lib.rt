//! Columns of numbers and dates as bytes: one spelling for each list of values, the shortest.
#![tactic(auto)]

mod bodies;
mod choice;
mod column;
mod encoding;
mod frame;
mod parts;
mod reading;
mod rows;
mod writing;

pub use column::{DecodeError, EncodeError, IntColumn};
pub use rows::{decode, decode_parts};
pub use tt_value::{BadColumn, FaultAt};
pub use writing::encode;
