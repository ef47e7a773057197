//! Columns of texts as bytes: one spelling for each list of values, the shortest.
#![tactic(auto)]

mod bodies;
mod choice;
mod column;
mod encoding;
mod parts;
mod reading;
mod rows;
mod text_ref;
mod writing;

pub use column::{DecodeError, EncodeError, TextColumn};
pub use rows::{decode, decode_parts, decode_refs};
pub use text_ref::TextRef;
pub use tt_value::{BadColumn, FaultAt};
pub use writing::{encode, encode_refs};
