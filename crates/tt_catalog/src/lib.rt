//! The calls by which queries and changes begin and end on the catalog over partitions.
#![tactic(auto)]

pub mod changing;
mod closing;
pub mod ending;
mod landing;
pub mod refusing;
pub mod starting;

pub use changing::end_change;
pub use ending::{abandon, end_read};
pub use refusing::refuse_text;
pub use starting::start;
