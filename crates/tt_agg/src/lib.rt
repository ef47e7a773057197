//! The rows of an answer before they are ordered: items and aggregates, over each row or over groups.
#![tactic(auto)]

mod aggregating;
mod error;
mod groups;
mod items;
mod values;

pub use aggregating::{aggregate, select};
pub use error::AggregateError;
