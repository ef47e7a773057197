//! What changes do to the parts of their tables. By now it has INSERTs of written rows.
#![tactic(auto)]

pub mod insert;
mod tuples;

pub use insert::insert_written;
