//! The place, in the rows that a query reads, of the column that a name means.
#![tactic(auto)]

pub mod laws;
mod place;

pub use place::{Tables, has_places, place_in, place_of};
