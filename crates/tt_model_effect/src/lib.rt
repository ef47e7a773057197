//! What an entry does to the plain store, as a value, and the store after it.
#![tactic(auto)]

pub mod apply;
pub mod effect;
pub mod layouts;
pub mod lists;
pub mod parts;
pub mod pins;
pub mod points;
pub mod sessions;
pub mod tables;
pub mod tallies;

pub use apply::applied;
pub use effect::{Effect, TableChange, TallyChange};
