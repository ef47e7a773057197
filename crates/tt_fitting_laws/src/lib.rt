//! The law of the plain store that the rows of each table fit its schema. Its functions compute nothing.
#![tactic(auto)]

pub mod laws;
