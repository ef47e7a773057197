//! Laws of the plain store about the schemas of its tables. The functions compute nothing.
#![tactic(auto)]

pub mod laws;
