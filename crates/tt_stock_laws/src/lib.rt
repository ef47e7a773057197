//! The law of the plain store that the parts which are named are stored. Its functions compute nothing.
#![tactic(auto)]

pub mod laws;
