//! Laws of what a ticket holds: it stands for what its statement sees. They compute nothing.
#![tactic(auto)]

pub mod laws;
