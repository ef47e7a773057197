//! Laws of what queries mean. They compute nothing.
#![tactic(auto)]

pub mod laws;
