//! The law of the plain store that what an open change has pinned stays in its table. Its functions compute nothing.
#![tactic(auto)]

pub mod laws;
