//! Laws of the plain store that stand beside the program's path. The functions compute nothing.
#![tactic(auto)]

pub mod bag_law;
pub mod isolation;
