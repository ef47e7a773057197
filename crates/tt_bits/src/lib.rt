//! Lists of bits, 64 to a word.
#![tactic(auto)]

pub mod bits;
mod words;

pub use bits::Bits;
