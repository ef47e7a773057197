//! The partitions of a table at each moment, kept as a chain of changes, and the facts of which owner and class are read.
#![tactic(auto)]

pub mod facts;
pub mod hold;
pub mod laws;
pub mod layouts;
pub mod numbers;
pub mod piece;

pub use facts::{Facts, PartFacts, TableFacts};
pub use hold::{Class, Hold};
pub use layouts::Layouts;
pub use piece::Piece;
