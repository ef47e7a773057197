//! What the zones of a partition tell of its rows, and which predicates can match none of them.
#![tactic(auto)]

pub mod building;
mod conditions;
mod days;
pub mod laws;
pub mod pruning;
mod sides;
pub mod truth_set;
pub mod zone;

pub use building::{zone_of_column, zone_of_rows};
pub use pruning::{may, possible};
pub use truth_set::TruthSet;
pub use zone::Zone;
