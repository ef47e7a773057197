//! Which table owns a partition, as what its bytes count, and how many bytes each table owns.
#![tactic(auto)]

pub mod holder;
pub mod holders;
pub mod holding;
pub mod laws;
pub mod owned;
pub mod owner;
pub mod row;
pub mod rows;
pub mod runs;

pub use owner::owner_class;
pub use row::MetricRow;
pub use rows::metrics;
