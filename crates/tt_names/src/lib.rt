//! The names of tables: which table is live under a name, and which were dropped under it.
#![tactic(auto)]

mod dropped;
mod live;
pub mod names;

pub use names::Names;
