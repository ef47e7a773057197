//! The rows of a table's partitions that a predicate takes. Partitions whose zones rule a match out are not read.
#![tactic(auto)]

mod counting;
mod picking;
mod planning;
mod scanning;

pub use counting::count;
pub use planning::{Plan, plan_of};
pub use scanning::scan;
