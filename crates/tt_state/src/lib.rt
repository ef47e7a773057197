//! The catalog over partitions: what it keeps of its tables, and what its keeping stands for.
#![tactic(auto)]

pub mod catalog;
pub mod entries;
pub mod lookup;
pub mod part;
pub mod state;
pub mod ticket;

pub use catalog::Catalog;
pub use part::{SharedPart, StoredPart};
pub use state::{SessionState, State, TableState};
pub use ticket::{Built, Seen, Started, Ticket};
