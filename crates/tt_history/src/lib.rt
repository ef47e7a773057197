//! The histories of what sessions did: entries, and what statements answer.
#![tactic(auto)]

pub mod history;
pub mod refusals;
pub mod reply;

pub use history::{Actor, Added, Entry, EntryKind, History, Miss, Told};
pub use refusals::{Content, RefusalLine};
pub use reply::{Refusal, Reply, SharedBag, SharedRows};
