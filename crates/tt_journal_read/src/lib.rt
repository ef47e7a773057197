//! The entry that a line of a journal tells.
#![tactic(auto)]

ghost use Rattle.std.specs.Prelude.{◌≡◌};
ghost use Rattle.tt_journal_read.specs.declared.JournalError.TheVariants.{Memory};

mod facts;
mod kinds;
pub mod laws;
mod parts;
mod reading;

pub use reading::read;
use std::alloc::{AllocError, AllocFailed};

/// Why a line gives no entry.
#[derive(Clone, Copy, PartialEq, Eq)]
pub enum JournalError {
    /// It is the line of none.
    BadJournal,
    /// Want of memory.
    Memory,
}

impl From<AllocError> for JournalError {
    ghost from_gives = { λ _ e. e ≡ Memory };

    fn from(_error: AllocError) -> JournalError {
        JournalError::Memory
    }
}

impl<T: Drop> From<AllocFailed<T>> for JournalError {
    ghost from_gives = { λ _ e. e ≡ Memory };

    fn from(_error: AllocFailed<T>) -> JournalError {
        JournalError::Memory
    }
}
