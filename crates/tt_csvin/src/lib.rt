//! The rows of a staged file.
#![tactic(auto)]

ghost use Rattle.std.specs.Prelude.{◌≡◌};
ghost use Rattle.tt_csvin.specs.declared.StagedError.TheVariants.{Memory};

mod fields;
mod records;
mod staged;

pub use staged::rows;
use std::alloc::{AllocError, AllocFailed};
use tt_history::Refusal;

/// Why a staged file gives no rows: `BadData` with its record and column, `NullInRow` with its column, or want of memory.
#[derive(Clone, Copy, PartialEq, Eq)]
pub enum StagedError {
    Refused(Refusal),
    Memory,
}

impl From<AllocError> for StagedError {
    ghost from_gives = { λ _ e. e ≡ Memory };

    fn from(_error: AllocError) -> StagedError {
        StagedError::Memory
    }
}

impl<T: Drop> From<AllocFailed<T>> for StagedError {
    ghost from_gives = { λ _ e. e ≡ Memory };

    fn from(_error: AllocFailed<T>) -> StagedError {
        StagedError::Memory
    }
}
