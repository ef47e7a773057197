//! The script: the bytes of a script are read exactly into the program of its sessions, or refused at the first
//! faulty line.
#![tactic(auto)]

ghost use Rattle.std.specs.Prelude.{◌≡◌};
ghost use Rattle.tt_script.specs.declared.ReadError.TheVariants.{Memory};

mod cut;
pub mod laws;
mod lines;
mod reader;
mod script;

pub use reader::read;
pub use script::{FileText, Program, Script, ScriptText, SessionText, Turn};
use std::alloc::{AllocError, AllocFailed};

/// Bytes that are no script. The place is the byte offset at which the first faulty line begins.
#[derive(Clone, Copy, PartialEq, Eq)]
pub struct BadInput {
    pub place: u64,
}

/// Why no program is given.
#[derive(Clone, Copy, PartialEq, Eq)]
pub enum ReadError {
    Bad(BadInput),
    Memory,
}

impl From<AllocError> for ReadError {
    ghost from_gives = { λ _ e. e ≡ Memory };

    fn from(_error: AllocError) -> ReadError {
        ReadError::Memory
    }
}

impl<T: Drop> From<AllocFailed<T>> for ReadError {
    ghost from_gives = { λ _ e. e ≡ Memory };

    fn from(_error: AllocFailed<T>) -> ReadError {
        ReadError::Memory
    }
}
