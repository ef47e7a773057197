//! What the program says where it does not end well.

ghost use Rattle.std.specs.Prelude.{◌≡◌};
ghost use Rattle.tt_run.specs.Failures.{failure_of};

use crate::top::Status;
use thiserror::Error;

/// Why a call did not end with Ok. Its text is the line that the program writes to standard error.
#[derive(Debug, Drop, Error)]
pub enum Failure {
    #[error("bad words")]
    BadWords,
    #[error("bad input at {0}")]
    BadInput(u64),
    #[error("read fault")]
    ReadFault,
    #[error("write fault")]
    WriteFault,
    #[error("out of memory")]
    OutOfMemory,
    #[error("input too long")]
    TooLong,
}

/// The failure that a status tells: none at Ok.
pub fn failure_of(status: Status) -> Option<Failure>
    ensures { result ≡ failure_of status }
{
    match status {
        Status::Ok => None,
        Status::BadWords => Some(Failure::BadWords),
        Status::BadInput(place) => Some(Failure::BadInput(place)),
        Status::ReadFault => Some(Failure::ReadFault),
        Status::WriteFault => Some(Failure::WriteFault),
        Status::OutOfMemory => Some(Failure::OutOfMemory),
        Status::TooLong => Some(Failure::TooLong),
    }
}
