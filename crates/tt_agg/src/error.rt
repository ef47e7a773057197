//! Why a query has no answer.

ghost use Rattle.std.specs.Prelude.{◌≡◌};
ghost use Rattle.tt_agg.specs.declared.error.AggregateError.TheVariants as failed;

use std::alloc::AllocError;

/// A value or a sum leaves 64 bits; or no memory is found.
#[derive(Clone, Copy, PartialEq, Eq)]
pub enum AggregateError {
    OutOfRange,
    Memory,
}

impl From<AllocError> for AggregateError {
    ghost from_gives = { λ _ e. e ≡ failed.Memory };

    fn from(_error: AllocError) -> AggregateError {
        AggregateError::Memory
    }
}
