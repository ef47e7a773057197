//! Why an UPDATE changes nothing.

ghost use Rattle.std.specs.Prelude.{◌≡◌};
ghost use Rattle.tt_rewrite.specs.declared.error.UpdateError.TheVariants as failed;

use std::alloc::AllocError;

/// A new value leaves 64 bits; a NULL would stand in the column of this number, counted from 1, where none may; or no
/// memory is found.
#[derive(Clone, Copy, PartialEq, Eq)]
pub enum UpdateError {
    OutOfRange,
    NullInRow(u32),
    Memory,
}

impl From<AllocError> for UpdateError {
    ghost from_gives = { λ _ e. e ≡ failed.Memory };

    fn from(_error: AllocError) -> UpdateError {
        UpdateError::Memory
    }
}
