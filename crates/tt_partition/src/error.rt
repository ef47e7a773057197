//! Why bytes are no image, or why there is none.

ghost use Rattle.std.specs.Prelude.{◌≡◌};
ghost use Rattle.tt_partition.specs.declared.error.ImageError.TheVariants as image_errors;

use std::alloc::{AllocError, AllocFailed};

/// Where bytes have their first fault as an image: the number of bytes in front of it.
#[derive(Clone, Copy, PartialEq, Eq)]
pub struct BadImage {
    pub place: u64,
}

/// Why there is no partition: memory ran out, or the bytes are no image.
#[derive(Drop)]
pub enum ImageError {
    Memory,
    BadImage(BadImage),
}

impl From<AllocError> for ImageError {
    ghost from_gives = { λ _ e. e ≡ image_errors.Memory };

    fn from(_error: AllocError) -> ImageError {
        ImageError::Memory
    }
}

impl<T: Drop> From<AllocFailed<T>> for ImageError {
    ghost from_gives = { λ _ e. e ≡ image_errors.Memory };

    fn from(_error: AllocFailed<T>) -> ImageError {
        ImageError::Memory
    }
}
