//! Columns as bytes, and why there is none.

ghost use Rattle.std.specs.Prelude.{◌≡◌};
ghost use Rattle.tt_intcol.specs.declared.column.DecodeError.TheVariants as decode_errors;
ghost use Rattle.tt_intcol.specs.declared.column.EncodeError.TheVariants as encode_errors;

use crate::parts::PartError;
use std::alloc::{AllocError, AllocFailed};
use tt_value::{BadColumn, FaultAt, Sequence};

/// A column of integers or dates, encoded.
#[derive(Clone, Drop)]
pub struct IntColumn {
    /// 0 plain, 1 frame, 2 run, 3 dictionary.
    pub encoding: u8,
    /// Whether there is a NULL.
    pub nulls: bool,
    /// A bit for each row, least significant first, set for NULL; empty where there is none.
    pub bitmap: Sequence<u8>,
    /// The values that are not NULL.
    pub body: Sequence<u8>,
}

/// Why there is no column. Only want of memory can be the cause.
#[derive(Drop)]
pub enum EncodeError {
    Memory,
}

impl From<AllocError> for EncodeError {
    ghost from_gives = { λ _ e. e ≡ encode_errors.Memory };

    fn from(_error: AllocError) -> EncodeError {
        EncodeError::Memory
    }
}

impl<T: Drop> From<AllocFailed<T>> for EncodeError {
    ghost from_gives = { λ _ e. e ≡ encode_errors.Memory };

    fn from(_error: AllocFailed<T>) -> EncodeError {
        EncodeError::Memory
    }
}

/// Why there are no rows: memory ran out, or the bytes are no column of so many rows of the kind.
#[derive(Drop)]
pub enum DecodeError {
    Memory,
    BadColumn(BadColumn),
}

impl From<AllocError> for DecodeError {
    ghost from_gives = { λ _ e. e ≡ decode_errors.Memory };

    fn from(_error: AllocError) -> DecodeError {
        DecodeError::Memory
    }
}

/// The fault of a part is that of its column.
impl From<PartError> for DecodeError {
    ghost use Rattle.tt_intcol.specs.IntReading.{decode_error};

    ghost from_gives = { λ part e. e ≡ decode_error part };

    fn from(error: PartError) -> DecodeError {
        match error {
            PartError::Memory => DecodeError::Memory,
            PartError::At(place) => DecodeError::BadColumn(BadColumn {
                place,
                at: FaultAt::Byte,
            }),
        }
    }
}
