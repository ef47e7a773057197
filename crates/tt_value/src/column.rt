//! What is wrong with the bytes of a column, and where.

/// What the place of a fault counts.
#[derive(Clone, Copy, PartialEq, Eq)]
pub enum FaultAt {
    /// The bytes of the bitmap and then those of the body; behind the last one, where bytes are missing.
    Byte,
    /// Nothing: it is the byte of the encoding, met before the body is looked at. The kind has no such form,
    /// or it is a frame of no values.
    Encoding,
    /// Nothing: it is the byte of the encoding of a column that was read whole. Another form is shorter, or
    /// as short and of a lesser code.
    Longer,
}

/// Where the bytes of a column have their first fault. The place is 0 for a fault of the encoding.
#[derive(Clone, Copy, PartialEq, Eq)]
pub struct BadColumn {
    pub place: u64,
    pub at: FaultAt,
}
