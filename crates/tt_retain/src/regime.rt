//! One retention of a table, and since when.

/// From the moment `begun` on, in milliseconds since 1970, the past is kept for so many days.
#[derive(Clone, Copy, Drop)]
pub struct Regime {
    pub begun: u64,
    pub days: u8,
}
