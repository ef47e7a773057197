//! What a sweep finds.

/// The stored partitions that nothing names, by number, and the moment as of which this is so,
/// in milliseconds since 1970.
#[derive(Drop)]
pub struct Doomed {
    pub at: u64,
    pub parts: Vec<u64>,
}
