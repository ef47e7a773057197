//! The ranges of keys by which a table is clustered.

use tt_value::{Sequence, Value};

/// The least and the greatest key of a partition's rows, NULL included.
#[derive(Drop)]
pub struct KeyRange {
    pub part: u64,
    pub least: Value,
    pub greatest: Value,
}

/// The partitions that a round takes, in ascending order.
#[derive(Drop)]
pub struct Pick {
    pub parts: Sequence<u64>,
}
