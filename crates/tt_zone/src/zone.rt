//! The zone of a column of a partition.

use tt_value::Value;

/// What is known of a column's values in a partition: the least and the greatest that is not NULL, both NULL
/// where there is none, and how many NULLs and rows there are.
#[derive(Clone, Drop, PartialEq, Eq)]
pub struct Zone {
    pub least: Value,
    pub greatest: Value,
    pub nulls: u32,
    pub rows: u32,
}
