//! That a table holds a partition.
use tt_layout::Hold;

/// A partition by its number, and how one of a table's layouts holds it.
#[derive(Clone, Copy, Drop)]
pub struct Claim {
    pub part: u64,
    pub hold: Hold,
}
