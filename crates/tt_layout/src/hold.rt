//! Why a partition is kept.

/// How a table holds a partition: in its current layout while it is live, in Time Travel, in Fail-safe, or not at all.
#[derive(Clone, Copy, Drop, PartialEq, Eq)]
pub enum Hold {
    Active,
    TimeTravel,
    FailSafe,
    Nothing,
}

/// As what the bytes of a partition count for its owner. Pending is what no table holds.
#[derive(Clone, Copy, Drop, PartialEq, Eq)]
pub enum Class {
    Active,
    TimeTravel,
    FailSafe,
    RetainedForClone,
    Pending,
}
