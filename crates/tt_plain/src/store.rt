//! The plain store, which keeps a full copy of the rows of each version. Moments are milliseconds since 1970-01-01 00:00:00 UTC.

use crate::tally::Tally;
use tt_history::SharedBag;
use tt_retain::Regimes;
use tt_value::{Schema, Sequence, Text};

/// The rows of a table from a moment on.
#[derive(Drop)]
pub struct Version {
    pub begun: u64,
    pub rows: SharedBag,
}

/// A table with each of its versions, the oldest first. Tables are numbered from 1 in the order of their making, and a
/// dropped one stays among them.
#[derive(Drop)]
pub struct PlainTable {
    pub number: u32,
    /// Where the table is dropped, the name that it had.
    pub name: Text,
    /// Without Fail-safe, and with at most 1 day of Time Travel.
    pub transient: bool,
    pub schema: Schema,
    /// The place, from 0, of the column by which the table is clustered.
    pub key: Option<u32>,
    pub suspended: bool,
    /// The number of the table from which it was cloned, over all steps, or its own.
    pub group: u32,
    pub made: u64,
    pub dropped: Option<u64>,
    pub regimes: Regimes,
    pub versions: Sequence<Version>,
}

/// What a session's open transaction has changed in a table: the rows that are gone and those that were added.
#[derive(Drop)]
pub struct PlainPending {
    pub table: u32,
    pub gone: SharedBag,
    pub added: SharedBag,
}

/// A session's mark on a table, by the table's number.
#[derive(Clone, Copy, Drop)]
pub struct PlainMark {
    pub table: u32,
    pub exclusive: bool,
}

/// A statement that has begun: the tables that it reads and the one that it changes, each by its number with the rows
/// that the statement sees of it, and the session's marks before it began.
#[derive(Drop)]
pub struct PlainOpen {
    /// From 1, among the statements of its session.
    pub index: u32,
    pub sources: Sequence<(u32, SharedBag)>,
    pub target: Option<(u32, SharedBag)>,
    pub marks_before: Sequence<PlainMark>,
}

/// A session: how many of its statements have ended, whether a transaction is open, the statement that is open, and what
/// is pending and marked, each at most once for a table and in ascending order of the tables.
#[derive(Drop)]
pub struct PlainSession {
    pub done: u32,
    pub transaction: bool,
    pub running: Option<PlainOpen>,
    pub pending: Sequence<PlainPending>,
    pub marks: Sequence<PlainMark>,
}

/// The whole store. The points are those of all statements, session after session: none where the statement has no entry
/// yet, and the greatest u64 where it has an entry and no point yet.
#[derive(Drop)]
pub struct Plain {
    /// That of the last entry, or the start of the script where there is none.
    pub moment: u64,
    pub tables: Sequence<PlainTable>,
    pub sessions: Sequence<PlainSession>,
    pub points: Sequence<Option<u64>>,
    pub tally: Tally,
}
