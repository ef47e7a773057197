//! The tally: the facts of the partitions that the entries of a history tell. Each list of part numbers ascends.

use tt_value::Sequence;

/// A partition that was ever added. Its number says its place among all of them, from 1.
#[derive(Clone, Copy, Drop)]
pub struct TallyPart {
    pub number: u64,
    /// The table whose change or round added it.
    pub origin: u32,
    pub rows: u32,
    pub bytes: u64,
    /// Not purged yet.
    pub stored: bool,
}

/// What a session's open transaction has changed in a table: the parts of the current layout that are gone, and those
/// that were added. The lists stand in the order of the sessions, and of the tables for each.
#[derive(Drop)]
pub struct TallyPending {
    pub session: u32,
    pub table: u32,
    pub gone: Sequence<u64>,
    pub added: Sequence<u64>,
}

/// The parts of a table that a session's open statement may still read. Pins stand in the order of the sessions.
#[derive(Drop)]
pub struct TallyPin {
    pub session: u32,
    pub table: u32,
    pub parts: Sequence<u64>,
}

/// The open round of reclustering: its table, the place of the key that the table had, and the parts that it takes.
#[derive(Drop)]
pub struct TallyRound {
    pub table: u32,
    pub key: u32,
    pub parts: Sequence<u64>,
}

/// The layouts are those of each table in the order of their numbers: the moment at which a layout begins, and its parts.
#[derive(Drop)]
pub struct Tally {
    pub parts: Sequence<TallyPart>,
    pub layouts: Sequence<Sequence<(u64, Sequence<u64>)>>,
    pub pending: Sequence<TallyPending>,
    pub pins: Sequence<TallyPin>,
    pub round: Option<TallyRound>,
    /// How many rounds were started, and how many entries purged.
    pub rounds: u64,
    pub purges: u64,
}
