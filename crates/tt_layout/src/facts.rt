//! A copy of the metadata at a moment.
use crate::layouts::Layouts;
use tt_retain::Regimes;
use tt_value::{Sequence, Text};

/// A partition: its number, the table whose change or round added it, and its rows and bytes.
#[derive(Clone, Copy, Drop)]
pub struct PartFacts {
    pub number: u64,
    pub origin: u32,
    pub rows: u32,
    pub bytes: u64,
}

/// A table: its number from 1, its name, its clone group, the moments at which it was made and, if it is not live, dropped,
/// in milliseconds since 1970, how long it keeps its past, and its layouts.
#[derive(Drop)]
pub struct TableFacts {
    pub number: u32,
    pub name: Text,
    pub group: u32,
    pub made: u64,
    pub dropped: Option<u64>,
    pub regimes: Regimes,
    pub layouts: Layouts,
}

/// All tables, the stored partitions by number, and the numbers that open statements, rounds and transactions pin,
/// as of the moment `at`.
#[derive(Drop)]
pub struct Facts {
    pub at: u64,
    pub tables: Sequence<TableFacts>,
    pub parts: Sequence<PartFacts>,
    pub pins: Sequence<u64>,
}
