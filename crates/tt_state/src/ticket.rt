//! Tickets of open statements, and what comes of them.

use crate::part::SharedPart;
use tt_history::Refusal;
use tt_partition::Partition;
use tt_value::{Schema, Sequence};

/// A table as a statement sees it: its number, its schema, and its parts by their numbers, which ascend.
#[derive(Drop)]
pub struct Seen {
    pub table: u32,
    pub schema: Schema,
    pub parts: Sequence<(u64, SharedPart)>,
}

/// An open statement of a session, counted from 1: the tables that it reads, and the one that it changes, of which an
/// INSERT sees no part. A ticket is spent by the call that ends its statement.
pub struct Ticket {
    /// The session's place in the script, from 0.
    pub session: u32,
    pub index: u32,
    pub sources: Sequence<Seen>,
    pub target: Option<Seen>,
}

/// What a change does to its table: the numbers of the parts that go, the parts that come, and how many rows it counts.
#[derive(Drop)]
pub struct Built {
    pub gone: Sequence<u64>,
    pub added: Sequence<Partition>,
    pub count: u64,
}

/// How a statement began.
pub enum Started {
    Ticket(Ticket),
    Refused(Refusal),
    Memory,
}
