//! Entries of a history, by sessions and by the store's own work, and the history that they make.

ghost use Rattle.std.specs.Prelude.{◌≡◌, [], ◌∷◌, ◌++◌, ◌+◌, ◌<◌, ◌≤◌, IfOk};
ghost use Rattle.tt_history.specs.Projection.{is_session, places_of};

use std::alloc::{AllocError, Global};
use std::marker::Model;
use tt_value::Sequence;

/// Who makes an entry. A session is its place in the script, from 0.
#[derive(Clone, Copy, PartialEq, Eq)]
pub enum Actor {
    Session(u32),
    Recluster,
    Purge,
}

/// How the call that made an entry went. A refusal is given by its number.
#[derive(Clone, Copy, PartialEq, Eq)]
pub enum Told {
    Done,
    Refused(u8),
    Memory,
}

/// A partition that an entry adds, by its number: how many rows it has, and how many bytes its image has.
#[derive(Clone, Copy, PartialEq, Eq)]
pub struct Added {
    pub number: u64,
    pub rows: u32,
    pub bytes: u64,
}

/// Why a round of reclustering changed nothing: its table was dropped; it was suspended or its key changed;
/// a session has an exclusive mark on it; a partition has left it; or memory ran out.
#[derive(Clone, Copy, PartialEq, Eq)]
pub enum Miss {
    Dropped,
    Suspended,
    /// The session, from 0.
    Held(u32),
    /// The number of the partition.
    Gone(u64),
    Memory,
}

/// What an entry records. Partitions are given by their numbers, in ascending order.
#[derive(Drop)]
pub enum EntryKind {
    Begin(Told),
    Start(Told),
    End {
        gone: Sequence<u64>,
        added: Sequence<Added>,
    },
    Abandon(Told),
    Commit(Told),
    Rollback,
    Define(Told),
    Wait(Told),
    /// With the numbers that a report gives beside its rows.
    Report(Told, Sequence<u64>),
    /// The table is given by its number, here and below.
    RecluStart {
        table: u32,
        parts: Sequence<u64>,
    },
    RecluEnd {
        table: u32,
        gone: Sequence<u64>,
        added: Sequence<Added>,
    },
    RecluMiss {
        table: u32,
        why: Miss,
    },
    Purge {
        parts: Sequence<u64>,
    },
    /// The end of a session that had temporary tables.
    Close,
}

/// One event. The moment is in milliseconds since 1970-01-01 00:00:00 UTC, and the index is that of the
/// actor's statement, from 1.
#[derive(Drop)]
pub struct Entry {
    pub moment: u64,
    pub actor: Actor,
    pub index: u64,
    pub kind: EntryKind,
}

/// The entries in the order in which they were made.
#[derive(Drop)]
pub struct History {
    entries: Vec<Entry>,
}

impl Model for History {
    ghost use Rattle.std.specs.Prelude.{◌-◌, vec_capacity, vec_len};
    ghost use Rattle.tt_history.specs.Entries.{Entries};

    ghost Value = { Entries };

    ghost view = { λ h. record { list = h.entries.items; room = vec_capacity h.entries - vec_len h.entries } };
}

impl History {
    /// An empty history. It takes no memory.
    pub fn new(alloc: Global) -> History
        ensures { result.list ≡ [] }
    {
        History {
            entries: Vec::new(alloc),
        }
    }

    /// An empty history with room for so many entries.
    pub fn with_room(alloc: Global, room: usize) -> Result<History, AllocError>
        ensures empty { IfOk result (λ history. history.list ≡ []) }
        ensures room { IfOk result (λ history. room ≤ history.room) }
    {
        Ok(History {
            entries: Vec::with_capacity(alloc, room)?,
        })
    }

    /// Takes no memory.
    pub fn push(&mut self, entry: Entry)
        requires { 0 < self.old.room }
        ensures entries { self.new.list ≡ self.old.list ++ entry ∷ [] }
        ensures room { self.new.room + 1 ≡ self.old.room }
    {
        self.entries.push_reserved(entry);
    }

    /// The oldest first. What `project` gives are places in this slice.
    pub fn entries(&self) -> &[Entry]
        ensures { result.now ≡ self.now.list }
    {
        self.entries.as_slice()
    }

    /// The places, from 0, of the entries that a session made, in ascending order.
    pub fn project(&self, alloc: Global, session: u32) -> Result<Vec<u64>, AllocError>
        ensures { IfOk result (λ places. places.items ≡ places_of session self.now.list) }
    {
        places_of(alloc, self.entries.as_slice(), session)
    }
}

fn is_session(session: u32, actor: Actor) -> bool
    ensures { result ≡ is_session session actor }
{
    match actor {
        Actor::Session(other) => other == session,
        Actor::Recluster | Actor::Purge => false,
    }
}

fn places_of(alloc: Global, entries: &[Entry], session: u32) -> Result<Vec<u64>, AllocError>
    ensures { IfOk result (λ places. places.items ≡ places_of session entries.now) }
{
    let mut places = Vec::new(alloc);
    for (place, entry) in entries.iter().enumerate() {
        if is_session(session, entry.actor) {
            places.push(place as u64)?;
        }
    }
    Ok(places)
}
