//! What an entry does to the store, as a value.

use tt_history::{Added, Reply, SharedBag};
use tt_plain::store::{PlainSession, PlainTable};
use tt_plain::tally::{TallyPending, TallyPin, TallyRound};
use tt_value::{Sequence, Text};

/// How tables change, which are given by their numbers unless they are made. Several names may change at once.
#[derive(Drop)]
pub enum TableChange {
    Made(PlainTable),
    Dropped {
        table: u32,
        moment: u64,
    },
    Undropped {
        table: u32,
    },
    Renamed {
        names: Sequence<(u32, Text)>,
    },
    NewVersion {
        table: u32,
        moment: u64,
        rows: SharedBag,
    },
    NewRegime {
        table: u32,
        moment: u64,
        days: u8,
    },
    NewKey {
        table: u32,
        key: Option<u32>,
    },
    Suspended {
        table: u32,
        suspended: bool,
    },
}

/// How the tally changes. Tables and sessions are given by their numbers.
#[derive(Drop)]
pub enum TallyChange {
    AddsParts {
        origin: u32,
        parts: Sequence<Added>,
    },
    MakesTable {
        moment: u64,
        parts: Sequence<u64>,
    },
    BeginsLayout {
        table: u32,
        moment: u64,
        parts: Sequence<u64>,
    },
    Keeps(TallyPending),
    EndsPending(u32),
    Pins {
        session: u32,
        pins: Sequence<TallyPin>,
    },
    Unpins(u32),
    StartsRound(TallyRound),
    EndsRound,
    TakesAway(Sequence<u64>),
}

/// The session that makes the entry and what it is afterwards, none where a worker makes it; the changes of tables; the
/// places of points with what stands there; the changes of the tally; the moment of the entry; and its reply, if it has one.
#[derive(Drop)]
pub struct Effect {
    pub session: Option<(u32, PlainSession)>,
    pub tables: Sequence<TableChange>,
    pub points: Sequence<(u64, u64)>,
    pub tally: Sequence<TallyChange>,
    pub moment: u64,
    pub reply: Option<Reply>,
}
