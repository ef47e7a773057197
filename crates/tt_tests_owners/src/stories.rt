//! Facts that were made by hand. Moments are milliseconds; a day is 86,400,000 and Fail-safe is 604,800,000.
ghost use Rattle.std.specs.Prelude.{◌≡◌, ◌<◌, ◌^◌, [], ◌∷◌, IfOk};

use std::alloc::Global;
use std::test::Fail;
use tt_layout::{Facts, Layouts, PartFacts, TableFacts};
use tt_retain::Regimes;
use tt_value::{Sequence, Text};

/// A partition of 29 bytes that table 1 added.
pub const SHARED: PartFacts = PartFacts {
    number: 1,
    origin: 1,
    rows: 1,
    bytes: 29,
};

/// A partition of 40 bytes that table 2 added.
pub const OWN: PartFacts = PartFacts {
    number: 2,
    origin: 2,
    rows: 2,
    bytes: 40,
};

/// A partition that no layout has, of a table that there is not.
pub const STRAY: PartFacts = PartFacts {
    number: 7,
    origin: 9,
    rows: 1,
    bytes: 11,
};

fn table(
    alloc: Global,
    number: u32,
    dropped: Option<u64>,
    regimes: Regimes,
    layouts: Layouts,
) -> Result<TableFacts, Fail> {
    let name = Text::from_str(alloc, "T").ok().ok_or("no text")?;
    Ok(TableFacts {
        number,
        name,
        group: 1,
        made: 1,
        dropped,
        regimes,
        layouts,
    })
}

fn one(alloc: Global, number: u64) -> Result<Vec<u64>, Fail>
    ensures { IfOk result (λ list. list.items ≡ number ∷ []) }
{
    let mut list = Vec::new(alloc);
    list.push(number)?;
    Ok(list)
}

/// Table 1, made at 1, which has partition 1 from 3 on and loses it at 6.
pub fn source(alloc: Global, transient: bool, dropped: Option<u64>) -> Result<TableFacts, Fail> {
    let mut layouts = Layouts::new(alloc, 1, Vec::new(alloc))?;
    layouts.push(3, &[], &[1])?;
    layouts.push(6, &[1], &[])?;
    let regimes = Regimes::new(alloc, 1, 1, transient)?;
    table(alloc, 1, dropped, regimes, layouts)
}

/// Table 2, its clone, made at 4 with partition 1, which adds partition 2 at 5.
pub fn clone(alloc: Global) -> Result<TableFacts, Fail> {
    let mut layouts = Layouts::new(alloc, 4, one(alloc, 1)?)?;
    layouts.push(5, &[], &[2])?;
    let regimes = Regimes::new(alloc, 4, 1, false)?;
    table(alloc, 2, None, regimes, layouts)
}

/// Table 3, in which each of 69 changes puts the next partition in place of the last one, from partition 1 on;
/// the change to partition k is at moment k. It is live.
pub fn replaced(alloc: Global) -> Result<TableFacts, Fail> {
    let layouts = one_at_a_time(alloc, 70)?;
    let regimes = Regimes::new(alloc, 1, 1, false)?;
    table(alloc, 3, None, regimes, layouts)
}

fn one_at_a_time(alloc: Global, count: u64) -> Result<Layouts, Fail>
    requires { count < 2 ^ 32 }
{
    let mut layouts = Layouts::new(alloc, 1, one(alloc, 1)?)?;
    for number in 1..count {
        layouts.push(number + 1, &[number], &[number + 1])?;
    }
    Ok(layouts)
}

/// These partitions, with no table and no pin.
pub fn facts_of(alloc: Global, parts: &[PartFacts]) -> Result<Facts, Fail> {
    let mut stored = Sequence::new(alloc);
    for part in parts {
        stored.push(*part)?;
    }
    Ok(Facts {
        at: 0,
        tables: Sequence::new(alloc),
        parts: stored,
        pins: Sequence::new(alloc),
    })
}
