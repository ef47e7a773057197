//! How the lists of open transactions change.

ghost use Rattle.std.specs.Prelude.{◌≡◌, ◌∷◌, ◌++◌, [], filter, IfOk, not, ◌==◌};
ghost use Rattle.tt_plain.specs.declared.tally.TallyPending.{TallyPending as Lists};
ghost use Rattle.tt_plain.specs.tally.Changes as spec;

use std::alloc::{AllocError, Global};
use tt_plain::tally::TallyPending;

fn stands_before(a: &TallyPending, b: &TallyPending) -> bool
    ensures { result ≡ spec.stands_before a.now b.now }
{
    a.session < b.session || a.session == b.session && a.table < b.table
}

// Those that stand before some lists, and those behind them.
#[derive(Drop)]
struct Around {
    before: Vec<TallyPending>,
    behind: Vec<TallyPending>,
}

fn part_around(
    alloc: Global,
    all: Vec<TallyPending>,
    lists: &TallyPending,
) -> Result<Around, AllocError>
    ensures before { IfOk result (λ parted. parted.before.items
        ≡ filter (λ other. spec.stands_before other lists.now) all.items) }
    ensures behind { IfOk result (λ parted. parted.behind.items
        ≡ filter (λ other. spec.stands_before lists.now other) all.items) }
{
    let mut parted = Around {
        before: Vec::new(alloc),
        behind: Vec::new(alloc),
    };
    for other in all {
        if stands_before(&other, lists) {
            parted.before.push(other)?;
        } else if stands_before(lists, &other) {
            parted.behind.push(other)?;
        }
    }
    Ok(parted)
}

/// All lists with those of a session and a table in their place.
pub fn keep(
    alloc: Global,
    all: Vec<TallyPending>,
    lists: TallyPending,
) -> Result<Vec<TallyPending>, AllocError>
    ensures { IfOk result (λ kept. kept.items ≡ spec.with_lists lists all.items) }
{
    let parted = part_around(alloc, all, &lists)?;
    let Around {
        mut before,
        mut behind,
    } = parted;
    before.push(lists)?;
    before.append(&mut behind)?;
    Ok(before)
}

/// All lists but those of a session.
pub fn end_pending(
    alloc: Global,
    all: Vec<TallyPending>,
    session: u32,
) -> Result<Vec<TallyPending>, AllocError>
    ensures { IfOk result (λ kept. kept.items
        ≡ filter (λ (lists : Lists). not (lists.session == session)) all.items) }
{
    let mut kept = Vec::new(alloc);
    for lists in all {
        if lists.session != session {
            kept.push(lists)?;
        }
    }
    Ok(kept)
}
