//! How the tally changes.

ghost use Rattle.std.specs.Prelude.{◌≡◌, fold, map, IfOk};
ghost use Rattle.tt_plain.specs.tally.Changes.{changed_tally, BeginsLayout, Keeps, EndsPending, Pins, TakesAway};
ghost use Rattle.tt_model_effect.specs.Allowed.{HasRoom, HasRoomForAll};
ghost use Rattle.tt_model_effect.specs.EffectAs.{tally_change_in};

use crate::effect::TallyChange;
use crate::layouts::{begin_layout, make_table};
use crate::lists::{end_pending, keep};
use crate::parts::{add_parts, take_away};
use crate::pins::pin;
use std::alloc::{AllocError, Global};
use std::mem::replace;
use tt_plain::tally::{Tally, TallyPending, TallyPin};
use tt_value::Sequence;

fn change_layout(
    alloc: Global,
    tally: &mut Tally,
    table: u32,
    moment: u64,
    parts: Sequence<u64>,
) -> Result<(), AllocError>
    ensures { IfOk result (λ _. tally.new
        ≡ changed_tally tally.old (BeginsLayout table moment parts)) }
{
    let mut layouts = replace(&mut tally.layouts, Sequence::new(alloc)).into_vec();
    begin_layout(&mut layouts, table, moment, parts)?;
    tally.layouts = Sequence::from_vec(layouts);
    Ok(())
}

fn change_lists(alloc: Global, tally: &mut Tally, lists: TallyPending) -> Result<(), AllocError>
    ensures { IfOk result (λ _. tally.new ≡ changed_tally tally.old (Keeps lists)) }
{
    let pending = replace(&mut tally.pending, Sequence::new(alloc)).into_vec();
    tally.pending = Sequence::from_vec(keep(alloc, pending, lists)?);
    Ok(())
}

fn end_lists(alloc: Global, tally: &mut Tally, session: u32) -> Result<(), AllocError>
    ensures { IfOk result (λ _. tally.new ≡ changed_tally tally.old (EndsPending session)) }
{
    let pending = replace(&mut tally.pending, Sequence::new(alloc)).into_vec();
    tally.pending = Sequence::from_vec(end_pending(alloc, pending, session)?);
    Ok(())
}

fn change_pins(
    alloc: Global,
    tally: &mut Tally,
    session: u32,
    pins: Sequence<TallyPin>,
) -> Result<(), AllocError>
    ensures { IfOk result (λ _. tally.new ≡ changed_tally tally.old (Pins session pins)) }
{
    let all = replace(&mut tally.pins, Sequence::new(alloc)).into_vec();
    tally.pins = Sequence::from_vec(pin(alloc, all, session, pins.into_vec())?);
    Ok(())
}

fn change_stored(alloc: Global, tally: &mut Tally, numbers: &[u64])
    requires { HasRoom tally.old }
    ensures { tally.new ≡ changed_tally tally.old (TakesAway numbers.now) }
{
    let mut parts = replace(&mut tally.parts, Sequence::new(alloc)).into_vec();
    take_away(&mut parts, numbers);
    tally.parts = Sequence::from_vec(parts);
    tally.purges += 1;
}

fn change(alloc: Global, tally: &mut Tally, change: TallyChange) -> Result<(), AllocError>
    requires { HasRoom tally.old }
    ensures { IfOk result (λ _. tally.new ≡ changed_tally tally.old (tally_change_in change)) }
{
    match change {
        TallyChange::AddsParts { origin, parts } => {
            add_parts(&mut tally.parts, origin, parts.items())?;
        }
        TallyChange::MakesTable { moment, parts } => {
            make_table(&mut tally.layouts, alloc, moment, parts)?;
        }
        TallyChange::BeginsLayout {
            table,
            moment,
            parts,
        } => change_layout(alloc, tally, table, moment, parts)?,
        TallyChange::Keeps(lists) => change_lists(alloc, tally, lists)?,
        TallyChange::EndsPending(session) => end_lists(alloc, tally, session)?,
        TallyChange::Pins { session, pins } => change_pins(alloc, tally, session, pins)?,
        TallyChange::Unpins(session) => {
            change_pins(alloc, tally, session, Sequence::new(alloc))?;
        }
        TallyChange::StartsRound(round) => {
            tally.round = Some(round);
            tally.rounds += 1;
        }
        TallyChange::EndsRound => tally.round = None,
        TallyChange::TakesAway(parts) => change_stored(alloc, tally, parts.items()),
    }
    Ok(())
}

/// The tally after some changes, one after the other.
pub fn change_tally(
    alloc: Global,
    tally: &mut Tally,
    changes: Vec<TallyChange>,
) -> Result<(), AllocError>
    requires { HasRoomForAll (map tally_change_in changes.items) tally.old }
    ensures { IfOk result (λ _. tally.new
        ≡ fold changed_tally tally.old (map tally_change_in changes.items)) }
{
    for one in changes {
        change(alloc, tally, one)?;
    }
    Ok(())
}
