//! The store after an effect.

ghost use Rattle.std.specs.Prelude.{◌≡◌, IfOk, fold, map};
ghost use Rattle.tt_plain.specs.effect.Apply.{applied as store_after, changed_table, changed_session, changed_point};
ghost use Rattle.tt_model_effect.specs.Allowed.{IsApplicable, TakeAll};
ghost use Rattle.tt_model_effect.specs.EffectAs.{effect_in, table_change_in};

use crate::effect::{Effect, TableChange};
use crate::points::change_points;
use crate::sessions::change_session;
use crate::tables::change_tables;
use crate::tallies::change_tally;
use std::alloc::{AllocError, Global};
use std::mem::replace;
use tt_plain::store::{Plain, PlainSession};
use tt_value::Sequence;

fn to_tables(
    alloc: Global,
    store: &mut Plain,
    changes: Sequence<TableChange>,
) -> Result<(), AllocError>
    requires { TakeAll (map table_change_in changes) store.old.tables }
    ensures { IfOk result (λ _. store.new
        ≡ record store.old {
          tables = fold changed_table store.old.tables (map table_change_in
              changes);
        }) }
{
    let mut tables = replace(&mut store.tables, Sequence::new(alloc)).into_vec();
    change_tables(&mut tables, changes.into_vec())?;
    store.tables = Sequence::from_vec(tables);
    Ok(())
}

fn to_session(alloc: Global, store: &mut Plain, change: Option<(u32, PlainSession)>)
    ensures { store.new ≡ record store.old {
      sessions = changed_session store.old.sessions change;
    } }
{
    let mut sessions = replace(&mut store.sessions, Sequence::new(alloc)).into_vec();
    change_session(&mut sessions, change);
    store.sessions = Sequence::from_vec(sessions);
}

fn to_points(alloc: Global, store: &mut Plain, changes: &[(u64, u64)])
    ensures { store.new ≡ record store.old {
      points = fold changed_point store.old.points
          changes.now;
    } }
{
    let mut points = replace(&mut store.points, Sequence::new(alloc)).into_vec();
    change_points(&mut points, changes);
    store.points = Sequence::from_vec(points);
}

/// The store after an effect. Where no memory is found the store is gone.
#[tactic(auto, unfolding(tt_plain::specs::effect::Apply::applied))]
pub fn applied(alloc: Global, mut store: Plain, effect: Effect) -> Result<Plain, AllocError>
    requires { IsApplicable store (effect_in effect) }
    ensures { IfOk result (λ after. after ≡ store_after store (effect_in effect)) }
{
    to_points(alloc, &mut store, effect.points.items());
    to_session(alloc, &mut store, effect.session);
    store.moment = effect.moment;
    to_tables(alloc, &mut store, effect.tables)?;
    change_tally(alloc, &mut store.tally, effect.tally.into_vec())?;
    Ok(store)
}
