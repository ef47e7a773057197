//! 17, LockHeld: another session's mark stands in the way.

ghost use Rattle.std.specs.Prelude.{◌≡◌, ◌<◌, ◌^◌, length, [], if◌then◌else◌, true, false};
ghost use Rattle.tt_plain.specs.refusal.{head_of};
ghost use Rattle.tt_plain.specs.stored.Sessions as sessions;
ghost use Rattle.tt_plain.specs.refusal.LockHeld as spec;
ghost use Rattle.tt_plain.specs.asked.Request.{request_in};
ghost use Rattle.tt_model_asked.specs.AskedAs.{asked_in, IsAskedOf, IsInBounds};
ghost use Rattle.tt_model_asked.specs.MarkAs.{stands_in_way as marked, holders_among};

use crate::asked::{Asked, table_named};
use tt_history::Refusal;
use tt_plain::store::PlainSession;
use tt_sql::{Dml, Statement};
use tt_value::TableName;

fn has_mark(state: &PlainSession, table: u32) -> bool
    ensures { result ≡ sessions.has_mark table state.now }
{
    state.marks.items().iter().any(|mark| mark.table == table)
}

fn has_exclusive_mark(state: &PlainSession, table: u32) -> bool
    ensures { result ≡ sessions.has_exclusive_mark table state.now }
{
    let marks = state.marks.items();
    marks
        .iter()
        .any(|mark| mark.table == table && mark.exclusive)
}

fn stands_in_way(state: &PlainSession, table: u32, exclusive: bool) -> bool
    ensures { result ≡ marked exclusive table state.now }
{
    if exclusive {
        has_exclusive_mark(state, table)
    } else {
        has_mark(state, table)
    }
}

// The first of the sessions but the asking one that has such a mark.
fn first_holder(sessions: &[PlainSession], session: u32, table: u32, exclusive: bool) -> Option<u32>
    requires { length sessions.now < 2 ^ 32 }
    ensures { result ≡ head_of (holders_among exclusive table session 0 sessions.now) }
{
    for (place, state) in sessions.iter().enumerate() {
        let other = place as u32;
        if other != session && stands_in_way(state, table, exclusive) {
            return Some(other);
        }
    }
    None
}

fn holder(asked: &Asked<'_>, name: &TableName, exclusive: bool) -> Option<u32>
    requires { IsInBounds asked.now }
    ensures { result ≡ head_of (spec.others_on (marked exclusive) (asked_in asked.now) name.now) }
{
    let table = table_named(asked, name)?;
    let sessions = asked.store.sessions.items();
    first_holder(sessions, asked.session, table.number, exclusive)
}

fn holder_if(asked: &Asked<'_>, replaces: bool, name: &TableName) -> Option<u32>
    requires { IsInBounds asked.now }
    ensures { result ≡ head_of (if replaces then spec.holders (asked_in asked.now) name.now else
        []) }
{
    if replaces {
        holder(asked, name, false)
    } else {
        None
    }
}

fn holder_of_change(asked: &Asked<'_>, dml: &Dml) -> Option<u32>
    requires { IsInBounds asked.now }
    ensures { result ≡ head_of (spec.change_holders (asked_in asked.now) dml.now) }
{
    match dml {
        Dml::Insert(_) | Dml::Copy(_) => None,
        Dml::Update(update) => holder(asked, &update.table, true),
        Dml::Delete(delete) => holder(asked, &delete.table, true),
    }
}

fn holder_asked(asked: &Asked<'_>, statement: &Statement) -> Option<u32>
    requires { IsInBounds asked.now }
    ensures { result ≡ head_of (spec.holders_asked (asked_in asked.now) (request_in
        statement.now)) }
{
    match statement {
        Statement::Dml(dml) => holder_of_change(asked, dml),
        Statement::Create(create) => holder_if(asked, create.replaces, &create.table),
        Statement::Clone(clone) => holder_if(asked, clone.replaces, &clone.table),
        Statement::Drop(name) | Statement::Truncate(name) => holder(asked, name, false),
        _ => None,
    }
}

/// Why a statement is refused for a mark of another session.
pub fn lock_held(asked: &Asked<'_>, statement: &Statement) -> Option<Refusal>
    requires read { IsAskedOf asked.now statement.now }
    requires bounds { IsInBounds asked.now }
    ensures { result ≡ spec.lock_held (asked_in asked.now) }
{
    let session = holder_asked(asked, statement)?;
    Some(Refusal::LockHeld(session))
}
