//! How an open change ends: what was built for it makes up its table from then on.

ghost use Rattle.std.specs.Prelude.{◌≡◌, IfErr, IfOk};
ghost use Rattle.tt_plain.specs.effect.End as spec;
ghost use Rattle.tt_catalog.specs.Changes.{IsBuiltFor, MadeChange};

use crate::closing::give_up;
use crate::landing::land;
use tt_history::{EntryKind, Reply};
use tt_sql::Dml;
use tt_state::entries::session_entry;
use tt_state::{Built, Catalog, Ticket};

// The answer of a change tells how many rows were inserted, updated or deleted.
fn count_reply(change: &Dml, count: u64) -> Reply
    ensures { result ≡ spec.count_reply change.now count }
{
    match change {
        Dml::Insert(_) | Dml::Copy(_) => Reply::Inserted(count),
        Dml::Update(_) => Reply::Updated(count),
        Dml::Delete(_) => Reply::Deleted(count),
    }
}

/// Makes the End entry of an open change, for which this was built. The parts that come are kept under the next numbers,
/// and from then on its table has them, and no longer those that go. Its marks end, it reads no part any more, and it is
/// answered with its count. Where no memory is found the ticket comes back, and nothing is changed.
pub fn end_change(
    cat: &mut Catalog,
    ticket: Ticket,
    change: &Dml,
    built: Built,
) -> Result<Reply, Ticket>
    requires { IsBuiltFor cat.old ticket change.now built }
    ensures ok { IfOk result (λ answer. MadeChange cat.old cat.new ticket built answer) }
    ensures count { IfOk result (λ answer. answer ≡ spec.count_reply change.now built.count) }
    ensures ticket { IfErr result (λ again. again ≡ ticket) }
    ensures unchanged { IfErr result (λ _. cat.new ≡ cat.old) }
{
    let Some(target) = &ticket.target else {
        unreachable!()
    };
    let table = target.table;
    let Built { gone, added, count } = built;
    let Ok(facts) = land(&mut cat.state, table, gone.items(), added) else {
        return Err(ticket);
    };
    let Ticket {
        session,
        index,
        sources: _sources,
        target: _target,
    } = ticket;
    let moment = cat.state.moment;
    give_up(&mut cat.state, &cat.program, session, index);
    let end = EntryKind::End { gone, added: facts };
    let entry = session_entry(moment, session, index, end);
    cat.history.push(entry);
    Ok(count_reply(change, count))
}
