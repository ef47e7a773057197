//! How an open statement ends without a change: its answer was given, or it is given up.

ghost use Rattle.std.specs.Prelude.{◌≡◌, []};
ghost use Rattle.tt_history.specs.declared.history.EntryKind.TheVariants as kind;
ghost use Rattle.tt_catalog.specs.Ends.{CanGiveUp, IsAnswerable, MadeAbandon, MadeEnd};

use crate::closing::{close_query, give_up};
use std::alloc::Global;
use tt_history::{EntryKind, Told};
use tt_state::entries::session_entry;
use tt_state::{Catalog, Ticket};
use tt_value::Sequence;

// The end of a statement that takes away and adds no part. It takes no memory.
fn end_without_parts(alloc: Global) -> EntryKind
    ensures { result ≡ kind.End [] [] }
{
    EntryKind::End {
        gone: Sequence::new(alloc),
        added: Sequence::new(alloc),
    }
}

/// Makes the Abandon entry of an open statement, which then has no effect: its marks end, and it reads no part any
/// more. The cause is want of memory, or the number of the refusal that the statement means over what it sees. It
/// takes no memory.
pub fn abandon(cat: &mut Catalog, ticket: Ticket, why: Told)
    requires { CanGiveUp cat.old ticket why }
    ensures { MadeAbandon cat.old cat.new ticket why }
{
    let Ticket {
        session,
        index,
        sources: _sources,
        target: _target,
    } = ticket;
    let moment = cat.state.moment;
    give_up(&mut cat.state, &cat.program, session, index);
    let entry = session_entry(moment, session, index, EntryKind::Abandon(why));
    cat.history.push(entry);
}

/// Makes the End entry of an open query, whose answer over the rows that it sees is not out of range. It takes no
/// memory.
pub fn end_read(cat: &mut Catalog, ticket: Ticket)
    requires { IsAnswerable cat.old ticket }
    ensures { MadeEnd cat.old cat.new ticket }
{
    let Ticket {
        session,
        index,
        sources: _sources,
        target: _target,
    } = ticket;
    let moment = cat.state.moment;
    close_query(&mut cat.state, &cat.program, session, index);
    let end = end_without_parts(*cat.state.tables.allocator());
    let entry = session_entry(moment, session, index, end);
    cat.history.push(entry);
}
