//! The start of a text that is no statement.

ghost use Rattle.std.specs.Prelude.{◌≡◌, Err};
ghost use Rattle.tt_history.specs.declared.reply.Refusal.TheVariants as refusal;
ghost use Rattle.tt_state.specs.Chronicle.{IsNextRead};
ghost use Rattle.tt_catalog.specs.Ends.{MadeRefusal};

use tt_history::{EntryKind, Refusal, Told};
use tt_state::Catalog;
use tt_state::entries::session_entry;

/// Makes the Start entry of a text that is no statement, or that uses a part which is not carried out yet, for which
/// place 0 is passed: it is refused at its place. It takes no memory.
pub fn refuse_text(cat: &mut Catalog, session: u32, index: u32, place: u32) -> Refusal
    requires { IsNextRead cat.old session index (Err place) }
    ensures entry { MadeRefusal cat.old cat.new session index result }
    ensures refused { result ≡ refusal.Syntax place }
{
    let moment = cat.state.moment;
    cat.state.end_statement(&cat.program, session, index);
    let refusal = Refusal::Syntax(place);
    let told = Told::Refused(refusal.number());
    let entry = session_entry(moment, session, index, EntryKind::Start(told));
    cat.history.push(entry);
    refusal
}
