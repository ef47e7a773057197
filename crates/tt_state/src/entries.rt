//! The entries of sessions.

ghost use Rattle.std.specs.Prelude.{◌≡◌, ◌+◌, ◌<◌, ◌^◌};
ghost use Rattle.tt_state.specs.Chronicle.{entry_at};

use tt_history::{Actor, Entry, EntryKind};

/// An entry of a session's statement, at the moment behind the last one.
pub fn session_entry(last: u64, session: u32, index: u32, kind: EntryKind) -> Entry
    requires { last + 1 < 2 ^ 64 }
    ensures { result ≡ entry_at last session index kind }
{
    Entry {
        moment: last + 1,
        actor: Actor::Session(session),
        index: u64::from(index),
        kind,
    }
}
