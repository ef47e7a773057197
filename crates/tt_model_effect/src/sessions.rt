//! How the session of an entry changes.

ghost use Rattle.std.specs.Prelude.{◌≡◌};
ghost use Rattle.tt_plain.specs.effect.Apply.{changed_session};

use tt_plain::store::PlainSession;

/// The sessions with one of them changed, if one is.
pub fn change_session(sessions: &mut Vec<PlainSession>, change: Option<(u32, PlainSession)>)
    ensures { sessions.new.items ≡ changed_session sessions.old.items change }
{
    if let Some((session, state)) = change {
        let place = session as usize;
        if place < sessions.len() {
            sessions[place] = state;
        }
    }
}
