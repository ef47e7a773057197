//! Whole scripts.

ghost use Rattle.std.specs.Prelude.{◌≡◌, ℕ, ◌+◌, ◌<◌, ◌≤◌, ◌^◌, true, List, drop, length, slice_get};
ghost use Rattle.tt_script.specs.Answers.{Answers};
ghost use Rattle.tt_script.specs.Body.{statements_in as statements_of};
ghost use Rattle.tt_script.specs.Lines.{is_session_name};
ghost use Rattle.tt_script.specs.Script.{answer_of, sessions_read, within_limit};

use crate::cut::{MOST_STATEMENTS, statements_in};
use crate::lines::{first_faulty, line_place, session_in, start_in};
use crate::script::{Program, Script, ScriptText, SessionText};
use crate::{BadInput, ReadError};
use std::alloc::Global;
use tt_value::{Sequence, Text};

/// A session by its name, whose body begins at this place and goes on to the text's end.
fn session_read(
    alloc: Global,
    text: &[u8],
    name: &[u8],
    start: usize,
) -> Result<SessionText, ReadError>
    requires named { is_session_name name.now ≡ true }
    requires within { start ≤ length text.now }
    requires short { length text.now < 2 ^ 32 }
    ensures { Answers (λ session. session) result
        (within_limit text.now (record { name = name.now; statements = statements_of start (drop start text.now) }) (slice_get (statements_of start (drop start text.now)) 100000)) }
{
    let (_, body) = text.split_at(start);
    let spans = statements_in(alloc, start, body)?;
    if let Some((begin, _)) = spans.get(MOST_STATEMENTS) {
        let place = line_place(text, *begin as usize) as u64;
        return Err(ReadError::Bad(BadInput { place }));
    }
    Ok(SessionText {
        name: Text::from_ascii(alloc, name)?,
        statements: Sequence::from_vec(spans),
    })
}

/// The sessions of a text.
fn sessions_read(alloc: Global, text: &[u8]) -> Result<Sequence<SessionText>, ReadError>
    requires { length text.now < 2 ^ 32 }
    ensures { Answers (λ sessions. sessions) result (sessions_read text.now) }
{
    let mut sessions = Sequence::new(alloc);
    if let Some((name, start)) = session_in(text) {
        sessions.push(session_read(alloc, text, name, start)?)?;
    }
    Ok(sessions)
}

/// Reads a script of fewer than 2^32 bytes. `Bad` comes where the bytes are none, with the place of the first faulty
/// line: the start, and one session at most, are built so far, and any other directive's line is faulty.
#[tactic(auto, unfolding(crate::specs::Script::answer_of))]
pub fn read(alloc: Global, bytes: Vec<u8>) -> Result<Program, ReadError>
    requires { length bytes.items < 2 ^ 32 }
    ensures { Answers (λ program. program) result (answer_of bytes.items) }
{
    let faulty = first_faulty(&bytes);
    let front = &bytes[..faulty.unwrap_or(bytes.len())];
    let sessions = sessions_read(alloc, front)?;
    if let Some(place) = faulty {
        let place = place as u64;
        return Err(ReadError::Bad(BadInput { place }));
    }
    let start = start_in(&bytes);
    let Ok(text) = String::from_utf8(bytes) else {
        unreachable!();
    };
    let script = Script {
        start,
        text: ScriptText::new(text),
        sessions,
        files: Sequence::new(alloc),
        turns: Sequence::new(alloc),
    };
    Ok(Program::new(alloc, script)?)
}
