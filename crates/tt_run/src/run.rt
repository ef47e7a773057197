//! A program's run: its sessions one after the other, and the transcript of what they did.

ghost use Rattle.std.specs.Prelude.{◌≡◌, ◌≤◌, ◌<◌, ◌+◌, ◌^◌, length, IfOk, OnOk, [], Some, slice_get};
ghost use Rattle.tt_state.specs.Chronicle.{store_of};
ghost use Rattle.tt_run.specs.Outcomes.{IsFinished, IsInOrder, IsTranscript};
ghost use Rattle.tt_run.specs.Sessions.{AreInOrder, IsIdle};
ghost use Rattle.tt_run.specs.Turns.{AreAllDone, HasReplies, InTurn, IsAnswered, KeepsOthers};

use crate::parsing::read_statement;
use crate::session::run_statement;
use crate::settle::settle;
use std::alloc::{AllocError, Global};
use tt_history::Reply;
use tt_journal::transcript;
use tt_script::{Program, SessionText};
use tt_state::Catalog;

// Reads the text of a session's next statement, whose place is counted from 0, and makes its events.
fn run_next(
    cat: &mut Catalog,
    alloc: Global,
    program: &Program,
    session: u32,
    place: u32,
    lines: &SessionText,
) -> Result<Reply, AllocError>
    requires same { cat.old.program ≡ program.now }
    requires short { length program.now.text < 2 ^ 32 }
    requires lines { slice_get program.now.sessions session ≡ Some lines.now }
    requires within { place < length lines.now.statements }
    requires few { place + 1 < 2 ^ 32 }
    requires idle { IsIdle (store_of cat.old) session place }
    ensures { IfOk result (λ reply. IsAnswered cat.old cat.new session (place + 1) reply) }
{
    let Some(text) = program.statement(session as usize, place as usize) else {
        unreachable!()
    };
    let read = read_statement(alloc, text)?;
    Ok(run_statement(cat, alloc, session, place + 1, &read))
}

// A session's statements, each from its first entry to its last.
fn run_session(
    cat: &mut Catalog,
    alloc: Global,
    program: &Program,
    session: u32,
    lines: &SessionText,
    replies: &mut Vec<Reply>,
) -> Result<(), AllocError>
    requires same { cat.old.program ≡ program.now }
    requires short { length program.now.text < 2 ^ 32 }
    requires lines { slice_get program.now.sessions session ≡ Some lines.now }
    requires few { length lines.now.statements ≤ 100000 }
    requires idle { IsIdle (store_of cat.old) session 0 }
    requires turn { InTurn cat.old session }
    requires replies { HasReplies cat.old replies.old.items }
    ensures program { OnOk result (cat.new.program ≡ program.now) }
    ensures cap { OnOk result (cat.new.cap ≡ cat.old.cap) }
    ensures replies { OnOk result (HasReplies cat.new replies.new.items) }
    ensures turn { OnOk result (InTurn cat.new session) }
    ensures others { OnOk result (KeepsOthers (store_of cat.old) (store_of cat.new) session) }
    ensures done { OnOk result (IsIdle (store_of cat.new) session (length lines.now.statements)) }
{
    for place in 0..lines.statements.len() {
        let reply = run_next(cat, alloc, program, session, place as u32, lines)?;
        replies.push(reply)?;
    }
    Ok(())
}

// All sessions, each to its end before the next.
fn run_sessions(
    cat: &mut Catalog,
    alloc: Global,
    program: &Program,
) -> Result<Vec<Reply>, AllocError>
    requires same { cat.old.program ≡ program.now }
    requires short { length program.now.text < 2 ^ 32 }
    requires history { cat.old.history ≡ [] }
    ensures program { IfOk result (λ _. cat.new.program ≡ program.now) }
    ensures cap { IfOk result (λ _. cat.new.cap ≡ cat.old.cap) }
    ensures replies { IfOk result (λ replies. HasReplies cat.new replies.items) }
    ensures done { IfOk result (λ _. AreAllDone program.now (store_of cat.new)) }
    ensures order { IfOk result (λ _. AreInOrder program.now (length program.now.sessions) cat.new.history) }
{
    let mut replies = Vec::new(alloc);
    let sessions = program.script().sessions.items();
    for session in 0..sessions.len() {
        let lines = &sessions[session];
        run_session(cat, alloc, program, session as u32, lines, &mut replies)?;
    }
    Ok(replies)
}

/// A run that came to its end: the catalog, and the transcript of its history.
pub struct Finished {
    pub store: Catalog,
    pub text: Vec<u8>,
}

/// Runs a program's sessions one after the other, each to its end, settles, and writes the transcript down.
/// Partitions have at most so many rows.
pub fn run_program(
    alloc: Global,
    program: &Program,
    partition_rows: u32,
) -> Result<Finished, AllocError>
    requires short { length program.now.text < 2 ^ 32 }
    requires rows { (1 ≤ partition_rows) × (partition_rows ≤ 65536) }
    requires turns { program.now.turns ≡ [] }
    ensures finished { IfOk result (λ finished. IsFinished program.now finished.store) }
    ensures order { IfOk result (λ finished. IsInOrder finished.store) }
    ensures cap { IfOk result (λ finished. finished.store.cap ≡ partition_rows) }
    ensures text { IfOk result (λ finished. IsTranscript finished.store finished.text.items) }
{
    let mut store = Catalog::new(alloc, program, partition_rows)?;
    let replies = run_sessions(&mut store, alloc, program)?;
    settle(&mut store);
    let text = transcript(
        alloc,
        program.script(),
        store.history().entries(),
        replies.as_slice(),
    )?;
    Ok(Finished { store, text })
}
