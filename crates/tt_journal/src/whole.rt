//! The transcript of a history.

ghost use Rattle.std.specs.Prelude.{◌≡◌, ◌++◌, IfOk, OnOk, length};
ghost use Rattle.std.specs.Option.{option_copied};
ghost use Rattle.tt_plain.specs.text.Transcript.{end_line, told_reply};
ghost use Rattle.tt_journal.specs.Answered.{answered_lines, ends_here, goes_on, has_statement, is_of_session, kind_ends, later_replies, next_reply};
ghost use Rattle.tt_journal.specs.Transcript.{IsTranscript};

use crate::append::{write_bytes, write_numbered};
use crate::line::write;
use crate::reply::write_reply;
use std::alloc::{AllocError, Global};
use tt_history::{Actor, Entry, EntryKind, Reply, Told};
use tt_script::Script;

/// The transcript of a history whose statements were answered by these replies, in order.
pub fn transcript(
    alloc: Global,
    program: &Script,
    entries: &[Entry],
    replies: &[Reply],
) -> Result<Vec<u8>, AllocError>
    ensures { IfOk result (λ text. IsTranscript program.now entries.now replies.now text.items) }
{
    let mut text = Vec::new(alloc);
    write_entries(program, entries, replies, &mut text)?;
    write_end(entries.len(), &mut text)?;
    Ok(text)
}

fn write_entries(
    program: &Script,
    entries: &[Entry],
    replies: &[Reply],
    out: &mut Vec<u8>,
) -> Result<(), AllocError>
    ensures ok { OnOk result (out.new.items
        ≡ out.old.items ++ answered_lines program.now entries.now replies.now) }
{
    let mut left = replies;
    let mut later = entries;
    while let Some((entry, rest)) = later.split_first() {
        let (reply, others) = take_reply(program, entry, rest, left);
        write(program, entry, out)?;
        write_told_reply(program, reply, out)?;
        left = others;
        later = rest;
    }
    Ok(())
}

/// The reply of an entry that has these behind it, and the replies of those.
fn take_reply<'a>(
    program: &Script,
    entry: &Entry,
    later: &[Entry],
    replies: &'a [Reply],
) -> (Option<&'a Reply>, &'a [Reply])
    ensures taken { option_copied result.0
        ≡ next_reply program.now entry.now later.now replies.now }
    ensures others { result.1.now ≡ later_replies program.now entry.now later.now replies.now }
{
    match replies.split_first() {
        Some((reply, others)) if ends_statement(program, entry, later) => (Some(reply), others),
        _ => (None, replies),
    }
}

/// Whether a statement ends by an entry that has these behind it.
fn ends_statement(program: &Script, entry: &Entry, later: &[Entry]) -> bool
    ensures { result ≡ ends_here program.now entry.now later.now }
{
    match entry.actor {
        Actor::Session(session) => {
            has_statement(program, session, entry.index)
                && kind_ends(session, entry.index, &entry.kind, later)
        }
        Actor::Recluster | Actor::Purge => false,
    }
}

fn has_statement(program: &Script, session: u32, index: u64) -> bool
    ensures { result ≡ has_statement program.now session index }
{
    match program.sessions.get(session as usize) {
        Some(lines) => {
            let place = index.saturating_sub(1) as usize;
            lines.statements.get(place).is_some()
        }
        None => false,
    }
}

#[tactic(auto, unfolding(crate::specs::Answered::kind_ends))]
fn kind_ends(session: u32, index: u64, kind: &EntryKind, later: &[Entry]) -> bool
    ensures { result ≡ kind_ends session index kind.now later.now }
{
    match kind {
        EntryKind::Start(Told::Done) => false,
        EntryKind::Commit(Told::Done) => !goes_on(session, index, later),
        EntryKind::RecluStart { .. } => false,
        EntryKind::RecluEnd { .. } => false,
        EntryKind::RecluMiss { .. } => false,
        EntryKind::Purge { .. } => false,
        EntryKind::Close => false,
        _ => true,
    }
}

/// Whether the session's first entry of these is one of its statement of this index.
fn goes_on(session: u32, index: u64, entries: &[Entry]) -> bool
    ensures { result ≡ goes_on session index entries.now }
{
    for entry in entries {
        if is_of_session(session, entry.actor) {
            return entry.index == index;
        }
    }
    false
}

fn is_of_session(session: u32, actor: Actor) -> bool
    ensures { result ≡ is_of_session session actor }
{
    match actor {
        Actor::Session(other) => other == session,
        Actor::Recluster | Actor::Purge => false,
    }
}

fn write_told_reply(
    program: &Script,
    reply: Option<&Reply>,
    out: &mut Vec<u8>,
) -> Result<(), AllocError>
    ensures ok { OnOk result (out.new.items
        ≡ out.old.items ++ told_reply program.now (option_copied reply.entry)) }
{
    match reply {
        Some(reply) => write_reply(program, reply, out),
        None => Ok(()),
    }
}

#[tactic(auto, unfolding(tt_plain::specs::text::Transcript::end_line))]
fn write_end(count: usize, out: &mut Vec<u8>) -> Result<(), AllocError>
    ensures ok { OnOk result (out.new.items ≡ out.old.items ++ end_line count) }
{
    write_numbered(b"%end ", count as u64, out)?;
    write_bytes(b"\n", out)?;
    Ok(())
}
