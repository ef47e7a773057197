//! The line of an entry.

ghost use Rattle.std.specs.Prelude.{◌≡◌, ◌++◌, OnOk, codes};
ghost use Rattle.std.specs.Fmt.{decimal};
ghost use Rattle.tt_plain.specs.text.Journal.{actor_text, added_text, gone_text, journal_line, kind_text, miss_text, numbers_text, part_text, session_text, told_text};

use crate::append::{write_bytes, write_number, write_numbered};
use std::alloc::AllocError;
use tt_history::{Actor, Added, Entry, EntryKind, Miss, Told};
use tt_script::Script;

/// Appends the line of an entry, with its line feed. Where memory runs out, a front of the line may stand behind
/// what stood.
#[tactic(auto, unfolding(tt_plain::specs::text::Journal::journal_line))]
pub fn write(program: &Script, entry: &Entry, out: &mut Vec<u8>) -> Result<(), AllocError>
    ensures ok { OnOk result (out.new.items ≡ out.old.items ++ journal_line program.now entry.now) }
{
    write_bytes(b"@", out)?;
    write_number(entry.moment, out)?;
    write_bytes(b" ", out)?;
    write_actor(program, entry.actor, out)?;
    write_bytes(b" ", out)?;
    write_number(entry.index, out)?;
    write_bytes(b" ", out)?;
    write_kind(program, &entry.kind, out)?;
    write_bytes(b"\n", out)?;
    Ok(())
}

fn write_actor(program: &Script, actor: Actor, out: &mut Vec<u8>) -> Result<(), AllocError>
    ensures ok { OnOk result (out.new.items ≡ out.old.items ++ actor_text program.now actor) }
{
    match actor {
        Actor::Session(session) => write_session(program, session, out),
        Actor::Recluster => write_bytes(b"@recluster", out),
        Actor::Purge => write_bytes(b"@purge", out),
    }
}

pub fn write_session(program: &Script, session: u32, out: &mut Vec<u8>) -> Result<(), AllocError>
    ensures ok { OnOk result (out.new.items
        ≡ out.old.items ++ session_text program.now session) }
{
    if let Some(lines) = program.sessions.get(session as usize) {
        write_bytes(lines.name.as_str().as_bytes(), out)?;
    }
    Ok(())
}

fn write_kind(program: &Script, kind: &EntryKind, out: &mut Vec<u8>) -> Result<(), AllocError>
    ensures ok { OnOk result (out.new.items ≡ out.old.items ++ kind_text program.now kind.now) }
{
    match kind {
        EntryKind::Begin(told) => write_outcome(b"begin", *told, out),
        EntryKind::Start(told) => write_outcome(b"start", *told, out),
        EntryKind::End { gone, added } => write_parts(b"end", gone.items(), added.items(), out),
        EntryKind::Abandon(told) => write_outcome(b"abandon", *told, out),
        EntryKind::Commit(told) => write_outcome(b"commit", *told, out),
        EntryKind::Rollback => write_bytes(b"rollback", out),
        EntryKind::Define(told) => write_outcome(b"define", *told, out),
        EntryKind::Wait(told) => write_outcome(b"wait", *told, out),
        EntryKind::Report(told, numbers) => write_report(*told, numbers.items(), out),
        EntryKind::RecluStart { table, parts } => write_round(*table, parts.items(), out),
        EntryKind::RecluEnd { table, gone, added } => {
            write_landing(*table, gone.items(), added.items(), out)
        }
        EntryKind::RecluMiss { table, why } => write_miss(program, *table, *why, out),
        EntryKind::Purge { parts } => write_purge(parts.items(), out),
        EntryKind::Close => write_bytes(b"close", out),
    }
}

/// A word, and how the call went.
fn write_outcome(word: &[u8], told: Told, out: &mut Vec<u8>) -> Result<(), AllocError>
    ensures ok { OnOk result (out.new.items ≡ out.old.items ++ (word.now ++ told_text told)) }
{
    write_bytes(word, out)?;
    write_told(told, out)?;
    Ok(())
}

/// A word, and the partitions that are taken away and added.
fn write_parts(
    word: &[u8],
    gone: &[u64],
    added: &[Added],
    out: &mut Vec<u8>,
) -> Result<(), AllocError>
    ensures ok { OnOk result (out.new.items
        ≡ out.old.items ++ (word.now ++ gone_text gone.now ++ added_text added.now)) }
{
    write_bytes(word, out)?;
    write_gone(gone, out)?;
    write_added(added, out)?;
    Ok(())
}

fn write_gone(parts: &[u64], out: &mut Vec<u8>) -> Result<(), AllocError>
    ensures ok { OnOk result (out.new.items ≡ out.old.items ++ gone_text parts.now) }
{
    for number in parts {
        write_numbered(b" -", *number, out)?;
    }
    Ok(())
}

fn write_added(parts: &[Added], out: &mut Vec<u8>) -> Result<(), AllocError>
    ensures ok { OnOk result (out.new.items ≡ out.old.items ++ added_text parts.now) }
{
    for part in parts {
        write_part(part, out)?;
    }
    Ok(())
}

fn write_part(part: &Added, out: &mut Vec<u8>) -> Result<(), AllocError>
    ensures ok { OnOk result (out.new.items ≡ out.old.items ++ part_text part.now) }
{
    write_numbered(b" +", part.number, out)?;
    write_numbered(b":", u64::from(part.rows), out)?;
    write_numbered(b":", part.bytes, out)?;
    Ok(())
}

fn write_report(told: Told, numbers: &[u64], out: &mut Vec<u8>) -> Result<(), AllocError>
    ensures ok { OnOk result (out.new.items
        ≡ out.old.items ++ (codes "report" ++ told_text told ++ numbers_text numbers.now)) }
{
    write_outcome(b"report", told, out)?;
    write_numbers(numbers, out)?;
    Ok(())
}

fn write_numbers(numbers: &[u64], out: &mut Vec<u8>) -> Result<(), AllocError>
    ensures ok { OnOk result (out.new.items ≡ out.old.items ++ numbers_text numbers.now) }
{
    for number in numbers {
        write_numbered(b" ", *number, out)?;
    }
    Ok(())
}

fn write_round(table: u32, parts: &[u64], out: &mut Vec<u8>) -> Result<(), AllocError>
    ensures ok { OnOk result (out.new.items
        ≡ out.old.items ++ (codes "recluster " ++ decimal table ++ gone_text parts.now)) }
{
    write_numbered(b"recluster ", u64::from(table), out)?;
    write_gone(parts, out)?;
    Ok(())
}

fn write_landing(
    table: u32,
    gone: &[u64],
    added: &[Added],
    out: &mut Vec<u8>,
) -> Result<(), AllocError>
    ensures ok { OnOk result (out.new.items
        ≡ out.old.items ++ (codes "landed " ++ decimal table ++ gone_text gone.now ++ added_text added.now)) }
{
    write_numbered(b"landed ", u64::from(table), out)?;
    write_gone(gone, out)?;
    write_added(added, out)?;
    Ok(())
}

fn write_miss(program: &Script, table: u32, why: Miss, out: &mut Vec<u8>) -> Result<(), AllocError>
    ensures ok { OnOk result (out.new.items
        ≡ out.old.items ++ (codes "missed " ++ decimal table ++ miss_text program.now why)) }
{
    write_numbered(b"missed ", u64::from(table), out)?;
    write_why(program, why, out)?;
    Ok(())
}

fn write_why(program: &Script, why: Miss, out: &mut Vec<u8>) -> Result<(), AllocError>
    ensures ok { OnOk result (out.new.items ≡ out.old.items ++ miss_text program.now why) }
{
    match why {
        Miss::Dropped => write_bytes(b" dropped", out),
        Miss::Suspended => write_bytes(b" suspended", out),
        Miss::Held(session) => write_named(b" held ", program, session, out),
        Miss::Gone(number) => write_numbered(b" gone ", number, out),
        Miss::Memory => write_bytes(b" memory", out),
    }
}

/// Appends the text and the session's name behind it.
pub fn write_named(
    text: &[u8],
    program: &Script,
    session: u32,
    out: &mut Vec<u8>,
) -> Result<(), AllocError>
    ensures ok { OnOk result (out.new.items
        ≡ out.old.items ++ (text.now ++ session_text program.now session)) }
{
    write_bytes(text, out)?;
    write_session(program, session, out)?;
    Ok(())
}

fn write_purge(parts: &[u64], out: &mut Vec<u8>) -> Result<(), AllocError>
    ensures ok { OnOk result (out.new.items
        ≡ out.old.items ++ (codes "purge" ++ gone_text parts.now)) }
{
    write_bytes(b"purge", out)?;
    write_gone(parts, out)?;
    Ok(())
}

fn write_told(told: Told, out: &mut Vec<u8>) -> Result<(), AllocError>
    ensures ok { OnOk result (out.new.items ≡ out.old.items ++ told_text told) }
{
    match told {
        Told::Done => Ok(()),
        Told::Refused(number) => write_numbered(b" refused ", u64::from(number), out),
        Told::Memory => write_bytes(b" memory", out),
    }
}
