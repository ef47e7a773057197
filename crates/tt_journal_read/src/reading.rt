//! The entry of a line.

ghost use Rattle.std.specs.Prelude.{◌≡◌, ◌≤◌, IfErr, IfOk, length, option_map};
ghost use Rattle.std.specs.Option.{option_copied};
ghost use Rattle.tt_script.specs.Program.{IsProgram};
ghost use Rattle.tt_journal_read.specs.Line.{IsAlone, IsLineOf, IsNoLine};
ghost use Rattle.tt_journal_read.specs.steps.Reading.{Finds, actor_of, body_of, entry_in, entry_on, front_parts, head_of};

use crate::JournalError;
use crate::facts::session_named;
use crate::kinds::{found, kind};
use crate::parts::{cut, is_word, number_up_to, parted, signed_number};
use std::alloc::Global;
use tt_history::{Actor, Entry};
use tt_script::Script;

/// The entry whose line, with its line feed, this is.
/// `BadJournal` exactly where it is the line of no entry.
pub fn read(alloc: Global, program: &Script, line: &str) -> Result<Entry, JournalError>
    requires sound { IsProgram program.now }
    ensures entry { IfOk result (λ entry. IsLineOf program.now line.now entry) }
    ensures alone { IfOk result (λ entry. IsAlone program.now line.now entry) }
    ensures none { IfErr result (λ error. IsNoLine program.now line.now error) }
{
    entry_on(alloc, program, line.as_bytes())
}

#[tactic(auto, unfolding(crate::specs::steps::Reading::entry_on))]
fn entry_on(alloc: Global, program: &Script, line: &[u8]) -> Result<Entry, JournalError>
    requires few { length program.now.sessions ≤ 64 }
    ensures { Finds (entry_on program.now line.now) result }
{
    match body(line) {
        Some(body) => entry(alloc, program, body),
        None => Err(JournalError::BadJournal),
    }
}

/// What stands in front of the line feed at the end.
fn body(line: &[u8]) -> Option<&[u8]>
    ensures { option_copied result ≡ body_of line.now }
{
    match line.split_last() {
        Some((last, body)) if *last == b'\n' => Some(body),
        _ => None,
    }
}

#[tactic(auto, unfolding(crate::specs::steps::Reading::actor_of))]
fn actor(program: &Script, name: &[u8]) -> Option<Actor>
    requires few { length program.now.sessions ≤ 64 }
    ensures { result ≡ actor_of program.now name.now }
{
    if is_word(name, b"@recluster") {
        Some(Actor::Recluster)
    } else if is_word(name, b"@purge") {
        Some(Actor::Purge)
    } else {
        Some(Actor::Session(session_named(program, name)?))
    }
}

/// What stands in front of the word of an entry, and the text from that word on.
#[derive(Clone, Copy)]
struct Front<'a> {
    moment: u64,
    actor: Actor,
    index: u64,
    text: &'a [u8],
}

#[tactic(auto, unfolding(crate::specs::steps::Reading::head_of))]
fn head<'a>(program: &Script, body: &'a [u8]) -> Option<Front<'a>>
    requires few { length program.now.sessions ≤ 64 }
    ensures { option_map front_parts result ≡ head_of program.now body.now }
{
    let (moment, rest) = parted(b' ', body)?;
    let (name, rest) = parted(b' ', rest)?;
    let (index, text) = parted(b' ', rest)?;
    Some(Front {
        moment: signed_number(b'@', moment)?,
        actor: actor(program, name)?,
        index: number_up_to(u64::MAX, index)?,
        text,
    })
}

#[tactic(auto, unfolding(crate::specs::steps::Reading::entry_in))]
fn entry(alloc: Global, program: &Script, body: &[u8]) -> Result<Entry, JournalError>
    requires few { length program.now.sessions ≤ 64 }
    ensures { Finds (entry_in program.now body.now) result }
{
    let Some(head) = head(program, body) else {
        return Err(JournalError::BadJournal);
    };
    let (word, facts) = cut(b' ', head.text);
    let kind = kind(alloc, program, word, facts)?;
    Ok(Entry {
        moment: head.moment,
        actor: head.actor,
        index: head.index,
        kind,
    })
}
