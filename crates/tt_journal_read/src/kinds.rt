//! The kind of an entry with its facts.

ghost use Rattle.std.specs.Prelude.{◌≡◌, ◌≤◌, Some, length};
ghost use Rattle.std.specs.Option.{option_copied};
ghost use Rattle.tt_journal_read.specs.steps.Reading.{Finds, bare_kind, cut_of, end_in, fact_kind, facts_kind, failure_in, kind_by, landing_by, miss_by, numbers_by, purge_in, report_kind, round_by, told_kind, told_kind_in, unrefused_in};

use crate::JournalError;
use crate::facts::{cause, change, parts, told};
use crate::parts::{cut, is_word, number_up_to, short_number};
use std::alloc::Global;
use tt_history::{EntryKind, Told};
use tt_script::Script;
use tt_value::Sequence;

/// What a commit may tell.
fn unrefused(how: Told) -> Option<Told>
    ensures { result ≡ unrefused_in how }
{
    match how {
        Told::Refused(_) => None,
        other => Some(other),
    }
}

/// What a statement that is given up may tell.
fn failure(how: Told) -> Option<Told>
    ensures { result ≡ failure_in how }
{
    match how {
        Told::Done => None,
        other => Some(other),
    }
}

/// A kind of which only the call is told.
#[tactic(auto, unfolding(crate::specs::steps::Reading::told_kind))]
fn told_kind(word: &[u8], how: Told) -> Option<EntryKind>
    ensures { result ≡ told_kind word.now how }
{
    if is_word(word, b"begin") {
        Some(EntryKind::Begin(how))
    } else if is_word(word, b"start") {
        Some(EntryKind::Start(how))
    } else if is_word(word, b"commit") {
        Some(EntryKind::Commit(unrefused(how)?))
    } else if is_word(word, b"define") {
        Some(EntryKind::Define(how))
    } else if is_word(word, b"wait") {
        Some(EntryKind::Wait(how))
    } else if is_word(word, b"abandon") {
        Some(EntryKind::Abandon(failure(how)?))
    } else {
        None
    }
}

fn told_kind_in(word: &[u8], facts: Option<&[u8]>) -> Option<EntryKind>
    ensures { result ≡ told_kind_in word.now (option_copied facts.entry) }
{
    told_kind(word, told(facts)?)
}

/// A kind of which nothing is told.
#[tactic(auto, unfolding(crate::specs::steps::Reading::bare_kind))]
fn bare_kind(word: &[u8]) -> Option<EntryKind>
    ensures { result ≡ bare_kind word.now }
{
    if is_word(word, b"rollback") {
        Some(EntryKind::Rollback)
    } else if is_word(word, b"close") {
        Some(EntryKind::Close)
    } else {
        None
    }
}

fn round(alloc: Global, facts: &[u8]) -> Result<EntryKind, JournalError>
    ensures { Finds (round_by (cut_of 32 facts.now)) result }
{
    let (table, rest) = cut(b' ', facts);
    let Some(table) = short_number(table) else {
        return Err(JournalError::BadJournal);
    };
    let parts = parts(alloc, rest)?;
    Ok(EntryKind::RecluStart { table, parts })
}

fn landing(alloc: Global, facts: &[u8]) -> Result<EntryKind, JournalError>
    ensures { Finds (landing_by (cut_of 32 facts.now)) result }
{
    let (table, rest) = cut(b' ', facts);
    let Some(table) = short_number(table) else {
        return Err(JournalError::BadJournal);
    };
    let (gone, added) = change(alloc, rest)?;
    Ok(EntryKind::RecluEnd { table, gone, added })
}

fn miss(program: &Script, facts: &[u8]) -> Option<EntryKind>
    requires few { length program.now.sessions ≤ 64 }
    ensures { result ≡ miss_by program.now (cut_of 32 facts.now) }
{
    let (table, rest) = cut(b' ', facts);
    let table = short_number(table)?;
    let (word, fact) = cut(b' ', rest?);
    let why = cause(program, word, fact)?;
    Some(EntryKind::RecluMiss { table, why })
}

/// A kind of which more is told.
#[tactic(auto, unfolding(crate::specs::steps::Reading::fact_kind))]
fn fact_kind(
    alloc: Global,
    program: &Script,
    word: &[u8],
    facts: &[u8],
) -> Result<EntryKind, JournalError>
    requires few { length program.now.sessions ≤ 64 }
    ensures { Finds (fact_kind program.now word.now facts.now) result }
{
    if is_word(word, b"recluster") {
        round(alloc, facts)
    } else if is_word(word, b"landed") {
        landing(alloc, facts)
    } else if is_word(word, b"missed") {
        found(miss(program, facts))
    } else {
        Err(JournalError::BadJournal)
    }
}

/// What was found, or the refusal of the line.
pub fn found<T>(found: Option<T>) -> Result<T, JournalError>
    ensures { Finds found result }
{
    match found {
        Some(thing) => Ok(thing),
        None => Err(JournalError::BadJournal),
    }
}

fn facts_kind(
    alloc: Global,
    program: &Script,
    word: &[u8],
    facts: Option<&[u8]>,
) -> Result<EntryKind, JournalError>
    requires few { length program.now.sessions ≤ 64 }
    ensures { Finds (facts_kind program.now word.now (option_copied facts.entry)) result }
{
    match facts {
        Some(facts) => fact_kind(alloc, program, word, facts),
        None => found(bare_kind(word)),
    }
}

fn list(alloc: Global, numbers: &[u64]) -> Result<Sequence<u64>, JournalError>
    ensures { Finds (Some numbers.now) result }
{
    Ok(Sequence::from_vec(numbers.to_vec(alloc)?))
}

fn end(alloc: Global, facts: Option<&[u8]>) -> Result<EntryKind, JournalError>
    ensures { Finds (end_in (option_copied facts.entry)) result }
{
    let (gone, added) = change(alloc, facts)?;
    Ok(EntryKind::End { gone, added })
}

fn purge(alloc: Global, facts: Option<&[u8]>) -> Result<EntryKind, JournalError>
    ensures { Finds (purge_in (option_copied facts.entry)) result }
{
    let parts = parts(alloc, facts)?;
    Ok(EntryKind::Purge { parts })
}

/// The numbers of a report that is done.
fn numbers(
    alloc: Global,
    first: &[u8],
    second: Option<&[u8]>,
) -> Result<Sequence<u64>, JournalError>
    ensures { Finds (numbers_by (first.now, option_copied second.entry)) result }
{
    let Some(first) = number_up_to(u64::MAX, first) else {
        return Err(JournalError::BadJournal);
    };
    match second {
        None => list(alloc, &[first]),
        Some(second) => match number_up_to(u64::MAX, second) {
            Some(second) => list(alloc, &[first, second]),
            None => Err(JournalError::BadJournal),
        },
    }
}

fn report(alloc: Global, facts: Option<&[u8]>) -> Result<EntryKind, JournalError>
    ensures { Finds (report_kind (option_copied facts.entry)) result }
{
    if let Some(how) = told(facts) {
        return Ok(EntryKind::Report(how, Sequence::new(alloc)));
    }
    let Some(facts) = facts else { unreachable!() };
    let (first, second) = cut(b' ', facts);
    let numbers = numbers(alloc, first, second)?;
    Ok(EntryKind::Report(Told::Done, numbers))
}

/// The kind of an entry: its word, and the facts behind it.
#[tactic(auto, unfolding(crate::specs::steps::Reading::kind_by))]
pub fn kind(
    alloc: Global,
    program: &Script,
    word: &[u8],
    facts: Option<&[u8]>,
) -> Result<EntryKind, JournalError>
    requires few { length program.now.sessions ≤ 64 }
    ensures { Finds (kind_by program.now (word.now, option_copied facts.entry)) result }
{
    if is_word(word, b"end") {
        end(alloc, facts)
    } else if is_word(word, b"purge") {
        purge(alloc, facts)
    } else if is_word(word, b"report") {
        report(alloc, facts)
    } else if let Some(kind) = told_kind_in(word, facts) {
        Ok(kind)
    } else {
        facts_kind(alloc, program, word, facts)
    }
}
