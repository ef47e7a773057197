//! The facts of entries.

ghost use Rattle.std.specs.Prelude.{◌≡◌, ◌≤◌, IfOk, length};
ghost use Rattle.std.specs.Option.{option_copied};
ghost use Rattle.tt_journal_read.specs.steps.Reading.{Finds, IsGone, added_by, added_of, ascends, cause_by, cause_of, change_in, fields_in, gone_of, numbers_ascend, parts_in, session_named, told_by, told_in};

use crate::JournalError;
use crate::parts::{
    behind, byte_number, cut, is_word, number_up_to, parted, short_number, signed_number,
};
use std::alloc::{AllocError, Global};
use tt_history::{Added, Miss, Told};
use tt_script::Script;
use tt_value::Sequence;

/// The session of this name.
#[tactic(auto, unfolding(crate::specs::steps::Reading::session_named))]
pub fn session_named(program: &Script, name: &[u8]) -> Option<u32>
    requires few { length program.now.sessions ≤ 64 }
    ensures { result ≡ session_named program.now name.now }
{
    for (place, lines) in program.sessions.items().iter().enumerate() {
        if is_word(lines.name.as_str().as_bytes(), name) {
            return Some(place as u32);
        }
    }
    None
}

fn told_by(word: &[u8], digits: Option<&[u8]>) -> Option<Told>
    ensures { result ≡ told_by (word.now, option_copied digits.entry) }
{
    match digits {
        None => is_word(word, b"memory").then_some(Told::Memory),
        Some(digits) if is_word(word, b"refused") => Some(Told::Refused(byte_number(digits)?)),
        Some(_) => None,
    }
}

/// How a call went.
pub fn told(facts: Option<&[u8]>) -> Option<Told>
    ensures { result ≡ told_in (option_copied facts.entry) }
{
    match facts {
        None => Some(Told::Done),
        Some(facts) => {
            let (word, digits) = cut(b' ', facts);
            told_by(word, digits)
        }
    }
}

#[tactic(auto, unfolding(crate::specs::steps::Reading::ascends))]
fn ascends(numbers: &[u64]) -> bool
    ensures { result ≡ ascends numbers.now }
{
    let Some((first, rest)) = numbers.split_first() else {
        return true;
    };
    let mut last = *first;
    for number in rest {
        if *number <= last {
            return false;
        }
        last = *number;
    }
    true
}

#[tactic(auto, unfolding(crate::specs::steps::Reading::ascends))]
fn numbers_ascend(parts: &[Added]) -> bool
    ensures { result ≡ numbers_ascend parts.now }
{
    let Some((first, rest)) = parts.split_first() else {
        return true;
    };
    let mut last = first.number;
    for part in rest {
        if part.number <= last {
            return false;
        }
        last = part.number;
    }
    true
}

/// The numbers of parts that are taken away, and the fields behind them.
fn gone(alloc: Global, facts: Option<&[u8]>) -> Result<(Sequence<u64>, Option<&[u8]>), AllocError>
    ensures { IfOk result (λ r. IsGone (option_copied facts.entry) r.0 (option_copied r.1)) }
{
    let mut numbers = Sequence::new(alloc);
    let mut left = facts;
    while let Some(fields) = left {
        let (field, behind) = cut(b' ', fields);
        let Some(number) = signed_number(b'-', field) else {
            return Ok((numbers, left));
        };
        numbers.push(number)?;
        left = behind;
    }
    Ok((numbers, left))
}

/// The part that a field adds.
#[tactic(auto, unfolding(crate::specs::steps::Reading::added_by))]
fn added_by(field: &[u8]) -> Option<Added>
    ensures { result ≡ added_by field.now }
{
    let (number, rest) = parted(b':', behind(b'+', field)?)?;
    let (rows, bytes) = parted(b':', rest)?;
    Some(Added {
        number: number_up_to(u64::MAX, number)?,
        rows: short_number(rows)?,
        bytes: number_up_to(u64::MAX, bytes)?,
    })
}

/// The parts that these fields add.
fn added(alloc: Global, facts: Option<&[u8]>) -> Result<Sequence<Added>, JournalError>
    ensures { Finds (added_of (fields_in (option_copied facts.entry))) result }
{
    let mut parts = Sequence::new(alloc);
    let mut left = facts;
    while let Some(fields) = left {
        let (field, behind) = cut(b' ', fields);
        let Some(part) = added_by(field) else {
            return Err(JournalError::BadJournal);
        };
        parts.push(part)?;
        left = behind;
    }
    Ok(parts)
}

/// The parts that are taken away, and nothing else.
pub fn parts(alloc: Global, facts: Option<&[u8]>) -> Result<Sequence<u64>, JournalError>
    ensures { Finds (parts_in (option_copied facts.entry)) result }
{
    let (numbers, left) = gone(alloc, facts)?;
    if left.is_none() && ascends(numbers.items()) {
        Ok(numbers)
    } else {
        Err(JournalError::BadJournal)
    }
}

/// The parts that are taken away, and those that are added.
pub fn change(
    alloc: Global,
    facts: Option<&[u8]>,
) -> Result<(Sequence<u64>, Sequence<Added>), JournalError>
    ensures { Finds (change_in (option_copied facts.entry)) result }
{
    let (gone, left) = gone(alloc, facts)?;
    let added = added(alloc, left)?;
    if ascends(gone.items()) && numbers_ascend(added.items()) {
        Ok((gone, added))
    } else {
        Err(JournalError::BadJournal)
    }
}

fn cause_of(word: &[u8]) -> Option<Miss>
    ensures { result ≡ cause_of word.now }
{
    if is_word(word, b"dropped") {
        Some(Miss::Dropped)
    } else if is_word(word, b"suspended") {
        Some(Miss::Suspended)
    } else {
        is_word(word, b"memory").then_some(Miss::Memory)
    }
}

/// Why a round changed nothing.
pub fn cause(program: &Script, word: &[u8], fact: Option<&[u8]>) -> Option<Miss>
    requires few { length program.now.sessions ≤ 64 }
    ensures { result ≡ cause_by program.now (word.now, option_copied fact.entry) }
{
    match fact {
        None => cause_of(word),
        Some(name) if is_word(word, b"held") => Some(Miss::Held(session_named(program, name)?)),
        Some(number) if is_word(word, b"gone") => {
            Some(Miss::Gone(number_up_to(u64::MAX, number)?))
        }
        Some(_) => None,
    }
}
