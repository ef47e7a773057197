//! Reading the bodies of a column. The texts that are read stand in the bytes still: none is copied.

ghost use Rattle.std.specs.Prelude.{◌≡◌, ◌+◌, ◌-◌, ◌*◌, ◌^◌, ◌<◌, ◌≤◌, ◌++◌, not, None, length, replicate, Ok, Err, IfOk, OnOk};
ghost use Rattle.std.specs.List.{list_all};
ghost use Rattle.std.specs.Option.{option_map};
ghost use Rattle.tt_value.specs.columns.Reading.{is_new, is_next, uses_each, values_of, looked_up, dictionary_values_at, packed_at, values_at, run_at, runs_at, run_values_at, entry_at, entries_at};
ghost use Rattle.tt_textcol.specs.TextBody.{text_cmp};
ghost use Rattle.tt_value.specs.columns.Steps.{HasItems};
ghost use Rattle.tt_textcol.specs.TextReading.{GivesOne, GivesList, GivesWhole, text_at};

use crate::parts::{PartError, bad, place, read_count, read_packed, read_text, read_u32};
use crate::text_ref::TextRef;
use std::alloc::{AllocError, Global};
use tt_value::packing;

/// So many texts.
pub fn read_values(
    alloc: Global,
    end: u64,
    count: usize,
    bytes: &[u8],
) -> Result<(Vec<TextRef<'_>>, &[u8]), PartError>
    ensures { GivesList result (values_at text_at text_cmp end count bytes.now) }
{
    let mut values = Vec::with_capacity(alloc, count.min(bytes.len()))?;
    let mut rest = bytes;
    for _turn in 0..count {
        let (value, after) = read_text(end, rest)?;
        values.push(value)?;
        rest = after;
    }
    Ok((values, rest))
}

fn is_same_as<'a>(before: &Option<TextRef<'a>>, value: &TextRef<'a>) -> bool
    ensures { result ≡ not (is_new text_at text_cmp before.now value.now) }
{
    match before {
        None => false,
        Some(text) => text == value,
    }
}

/// A run, behind that of another text; its length is at most what is left.
#[tactic(auto, unfolding(tt_value::specs::columns::Reading::run_at))]
fn read_run<'a>(
    end: u64,
    later: u32,
    left: usize,
    before: &Option<TextRef<'a>>,
    bytes: &'a [u8],
) -> Result<((TextRef<'a>, u32), &'a [u8]), PartError>
    ensures run { GivesOne result (run_at text_at text_cmp end later left before.now bytes.now) }
    ensures within { IfOk result (λ x. x.0.1 ≤ left) }
{
    let (value, rest) = read_text(end, bytes)?;
    if is_same_as(before, &value) {
        return Err(bad(place(end, bytes)));
    }
    let (length, after) = read_u32(end, rest)?;
    if length == 0 || length as usize > left || (later == 0 && length as usize != left) {
        return Err(bad(place(end, rest)));
    }
    Ok(((value, length), after))
}

/// Adds a text so many times.
fn push_run<'a>(
    values: &mut Vec<TextRef<'a>>,
    value: &TextRef<'a>,
    count: u32,
) -> Result<(), AllocError>
    ensures { OnOk result (values.new.items ≡ values.old.items ++ replicate count value.now) }
{
    for _turn in 0..count {
        values.push(value.again())?;
    }
    Ok(())
}

/// The texts of so many runs.
fn read_runs(
    alloc: Global,
    end: u64,
    count: u32,
    most: usize,
    bytes: &[u8],
) -> Result<(Vec<TextRef<'_>>, &[u8]), PartError>
    ensures { GivesList result (runs_at text_at text_cmp end count most None bytes.now) }
{
    let mut values = Vec::with_capacity(alloc, most)?;
    let mut rest = bytes;
    let mut left = most;
    let mut before = None;
    for turn in 0..count {
        let (run, after) = read_run(end, count - turn - 1, left, &before, rest)?;
        push_run(&mut values, &run.0, run.1)?;
        left -= run.1 as usize;
        before = Some(run.0);
        rest = after;
    }
    Ok((values, rest))
}

/// The texts of a run body, so many.
#[tactic(auto, unfolding(tt_value::specs::columns::Reading::run_values_at))]
pub fn read_run_values(
    alloc: Global,
    end: u64,
    most: usize,
    bytes: &[u8],
) -> Result<(Vec<TextRef<'_>>, &[u8]), PartError>
    ensures { GivesList result (run_values_at text_at text_cmp end most bytes.now) }
{
    let (count, rest) = read_count(end, most, bytes)?;
    read_runs(alloc, end, count, most, rest)
}

fn is_below(before: &Option<TextRef<'_>>, value: &TextRef<'_>) -> bool
    ensures { result ≡ is_next text_at text_cmp before.now value.now }
{
    match before {
        None => true,
        Some(least) => least.bytes().cmp(&value.bytes()).is_lt(),
    }
}

/// A distinct text, above the one before.
#[tactic(auto, unfolding(tt_value::specs::columns::Reading::entry_at))]
fn read_entry<'a>(
    end: u64,
    before: &Option<TextRef<'a>>,
    bytes: &'a [u8],
) -> Result<(TextRef<'a>, &'a [u8]), PartError>
    ensures { GivesOne result (entry_at text_at text_cmp end before.now bytes.now) }
{
    let (value, rest) = read_text(end, bytes)?;
    if !is_below(before, &value) {
        return Err(bad(place(end, bytes)));
    }
    Ok((value, rest))
}

/// So many distinct texts, ascending.
pub fn read_entries(
    alloc: Global,
    end: u64,
    count: u32,
    bytes: &[u8],
) -> Result<(Vec<TextRef<'_>>, &[u8]), PartError>
    ensures { GivesList result (entries_at text_at text_cmp end count None bytes.now) }
{
    let mut values = Vec::with_capacity(alloc, (count as usize).min(bytes.len()))?;
    let mut rest = bytes;
    let mut before = None;
    for _turn in 0..count {
        let (value, after) = read_entry(end, &before, rest)?;
        before = Some(value.again());
        values.push(value)?;
        rest = after;
    }
    Ok((values, rest))
}

/// Whether each number below `count` stands among the indexes.
fn all_used(alloc: Global, count: usize, indexes: &[u64]) -> Result<bool, AllocError>
    ensures { IfOk result (λ used. used ≡ uses_each count indexes.now) }
{
    let mut used = vec![in alloc; false; count]?;
    for index in indexes {
        let index = *index as usize;
        if index < used.len() {
            used[index] = true;
        }
    }
    Ok(all_true(&used))
}

fn all_true(flags: &[bool]) -> bool
    ensures { result ≡ list_all (λ each. each) flags.now }
{
    flags.iter().all(|each| *each)
}

/// The texts at these places; none where a place is past the end.
fn values_at_indexes<'a>(
    alloc: Global,
    entries: &[TextRef<'a>],
    indexes: &[u64],
) -> Result<Option<Vec<TextRef<'a>>>, AllocError>
    ensures { IfOk result (λ found. HasItems found (values_of entries.now indexes.now)) }
{
    let mut values = Vec::with_capacity(alloc, indexes.len())?;
    for index in indexes {
        match entries.get(*index as usize) {
            None => return Ok(None),
            Some(value) => values.push(value.again())?,
        }
    }
    Ok(Some(values))
}

/// The texts that a dictionary and indexes stand for.
#[tactic(auto, unfolding(tt_value::specs::columns::Reading::looked_up))]
fn look_up<'a>(
    alloc: Global,
    place: u64,
    entries: &[TextRef<'a>],
    indexes: &[u64],
) -> Result<Vec<TextRef<'a>>, PartError>
    ensures { GivesWhole result (looked_up place entries.now indexes.now) }
{
    match values_at_indexes(alloc, entries, indexes)? {
        None => Err(bad(place)),
        Some(values) => {
            if !all_used(alloc, entries.len(), indexes)? {
                return Err(bad(place));
            }
            Ok(values)
        }
    }
}

/// The texts of a dictionary body, so many.
#[tactic(auto, unfolding(tt_value::specs::columns::Reading::dictionary_values_at))]
pub fn read_dictionary_values(
    alloc: Global,
    end: u64,
    most: usize,
    bytes: &[u8],
) -> Result<(Vec<TextRef<'_>>, &[u8]), PartError>
    ensures { GivesList result (dictionary_values_at text_at text_cmp end most bytes.now) }
{
    let (count, rest) = read_count(end, most, bytes)?;
    let (entries, rest) = read_entries(alloc, end, count, rest)?;
    let width = packing::width_of(u64::from(count.saturating_sub(1)));
    let (indexes, after) = read_packed(alloc, end, width, most, rest)?;
    let values = look_up(alloc, place(end, rest), &entries, &indexes)?;
    Ok((values, after))
}
