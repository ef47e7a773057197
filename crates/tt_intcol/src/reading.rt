//! Reading the bodies of a column.

ghost use Rattle.std.specs.Prelude.{◌≡◌, ◌+◌, ◌-◌, ◌*◌, ◌^◌, ◌<◌, ◌≤◌, ◌++◌, length, replicate, Ok, Err, IfOk, OnOk};
ghost use Rattle.std.specs.Ordering.{int_cmp};
ghost use Rattle.std.specs.Prelude.{not, None};
ghost use Rattle.std.specs.List.{list_all};
ghost use Rattle.std.specs.Option.{option_map};
ghost use Rattle.tt_value.specs.columns.Packing.{bytes_for};
ghost use Rattle.tt_value.specs.columns.Reading.{is_new, is_next, uses_each, values_of, looked_up, dictionary_values_at, packed_at, values_at, run_at, runs_at, run_values_at, entry_at, entries_at};
ghost use Rattle.tt_value.specs.columns.Steps.{HasItems};
ghost use Rattle.tt_intcol.specs.IntReading.{GivesOne, GivesList, GivesWhole, value_at};

use crate::parts::{PartError, bad, place, read_count, read_u32, read_value};
use std::alloc::{AllocError, Global};
use tt_value::{Kind, packing};

/// How many bytes so many numbers of that width take.
pub fn packed_size(count: usize, width: u32) -> u128
    requires { width < 256 }
    ensures { result ≡ bytes_for (count * width) }
{
    (count as u128 * u128::from(width) + 7) / 8
}

/// Packed numbers.
#[tactic(auto, unfolding(tt_value::specs::columns::Reading::packed_at))]
pub fn read_packed(
    alloc: Global,
    end: u64,
    width: u32,
    count: usize,
    bytes: &[u8],
) -> Result<(Vec<u64>, &[u8]), PartError>
    requires { width ≤ 64 }
    ensures { GivesList result (packed_at end width count bytes.now) }
{
    let size = packed_size(count, width);
    if (bytes.len() as u128) < size {
        return Err(bad(end));
    }
    let (front, rest) = bytes.split_at(size as usize);
    match packing::unpack(alloc, front, width, count)? {
        None => Err(bad(place(end, bytes))),
        Some(numbers) => Ok((numbers, rest)),
    }
}

/// So many values.
pub fn read_values(
    alloc: Global,
    kind: Kind,
    end: u64,
    count: usize,
    bytes: &[u8],
) -> Result<(Vec<i64>, &[u8]), PartError>
    ensures { GivesList result (values_at (value_at kind) int_cmp end count bytes.now) }
{
    let mut values = Vec::with_capacity(alloc, count.min(bytes.len()))?;
    let mut rest = bytes;
    for _turn in 0..count {
        let (value, after) = read_value(kind, end, rest)?;
        values.push(value)?;
        rest = after;
    }
    Ok((values, rest))
}

fn is_same_as(before: Option<i64>, value: i64) -> bool
    ensures { result ≡ not (is_new (value_at Kind.Int) int_cmp before value) }
{
    before == Some(value)
}

/// A run, behind that of another value; its length is at most what is left.
#[tactic(auto, unfolding(tt_value::specs::columns::Reading::run_at))]
fn read_run(
    kind: Kind,
    end: u64,
    later: u32,
    left: usize,
    before: Option<i64>,
    bytes: &[u8],
) -> Result<((i64, u32), &[u8]), PartError>
    ensures run { GivesOne result (run_at (value_at kind) int_cmp end later left before bytes.now) }
    ensures within { IfOk result (λ x. x.0.1 ≤ left) }
{
    let (value, rest) = read_value(kind, end, bytes)?;
    if is_same_as(before, value) {
        return Err(bad(place(end, bytes)));
    }
    let (length, after) = read_u32(end, rest)?;
    if length == 0 || length as usize > left || (later == 0 && length as usize != left) {
        return Err(bad(place(end, rest)));
    }
    Ok(((value, length), after))
}

/// Adds so many copies of a value.
fn push_run(values: &mut Vec<i64>, value: i64, count: u32) -> Result<(), AllocError>
    ensures { OnOk result (values.new.items ≡ values.old.items ++ replicate count value) }
{
    for _turn in 0..count {
        values.push(value)?;
    }
    Ok(())
}

/// The values of so many runs.
fn read_runs(
    alloc: Global,
    kind: Kind,
    end: u64,
    count: u32,
    most: usize,
    bytes: &[u8],
) -> Result<(Vec<i64>, &[u8]), PartError>
    ensures { GivesList result (runs_at (value_at kind) int_cmp end count most None bytes.now) }
{
    let mut values = Vec::with_capacity(alloc, most)?;
    let mut rest = bytes;
    let mut left = most;
    let mut before = None;
    for turn in 0..count {
        let (run, after) = read_run(kind, end, count - turn - 1, left, before, rest)?;
        push_run(&mut values, run.0, run.1)?;
        left -= run.1 as usize;
        before = Some(run.0);
        rest = after;
    }
    Ok((values, rest))
}

/// The values of a run body, of so many values.
#[tactic(auto, unfolding(tt_value::specs::columns::Reading::run_values_at))]
pub fn read_run_values(
    alloc: Global,
    kind: Kind,
    end: u64,
    most: usize,
    bytes: &[u8],
) -> Result<(Vec<i64>, &[u8]), PartError>
    ensures { GivesList result (run_values_at (value_at kind) int_cmp end most bytes.now) }
{
    let (count, rest) = read_count(end, most, bytes)?;
    read_runs(alloc, kind, end, count, most, rest)
}

fn is_below(before: Option<i64>, value: i64) -> bool
    ensures { result ≡ is_next (value_at Kind.Int) int_cmp before value }
{
    match before {
        None => true,
        Some(least) => least < value,
    }
}

/// A distinct value, above the one before.
#[tactic(auto, unfolding(tt_value::specs::columns::Reading::entry_at))]
fn read_entry(
    kind: Kind,
    end: u64,
    before: Option<i64>,
    bytes: &[u8],
) -> Result<(i64, &[u8]), PartError>
    ensures { GivesOne result (entry_at (value_at kind) int_cmp end before bytes.now) }
{
    let (value, rest) = read_value(kind, end, bytes)?;
    if !is_below(before, value) {
        return Err(bad(place(end, bytes)));
    }
    Ok((value, rest))
}

/// So many distinct values, ascending.
pub fn read_entries(
    alloc: Global,
    kind: Kind,
    end: u64,
    count: u32,
    bytes: &[u8],
) -> Result<(Vec<i64>, &[u8]), PartError>
    ensures { GivesList result (entries_at (value_at kind) int_cmp end count None bytes.now) }
{
    let mut values = Vec::with_capacity(alloc, (count as usize).min(bytes.len()))?;
    let mut rest = bytes;
    let mut before = None;
    for _turn in 0..count {
        let (value, after) = read_entry(kind, end, before, rest)?;
        values.push(value)?;
        before = Some(value);
        rest = after;
    }
    Ok((values, rest))
}

/// Whether each number below `count` stands among the indexes.
fn all_used(alloc: Global, count: usize, indexes: &[u64]) -> Result<bool, AllocError>
    ensures { IfOk result (λ used. used ≡ uses_each count indexes.now) }
{
    let mut used = vec![in alloc; false; count]?;
    for index in indexes {
        let index = *index as usize;
        if index < used.len() {
            used[index] = true;
        }
    }
    Ok(all_true(&used))
}

fn all_true(flags: &[bool]) -> bool
    ensures { result ≡ list_all (λ each. each) flags.now }
{
    flags.iter().all(|each| *each)
}

/// The values at these places; none where a place is past the end.
fn values_at_indexes(
    alloc: Global,
    entries: &[i64],
    indexes: &[u64],
) -> Result<Option<Vec<i64>>, AllocError>
    ensures { IfOk result (λ found. HasItems found (values_of entries.now indexes.now)) }
{
    let mut values = Vec::with_capacity(alloc, indexes.len())?;
    for index in indexes {
        match entries.get(*index as usize) {
            None => return Ok(None),
            Some(value) => values.push(*value)?,
        }
    }
    Ok(Some(values))
}

/// The values that a dictionary and indexes stand for.
#[tactic(auto, unfolding(tt_value::specs::columns::Reading::looked_up))]
fn look_up(
    alloc: Global,
    place: u64,
    entries: &[i64],
    indexes: &[u64],
) -> Result<Vec<i64>, PartError>
    ensures { GivesWhole result (looked_up place entries.now indexes.now) }
{
    match values_at_indexes(alloc, entries, indexes)? {
        None => Err(bad(place)),
        Some(values) => {
            if !all_used(alloc, entries.len(), indexes)? {
                return Err(bad(place));
            }
            Ok(values)
        }
    }
}

/// The values of a dictionary body, of so many values.
#[tactic(auto, unfolding(tt_value::specs::columns::Reading::dictionary_values_at))]
pub fn read_dictionary_values(
    alloc: Global,
    kind: Kind,
    end: u64,
    most: usize,
    bytes: &[u8],
) -> Result<(Vec<i64>, &[u8]), PartError>
    ensures { GivesList result (dictionary_values_at (value_at kind) int_cmp end most bytes.now) }
{
    let (count, rest) = read_count(end, most, bytes)?;
    let (entries, rest) = read_entries(alloc, kind, end, count, rest)?;
    let width = packing::width_of(u64::from(count.saturating_sub(1)));
    let (indexes, after) = read_packed(alloc, end, width, most, rest)?;
    let values = look_up(alloc, place(end, rest), &entries, &indexes)?;
    Ok((values, after))
}
