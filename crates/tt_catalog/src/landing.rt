//! Parts that a change adds: they are kept under the next numbers, and make up one more layout of their table.

ghost use Rattle.std.specs.Prelude.{◌≡◌, ◌≤◌, ◌<◌, ◌+◌, ◌^◌, IfOk, OnErr, OnOk, length, map};
ghost use Rattle.tt_layout.specs.Chain.{current_of, last_begun};
ghost use Rattle.tt_layout.specs.Numbers.{HasAll, HasNone, IsAscending};
ghost use Rattle.tt_partition.specs.Table.{IsPart};
ghost use Rattle.tt_plain.specs.law.Lists.{Every};
ghost use Rattle.tt_state.specs.Kept.{kept_of};
ghost use Rattle.tt_catalog.specs.Changes.{facts_from, stored_as, stored_from, table_after, tables_after, with_landed};
ghost use Rattle.tt_catalog.specs.Landing.{MayBegin, MayLand, added_as, number_as};

use std::alloc::{AllocError, Global};
use tt_history::Added;
use tt_layout::PartFacts;
use tt_partition::Partition;
use tt_state::{SharedPart, State, StoredPart, TableState};
use tt_value::Sequence;

// A part under its number, with its first owner.
fn stored_part(
    alloc: Global,
    origin: u32,
    number: u64,
    part: Partition,
) -> Result<StoredPart, AllocError>
    ensures stored { IfOk result (λ stored. stored ≡ stored_as origin number part) }
    ensures part { IfOk result (λ _. IsPart part) }
{
    let facts = PartFacts {
        number,
        origin,
        rows: part.row_count(),
        bytes: part.image().len() as u64,
    };
    let part = SharedPart::new(alloc, part)?;
    Ok(StoredPart { facts, part })
}

// The parts under the numbers behind those of so many.
fn stored_parts(
    alloc: Global,
    origin: u32,
    count: usize,
    built: Sequence<Partition>,
) -> Result<Vec<StoredPart>, AllocError>
    requires { count + length built < 2 ^ 64 }
    ensures stored { IfOk result (λ stored. stored.items ≡ stored_from origin (count + 1) built) }
    ensures parts { IfOk result (λ _. Every IsPart built) }
{
    let mut stored = Vec::with_capacity(alloc, built.len())?;
    for part in built.into_vec() {
        let number = (count + stored.len()) as u64 + 1;
        let part = stored_part(alloc, origin, number, part)?;
        stored.push(part)?;
    }
    Ok(stored)
}

// What an entry tells of these parts.
fn added_facts(alloc: Global, parts: &[StoredPart]) -> Result<Sequence<Added>, AllocError>
    ensures { IfOk result (λ added. added ≡ map added_as parts.now) }
{
    let mut added = Vec::with_capacity(alloc, parts.len())?;
    for part in parts {
        added.push(Added {
            number: part.facts.number,
            rows: part.facts.rows,
            bytes: part.facts.bytes,
        })?;
    }
    Ok(Sequence::from_vec(added))
}

fn part_numbers(alloc: Global, parts: &[StoredPart]) -> Result<Vec<u64>, AllocError>
    ensures { IfOk result (λ numbers. numbers.items ≡ map number_as parts.now) }
{
    let mut numbers = Vec::with_capacity(alloc, parts.len())?;
    for part in parts {
        numbers.push(part.facts.number)?;
    }
    Ok(numbers)
}

// One more layout of a table, unless no part goes and none comes; without memory it stays as it was.
fn change_layout(
    table: &mut TableState,
    moment: u64,
    gone: &[u64],
    added: &[u64],
) -> Result<(), AllocError>
    requires later { last_begun table.old.facts.layouts ≤ moment }
    requires gone_ascends { IsAscending gone.now }
    requires added_ascends { IsAscending added.now }
    requires gone { HasAll (current_of table.old.facts.layouts) gone.now }
    requires added { HasNone (current_of table.old.facts.layouts) added.now }
    ensures ok { OnOk result (table.new ≡ table_after moment gone.now added.now table.old) }
    ensures err { OnErr result (table.new ≡ table.old) }
{
    if gone.is_empty() && added.is_empty() {
        return Ok(());
    }
    table.facts.layouts.push(moment, gone, added)
}

// The same for the table of a number.
fn begin_layout(
    tables: &mut Vec<TableState>,
    table: u32,
    moment: u64,
    gone: &[u64],
    added: &[u64],
) -> Result<(), AllocError>
    requires { MayBegin tables.old.items table moment gone.now added.now }
    ensures ok { OnOk result (tables.new.items ≡ tables_after table moment gone.now added.now tables.old.items) }
    ensures err { OnErr result (tables.new.items ≡ tables.old.items) }
{
    let place = table as usize - 1;
    change_layout(&mut tables[place], moment, gone, added)
}

// The layout of which these parts are added.
fn add_to_layout(
    tables: &mut Vec<TableState>,
    table: u32,
    moment: u64,
    gone: &[u64],
    parts: &[StoredPart],
) -> Result<(), AllocError>
    requires { MayBegin tables.old.items table moment gone.now (map number_as parts.now) }
    ensures ok { OnOk result (tables.new.items
        ≡ tables_after table moment gone.now (map number_as parts.now) tables.old.items) }
    ensures err { OnErr result (tables.new.items ≡ tables.old.items) }
{
    let alloc = *tables.allocator();
    let numbers = part_numbers(alloc, parts)?;
    begin_layout(tables, table, moment, gone, &numbers)
}

/// Keeps the parts that a change adds to a table under the next numbers, from the next moment on without those that are
/// gone, and gives what an entry tells of them. Without memory nothing changes.
pub fn land(
    state: &mut State,
    table: u32,
    gone: &[u64],
    added: Sequence<Partition>,
) -> Result<Sequence<Added>, AllocError>
    requires { MayLand (kept_of state.old) table gone.now }
    ensures ok { OnOk result (kept_of state.new ≡ with_landed (kept_of state.old) table gone.now added) }
    ensures facts { IfOk result (λ facts. facts ≡ facts_from (length (kept_of state.old).parts + 1) added) }
    ensures parts { OnOk result (Every IsPart added) }
    ensures err { OnErr result (kept_of state.new ≡ kept_of state.old) }
{
    let alloc = *state.parts.allocator();
    state.parts.reserve(added.len())?;
    let mut parts = stored_parts(alloc, table, state.parts.len(), added)?;
    let facts = added_facts(alloc, &parts)?;
    let moment = state.moment + 1;
    add_to_layout(&mut state.tables, table, moment, gone, &parts)?;
    let Ok(()) = state.parts.append(&mut parts) else {
        unreachable!()
    };
    Ok(facts)
}
