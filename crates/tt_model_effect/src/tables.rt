//! How tables change.

ghost use Rattle.std.specs.Prelude.{◌≡◌, ◌∷◌, ◌++◌, [], map, fold, IfOk, find, true, ◌==◌};
ghost use Rattle.std.specs.Option.{option_copied, option_map};
ghost use Rattle.tt_retain.specs.Retention.{with_regime};
ghost use Rattle.tt_plain.specs.effect.Apply as spec;
ghost use Rattle.tt_model_effect.specs.Allowed.{Takes, TakesRegime, EachTakes, TakeAll};
ghost use Rattle.tt_model_effect.specs.EffectAs.{table_change_in};
ghost use Rattle.tt_model_effect.specs.OneTable.{changed_one, changed_this, number_in, is_on as is_change_on};

use crate::effect::TableChange;
use std::alloc::AllocError;
use tt_history::SharedBag;
use tt_plain::store::{PlainTable, Version};
use tt_value::Text;

fn add_version(table: &mut PlainTable, moment: u64, rows: &SharedBag) -> Result<(), AllocError>
    ensures { IfOk result (λ _. table.new ≡ spec.with_version moment rows.now table.old) }
{
    let rows = rows.share()?;
    table.versions.push(Version {
        begun: moment,
        rows,
    })?;
    Ok(())
}

fn name_for(names: &[(u32, Text)], number: u32) -> Option<&Text>
    ensures { option_copied result
        ≡ option_map (λ given. given.1) (find (λ given. given.0 == number) names.now) }
{
    let (_, name) = names.iter().find(|given| given.0 == number)?;
    Some(name)
}

fn rename(table: &mut PlainTable, names: &[(u32, Text)]) -> Result<(), AllocError>
    ensures { IfOk result (λ _. table.new ≡ spec.renamed names.now table.old) }
{
    if let Some(name) = name_for(names, table.number) {
        table.name = name.clone()?;
    }
    Ok(())
}

fn add_regime(table: &mut PlainTable, moment: u64, days: u8) -> Result<(), AllocError>
    requires { TakesRegime table.old.number moment days table.old }
    ensures { IfOk result (λ _. table.new
        ≡ record table.old { regimes = with_regime table.old.regimes moment days }) }
{
    table.regimes.set(moment, days)?;
    Ok(())
}

// The table of a number after the change, where the number is that of the change.
fn change_this(table: &mut PlainTable, change: &TableChange) -> Result<(), AllocError>
    requires takes { Takes (table_change_in change.now) table.old }
    requires number { is_change_on (table_change_in change.now) table.old ≡ true }
    ensures { IfOk result (λ _. table.new ≡ changed_this (table_change_in change.now) table.old) }
{
    match change {
        TableChange::Made(_) => {}
        TableChange::Dropped { moment, .. } => table.dropped = Some(*moment),
        TableChange::Undropped { .. } => table.dropped = None,
        TableChange::Renamed { names } => rename(table, names.items())?,
        TableChange::NewVersion { moment, rows, .. } => add_version(table, *moment, rows)?,
        TableChange::NewRegime { moment, days, .. } => add_regime(table, *moment, *days)?,
        TableChange::NewKey { key, .. } => table.key = *key,
        TableChange::Suspended { suspended, .. } => table.suspended = *suspended,
    }
    Ok(())
}

// The number of the one table that a change is on; none where it is on each.
fn number_of(change: &TableChange) -> Option<u32>
    ensures { result ≡ number_in (table_change_in change.now) }
{
    match change {
        TableChange::Made(_) | TableChange::Renamed { .. } => None,
        TableChange::Dropped { table, .. } | TableChange::Undropped { table } => Some(*table),
        TableChange::NewVersion { table, .. } | TableChange::NewRegime { table, .. } => Some(
            *table,
        ),
        TableChange::NewKey { table, .. } | TableChange::Suspended { table, .. } => Some(*table),
    }
}

fn is_on(change: &TableChange, table: &PlainTable) -> bool
    ensures { result ≡ is_change_on (table_change_in change.now) table.now }
{
    match number_of(change) {
        None => true,
        Some(number) => table.number == number,
    }
}

fn change_one(table: &mut PlainTable, change: &TableChange) -> Result<(), AllocError>
    requires { Takes (table_change_in change.now) table.old }
    ensures { IfOk result (λ _. table.new ≡ changed_one (table_change_in change.now) table.old) }
{
    if is_on(change, table) {
        change_this(table, change)?;
    }
    Ok(())
}

fn change_each(tables: &mut Vec<PlainTable>, change: &TableChange) -> Result<(), AllocError>
    requires { EachTakes (table_change_in change.now) tables.old.items }
    ensures { IfOk result (λ _. tables.new.items
        ≡ map (changed_one (table_change_in change.now)) tables.old.items) }
{
    for place in 0..tables.len() {
        change_one(&mut tables[place], change)?;
    }
    Ok(())
}

fn change(tables: &mut Vec<PlainTable>, change: TableChange) -> Result<(), AllocError>
    requires { EachTakes (table_change_in change) tables.old.items }
    ensures { IfOk result (λ _. tables.new.items
        ≡ spec.changed_table tables.old.items (table_change_in change)) }
{
    match change {
        TableChange::Made(table) => {
            tables.push(table)?;
            Ok(())
        }
        other => change_each(tables, &other),
    }
}

/// The tables after some changes, one after the other.
pub fn change_tables(
    tables: &mut Vec<PlainTable>,
    changes: Vec<TableChange>,
) -> Result<(), AllocError>
    requires { TakeAll (map table_change_in changes.items) tables.old.items }
    ensures { IfOk result (λ _. tables.new.items
        ≡ fold spec.changed_table tables.old.items (map table_change_in changes.items)) }
{
    for one in changes {
        change(tables, one)?;
    }
    Ok(())
}
