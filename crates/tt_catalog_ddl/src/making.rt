//! The tables that CREATE TABLE makes.

ghost use Rattle.std.specs.Prelude.{◌≡◌, [], ◌∷◌, ◌+◌, ◌<◌, ◌^◌, IfOk, OnErr, OnOk, length, map};
ghost use Rattle.tt_plain.specs.definition.Create.{column_made, schema_made};
ghost use Rattle.tt_retain.specs.Retention.{first_retention};
ghost use Rattle.tt_names.specs.Registry.{IsFree};
ghost use Rattle.tt_state.specs.Kept.{kept_of};
ghost use Rattle.tt_catalog_ddl.specs.Creates.{facts_made, table_made, with_made, with_table};

use std::alloc::{AllocError, Global};
use tt_layout::{Layouts, TableFacts};
use tt_retain::Regimes;
use tt_sql::{ColumnDefinition, CreatedTable};
use tt_state::{State, TableState};
use tt_value::{Column, Schema, Sequence};

fn make_column(definition: &ColumnDefinition) -> Result<Column, AllocError>
    ensures { IfOk result (λ column. column ≡ column_made definition.now) }
{
    Ok(Column {
        name: definition.name.text.clone()?,
        kind: definition.kind,
        nullable: !definition.not_null,
    })
}

fn make_columns(alloc: Global, definitions: &[ColumnDefinition]) -> Result<Vec<Column>, AllocError>
    ensures { IfOk result (λ columns. columns.items ≡ map column_made definitions.now) }
{
    let mut columns = Vec::new(alloc);
    for definition in definitions {
        columns.push(make_column(definition)?)?;
    }
    Ok(columns)
}

fn make_schema(alloc: Global, create: &CreatedTable) -> Result<Schema, AllocError>
    ensures { IfOk result (λ schema. schema ≡ schema_made create.now.columns) }
{
    let columns = make_columns(alloc, create.columns.as_slice())?;
    Ok(Schema {
        columns: Sequence::from_vec(columns),
    })
}

// The facts of a table without parts, which keeps its past for a day.
fn make_facts(
    alloc: Global,
    number: u32,
    moment: u64,
    create: &CreatedTable,
) -> Result<TableFacts, AllocError>
    requires { moment < 2 ^ 62 }
    ensures { IfOk result (λ facts. facts ≡ facts_made number moment create.now) }
{
    Ok(TableFacts {
        number,
        name: create.table.name.text.clone()?,
        group: number,
        made: moment,
        dropped: None,
        regimes: Regimes::new(alloc, moment, 1, false)?,
        layouts: Layouts::new(alloc, moment, Vec::new(alloc))?,
    })
}

fn make_table(
    alloc: Global,
    number: u32,
    moment: u64,
    create: &CreatedTable,
) -> Result<TableState, AllocError>
    requires { moment < 2 ^ 62 }
    ensures { IfOk result (λ table. table ≡ table_made number moment create.now) }
{
    let facts = make_facts(alloc, number, moment, create)?;
    let schema = make_schema(alloc, create)?;
    Ok(TableState {
        facts,
        schema,
        transient: false,
        key: None,
        suspended: false,
    })
}

// One more table under its name; without memory nothing changes.
fn put_table(state: &mut State, table: TableState) -> Result<(), AllocError>
    requires { IsFree table.facts.name (kept_of state.old).names }
    ensures ok { OnOk result (kept_of state.new ≡ with_table (kept_of state.old) table) }
    ensures err { OnErr result (kept_of state.new ≡ kept_of state.old) }
{
    let number = table.facts.number;
    let name = table.facts.name.clone()?;
    state.tables.reserve(1)?;
    state.names.bind(name, number)?;
    state.tables.push_reserved(table);
    Ok(())
}

/// Makes the table of a CREATE TABLE, with the next number and from the next moment on; without memory nothing changes.
pub fn add_table(state: &mut State, create: &CreatedTable) -> Result<(), AllocError>
    requires few { length (kept_of state.old).tables + 1 < 2 ^ 32 }
    requires moment { (kept_of state.old).moment + 1 < 2 ^ 62 }
    requires free { IsFree create.now.table.name.text (kept_of state.old).names }
    ensures ok { OnOk result (kept_of state.new ≡ with_made (kept_of state.old) create.now) }
    ensures err { OnErr result (kept_of state.new ≡ kept_of state.old) }
{
    let alloc = *state.tables.allocator();
    let number = state.tables.len() as u32 + 1;
    let table = make_table(alloc, number, state.moment + 1, create)?;
    put_table(state, table)
}
