//! Readers of statements that make and change tables.

ghost use Rattle.std.specs.Prelude.{[], IfOk, ⊤};
ghost use Rattle.tt_sql.specs.marks.Expressions.{name_marks, number_marks, table_marks};
ghost use Rattle.tt_sql.specs.grammar.Combinators.{brackets, listed, maybe, name as name_part, number as number_part, one, ◌▸◌};
ghost use Rattle.tt_sql.specs.determined.Queries.{IsAloneTable, IsGivenSource};
ghost use Rattle.tt_sql.specs.trees.Lists.{IsListed};
ghost use Rattle.tt_sql.specs.machine.Factored.{read_create};
ghost use Rattle.tt_sql.specs.determined.Statements.{IsGivenStatement};
ghost use Rattle.tt_sql.specs.marks.Statements.{statement_marks};
ghost use Rattle.tt_sql.specs.marks.Tables.{alter_marks, change_marks, definition_marks, kind_marks, options_marks, table_kind_marks};
ghost use Rattle.tt_sql.specs.grammar.TokenKinds.{BY, EQUAL, TRANSIENT};
ghost use Rattle.tt_sql.specs.grammar.Written.{alter, change, column, create_front, drop_table, kind, options, retention, truncate, undrop};
ghost use Rattle.tt_parse.specs.Created.{columns, columns_marks, origin, origin_marks, create_front_marks, retained, upkeep};
ghost use Rattle.tt_terminal.specs.Reading.{IsKnown, Passes};
ghost use Rattle.tt_terminal.specs.Readers.{ReadsPart, ReadsList, ReadsMaybe};

use sqlite_items::Items;
use std::alloc::Global;
use tt_phrase::moment::optional_clause;
use tt_sql::{
    Alter, Change, ClonedTable, ColumnDefinition, CreatedTable, Name, Number, Source, Statement,
    TableKind, TableName, TableOptions,
};
use tt_terminal::error::ParseError;
use tt_terminal::fixed::{after, any_word, flag_of_both, past, stands};
use tt_terminal::kind::LexemeKind;
use tt_terminal::name::{name_of, number_of, optional_name, optional_number, table_of};
use tt_terminal::pair::{followed, paired};
use tt_terminal::rest::Rest;
use tt_value::Kind;

/// The kind of a column.
fn kind_of(rest: Rest<'_>) -> Result<(Kind, Rest<'_>), ParseError>
    requires { IsKnown rest }
    ensures { ReadsPart kind_marks kind rest.entry result }
{
    if let Some(rest) = any_word(
        LexemeKind::Int,
        LexemeKind::Integer,
        LexemeKind::Bigint,
        rest,
    ) {
        return Ok((Kind::Int, rest));
    }
    if let Some(rest) = rest.word(LexemeKind::Date) {
        return Ok((Kind::Date, rest));
    }
    if let Some(rest) = any_word(
        LexemeKind::Varchar,
        LexemeKind::String,
        LexemeKind::Text,
        rest,
    ) {
        return Ok((Kind::Varchar, rest));
    }
    Err(rest.fault())
}

/// A column of a new table.
fn definition_of<'a>(
    alloc: Global,
    rest: Rest<'a>,
) -> Result<(ColumnDefinition, Rest<'a>), ParseError>
    requires { IsKnown rest }
    ensures { ReadsPart definition_marks column rest.entry result }
{
    let (name, rest) = name_of(alloc, rest)?;
    let (kind, rest) = kind_of(rest)?;
    let (not_null, rest) = flag_of_both(LexemeKind::Not, LexemeKind::Null, rest)?;
    Ok((
        ColumnDefinition {
            name,
            kind,
            not_null,
        },
        rest,
    ))
}

/// A name in brackets.
pub fn bracketed_name<'a>(alloc: Global, rest: Rest<'a>) -> Result<(Name, Rest<'a>), ParseError>
    requires { IsKnown rest }
    ensures { ReadsPart name_marks (brackets name_part) rest.entry result }
{
    let rest = after(LexemeKind::Open, rest)?;
    let (name, rest) = name_of(alloc, rest)?;
    let rest = after(LexemeKind::Close, rest)?;
    Ok((name, rest))
}

/// The column behind CLUSTER.
fn cluster_name<'a>(alloc: Global, rest: Rest<'a>) -> Result<(Name, Rest<'a>), ParseError>
    requires { IsKnown rest }
    ensures { ReadsPart name_marks (one BY ▸ brackets name_part) rest.entry result }
{
    let rest = after(LexemeKind::By, rest)?;
    bracketed_name(alloc, rest)
}

/// The number of days behind DATA_RETENTION_TIME_IN_DAYS.
fn days_of(rest: Rest<'_>) -> Result<(Number, Rest<'_>), ParseError>
    requires { IsKnown rest }
    ensures { ReadsPart number_marks (one EQUAL ▸ number_part) rest.entry result }
{
    let rest = after(LexemeKind::Equal, rest)?;
    number_of(rest)
}

/// The columns of a new table, in brackets.
fn definitions_of<'a>(
    alloc: Global,
    rest: Rest<'a>,
) -> Result<(Items<ColumnDefinition>, Rest<'a>), ParseError>
    requires { IsKnown rest }
    ensures reads { ReadsList definition_marks (listed column) rest.entry result }
    ensures given { IfOk result (λ x. IsListed (λ d. ⊤) x.0) }
{
    let mut columns = Items::new(alloc);
    let mut left = rest;
    loop {
        let (part, behind) = definition_of(alloc, left)?;
        columns.push(part)?;
        let Some(next) = behind.word(LexemeKind::Comma) else {
            return Ok((columns, behind));
        };
        left = next;
    }
}

/// The options of a new table.
fn options_of<'a>(alloc: Global, rest: Rest<'a>) -> Result<(TableOptions, Rest<'a>), ParseError>
    requires { IsKnown rest }
    ensures { ReadsPart options_marks options rest.entry result }
{
    if let Some(rest) = rest.word(LexemeKind::Cluster) {
        let (name, rest) = cluster_name(alloc, rest)?;
        let (retention, rest) = optional_retention(rest)?;
        let cluster_by = Some(name);
        return Ok((
            TableOptions {
                cluster_by,
                retention,
            },
            rest,
        ));
    }
    if let Some(rest) = rest.word(LexemeKind::DataRetentionTimeInDays) {
        return retained_options(alloc, rest);
    }
    let (cluster_by, retention) = (None, None);
    Ok((
        TableOptions {
            cluster_by,
            retention,
        },
        rest,
    ))
}

/// Options that begin with DATA_RETENTION_TIME_IN_DAYS, behind this word.
fn retained_options<'a>(
    alloc: Global,
    rest: Rest<'a>,
) -> Result<(TableOptions, Rest<'a>), ParseError>
    requires { IsKnown rest }
    ensures { ReadsPart options_marks retained rest.entry result }
{
    let rest = after(LexemeKind::Equal, rest)?;
    let Some((days, rest)) = optional_number(rest) else {
        return Err(rest.fault());
    };
    let retention = Some(days);
    let Some(rest) = rest.word(LexemeKind::Cluster) else {
        let cluster_by = None;
        return Ok((
            TableOptions {
                cluster_by,
                retention,
            },
            rest,
        ));
    };
    let Some(rest) = rest.word(LexemeKind::By) else {
        return Err(rest.fault());
    };
    let Some(rest) = rest.word(LexemeKind::Open) else {
        return Err(rest.fault());
    };
    let Some((name, rest)) = optional_name(alloc, rest)? else {
        return Err(rest.fault());
    };
    let Some(rest) = rest.word(LexemeKind::Close) else {
        return Err(rest.fault());
    };
    let cluster_by = Some(name);
    Ok((
        TableOptions {
            cluster_by,
            retention,
        },
        rest,
    ))
}

/// The retention, if it stands here.
fn optional_retention(rest: Rest<'_>) -> Result<(Option<Number>, Rest<'_>), ParseError>
    requires { IsKnown rest }
    ensures { ReadsMaybe number_marks (maybe retention) rest.entry result }
{
    let Some(rest) = rest.word(LexemeKind::DataRetentionTimeInDays) else {
        return Ok((None, rest));
    };
    let (days, rest) = days_of(rest)?;
    Ok((Some(days), rest))
}

/// What CREATE begins with: whether the table replaces another one, whether it is transient, and its name.
fn front_of<'a>(
    alloc: Global,
    rest: Rest<'a>,
) -> Result<((bool, TableKind, TableName), Rest<'a>), ParseError>
    requires { IsKnown rest }
    ensures { ReadsPart create_front_marks create_front rest.entry result }
{
    let rest = after(LexemeKind::Create, rest)?;
    let (replaces, rest) = flag_of_both(LexemeKind::Or, LexemeKind::Replace, rest)?;
    let (kind, rest) = table_kind_of(rest);
    let rest = after(LexemeKind::Table, rest)?;
    let (table, rest) = table_of(alloc, rest)?;
    Ok(((replaces, kind, table), rest))
}

/// The columns of a new table, in brackets, and its options.
fn columns_of<'a>(
    alloc: Global,
    rest: Rest<'a>,
) -> Result<((Items<ColumnDefinition>, TableOptions), Rest<'a>), ParseError>
    requires { IsKnown rest }
    ensures reads { ReadsPart columns_marks columns rest.entry result }
    ensures given { IfOk result (λ x. IsListed (λ d. ⊤) x.0.0) }
{
    let rest = after(LexemeKind::Open, rest)?;
    let (list, rest) = definitions_of(alloc, rest)?;
    let (whole, rest) = followed(LexemeKind::Close, list, rest)?;
    let (columns, options, rest) = paired(whole, options_of(alloc, rest))?;
    Ok(((columns, options), rest))
}

/// The table of which a new one is a clone, and the moment.
fn origin_of<'a>(alloc: Global, rest: Rest<'a>) -> Result<(Source, Rest<'a>), ParseError>
    requires { IsKnown rest }
    ensures reads { ReadsPart origin_marks origin rest.entry result }
    ensures given { IfOk result (λ x. IsGivenSource x.0) }
{
    let rest = after(LexemeKind::Clone, rest)?;
    let (name, rest) = table_of(alloc, rest)?;
    let (table, clause, rest) = paired(name, optional_clause(alloc, rest))?;
    Ok((Source { table, clause }, rest))
}

/// CREATE TABLE, with columns or as a clone.
pub fn create_of<'a>(alloc: Global, rest: Rest<'a>) -> Result<(Statement, Rest<'a>), ParseError>
    requires { IsKnown rest }
    ensures reads { ReadsPart statement_marks read_create rest.entry result }
    ensures given { IfOk result (λ x. IsGivenStatement x.0) }
{
    let (front, rest) = front_of(alloc, rest)?;
    if stands(LexemeKind::Open, rest) {
        let (head, parts, rest) = paired(front, columns_of(alloc, rest))?;
        let (replaces, kind, table) = head;
        let (columns, options) = parts;
        let created = CreatedTable {
            replaces,
            kind,
            table,
            columns,
            options,
        };
        return Ok((Statement::Create(created), rest));
    }
    let (beginning, source, rest) = paired(front, origin_of(alloc, rest))?;
    let (replaces, kind, table) = beginning;
    let cloned = ClonedTable {
        replaces,
        kind,
        table,
        source,
    };
    Ok((Statement::Clone(cloned), rest))
}

/// Whether a new table is transient.
fn table_kind_of(rest: Rest<'_>) -> (TableKind, Rest<'_>)
    requires { IsKnown rest }
    ensures { Passes [] (maybe (one TRANSIENT)) rest.entry (table_kind_marks result.0) result.1 }
{
    match rest.word(LexemeKind::Transient) {
        Some(behind) => (TableKind::Transient, behind),
        None => (TableKind::Permanent, rest),
    }
}

/// DROP TABLE.
pub fn drop_of<'a>(alloc: Global, rest: Rest<'a>) -> Result<(TableName, Rest<'a>), ParseError>
    requires { IsKnown rest }
    ensures reads { ReadsPart table_marks drop_table rest.entry result }
    ensures given { IfOk result (λ x. IsAloneTable x.0) }
{
    let rest = after(LexemeKind::Drop, rest)?;
    let rest = after(LexemeKind::Table, rest)?;
    table_of(alloc, rest)
}

/// UNDROP TABLE.
pub fn undrop_of<'a>(alloc: Global, rest: Rest<'a>) -> Result<(TableName, Rest<'a>), ParseError>
    requires { IsKnown rest }
    ensures reads { ReadsPart table_marks undrop rest.entry result }
    ensures given { IfOk result (λ x. IsAloneTable x.0) }
{
    let rest = after(LexemeKind::Undrop, rest)?;
    let rest = after(LexemeKind::Table, rest)?;
    table_of(alloc, rest)
}

/// TRUNCATE TABLE.
pub fn truncate_of<'a>(alloc: Global, rest: Rest<'a>) -> Result<(TableName, Rest<'a>), ParseError>
    requires { IsKnown rest }
    ensures reads { ReadsPart table_marks truncate rest.entry result }
    ensures given { IfOk result (λ x. IsAloneTable x.0) }
{
    let rest = after(LexemeKind::Truncate, rest)?;
    let rest = past(LexemeKind::Table, rest);
    table_of(alloc, rest)
}

/// ALTER TABLE.
pub fn alter_of<'a>(alloc: Global, rest: Rest<'a>) -> Result<(Alter, Rest<'a>), ParseError>
    requires { IsKnown rest }
    ensures { ReadsPart alter_marks alter rest.entry result }
{
    let rest = after(LexemeKind::Alter, rest)?;
    let rest = after(LexemeKind::Table, rest)?;
    let (table, rest) = table_of(alloc, rest)?;
    let (change, rest) = change_of(alloc, rest)?;
    Ok((Alter { table, change }, rest))
}

/// What ALTER TABLE changes.
fn change_of<'a>(alloc: Global, rest: Rest<'a>) -> Result<(Change, Rest<'a>), ParseError>
    requires { IsKnown rest }
    ensures { ReadsPart change_marks change rest.entry result }
{
    if let Some(rest) = rest.word(LexemeKind::Rename) {
        let rest = after(LexemeKind::To, rest)?;
        let (table, rest) = table_of(alloc, rest)?;
        return Ok((Change::RenameTo(table), rest));
    }
    if let Some(rest) = rest.word(LexemeKind::Swap) {
        let rest = after(LexemeKind::With, rest)?;
        let (table, rest) = table_of(alloc, rest)?;
        return Ok((Change::SwapWith(table), rest));
    }
    if let Some(rest) = rest.word(LexemeKind::Set) {
        let rest = after(LexemeKind::DataRetentionTimeInDays, rest)?;
        let (days, rest) = days_of(rest)?;
        return Ok((Change::SetRetention(days), rest));
    }
    if let Some(rest) = rest.word(LexemeKind::Cluster) {
        let (name, rest) = cluster_name(alloc, rest)?;
        return Ok((Change::ClusterBy(name), rest));
    }
    upkeep_of(rest)
}

/// The changes that have no name and no number.
fn upkeep_of(rest: Rest<'_>) -> Result<(Change, Rest<'_>), ParseError>
    requires { IsKnown rest }
    ensures { ReadsPart change_marks upkeep rest.entry result }
{
    if let Some(rest) = rest.word(LexemeKind::Drop) {
        let rest = after(LexemeKind::Clustering, rest)?;
        let rest = after(LexemeKind::Key, rest)?;
        return Ok((Change::DropClusteringKey, rest));
    }
    if let Some(rest) = rest.word(LexemeKind::Suspend) {
        let rest = after(LexemeKind::Recluster, rest)?;
        return Ok((Change::SuspendRecluster, rest));
    }
    let rest = after(LexemeKind::Resume, rest)?;
    let rest = after(LexemeKind::Recluster, rest)?;
    Ok((Change::ResumeRecluster, rest))
}
