//! Statements that make and change tables.
#![tactic(auto, unfolding(crate::specs::text::Words::spaced))]

ghost use Rattle.std.specs.Prelude.{◌∷◌, [], map, OnOk, codes};
ghost use Rattle.tt_print.specs.text.Words.{listed, words_if, table_name_words, Writes};
ghost use Rattle.tt_print.specs.text.Tables.{create_words, table_kind_words, kind_word, column_words, cluster_words, retention_words, options_words, created_words, cloned_words, change_words, alter_words};

use crate::queries::write_source;
use crate::words::{write_if, write_name, write_number, write_table_name, write_word};
use std::alloc::AllocError;
use tt_sql::{Alter, Change, ClonedTable, ColumnDefinition, CreatedTable, TableKind, TableOptions};
use tt_value::{Kind, Name, Number, TableName};

/// Writes CREATE TABLE with its columns. CLUSTER BY stands in front of the retention.
pub fn write_created(created: &CreatedTable, out: &mut Vec<u8>) -> Result<(), AllocError>
    ensures ok { OnOk result (Writes out.old out.new (created_words created.now)) }
{
    write_create(created.replaces, created.kind, out)?;
    write_table_name(&created.table, out)?;
    write_word(b"(", out)?;
    write_columns(created.columns.as_slice(), out)?;
    write_word(b")", out)?;
    write_options(&created.options, out)?;
    Ok(())
}

/// Writes CREATE TABLE with CLONE, and the moment of the source if it has one.
pub fn write_cloned(cloned: &ClonedTable, out: &mut Vec<u8>) -> Result<(), AllocError>
    ensures ok { OnOk result (Writes out.old out.new (cloned_words cloned.now)) }
{
    write_create(cloned.replaces, cloned.kind, out)?;
    write_table_name(&cloned.table, out)?;
    write_word(b"CLONE", out)?;
    write_source(&cloned.source, out)?;
    Ok(())
}

fn write_create(replaces: bool, kind: TableKind, out: &mut Vec<u8>) -> Result<(), AllocError>
    ensures ok { OnOk result (Writes out.old out.new (create_words replaces kind)) }
{
    write_word(b"CREATE", out)?;
    write_if(replaces, b"OR", out)?;
    write_if(replaces, b"REPLACE", out)?;
    write_table_kind(kind, out)?;
    write_word(b"TABLE", out)?;
    Ok(())
}

fn write_table_kind(kind: TableKind, out: &mut Vec<u8>) -> Result<(), AllocError>
    ensures ok { OnOk result (Writes out.old out.new (table_kind_words kind)) }
{
    match kind {
        TableKind::Permanent => Ok(()),
        TableKind::Transient => write_word(b"TRANSIENT", out),
        TableKind::Temporary => write_word(b"TEMPORARY", out),
    }
}

fn write_columns(columns: &[ColumnDefinition], out: &mut Vec<u8>) -> Result<(), AllocError>
    ensures ok { OnOk result (Writes out.old out.new (listed (map column_words columns.now))) }
{
    let Some((first, others)) = columns.split_first() else {
        return Ok(());
    };
    write_column(first, out)?;
    for column in others {
        write_word(b",", out)?;
        write_column(column, out)?;
    }
    Ok(())
}

fn write_column(column: &ColumnDefinition, out: &mut Vec<u8>) -> Result<(), AllocError>
    ensures ok { OnOk result (Writes out.old out.new (column_words column.now)) }
{
    write_name(&column.name, out)?;
    write_kind(column.kind, out)?;
    write_if(column.not_null, b"NOT", out)?;
    write_if(column.not_null, b"NULL", out)?;
    Ok(())
}

fn write_kind(kind: Kind, out: &mut Vec<u8>) -> Result<(), AllocError>
    ensures ok { OnOk result (Writes out.old out.new (kind_word kind ∷ [])) }
{
    match kind {
        Kind::Int => write_word(b"INT", out),
        Kind::Date => write_word(b"DATE", out),
        Kind::Varchar => write_word(b"VARCHAR", out),
    }
}

fn write_options(options: &TableOptions, out: &mut Vec<u8>) -> Result<(), AllocError>
    ensures ok { OnOk result (Writes out.old out.new (options_words options.now)) }
{
    write_cluster_if(&options.cluster_by, out)?;
    write_retention_if(&options.retention, out)?;
    Ok(())
}

fn write_cluster_if(column: &Option<Name>, out: &mut Vec<u8>) -> Result<(), AllocError>
    ensures ok { OnOk result (Writes out.old out.new (words_if cluster_words column.now)) }
{
    match column {
        Some(column) => write_cluster(column, out),
        None => Ok(()),
    }
}

fn write_retention_if(days: &Option<Number>, out: &mut Vec<u8>) -> Result<(), AllocError>
    ensures ok { OnOk result (Writes out.old out.new (words_if retention_words days.now)) }
{
    match days {
        Some(days) => write_retention(days, out),
        None => Ok(()),
    }
}

fn write_cluster(column: &Name, out: &mut Vec<u8>) -> Result<(), AllocError>
    ensures ok { OnOk result (Writes out.old out.new (cluster_words column.now)) }
{
    write_word(b"CLUSTER", out)?;
    write_word(b"BY", out)?;
    write_word(b"(", out)?;
    write_name(column, out)?;
    write_word(b")", out)?;
    Ok(())
}

fn write_retention(days: &Number, out: &mut Vec<u8>) -> Result<(), AllocError>
    ensures ok { OnOk result (Writes out.old out.new (retention_words days.now)) }
{
    write_word(b"DATA_RETENTION_TIME_IN_DAYS", out)?;
    write_word(b"=", out)?;
    write_number(days, out)?;
    Ok(())
}

/// Writes ALTER TABLE, the table's name and the change.
pub fn write_alter(alter: &Alter, out: &mut Vec<u8>) -> Result<(), AllocError>
    ensures ok { OnOk result (Writes out.old out.new (alter_words alter.now)) }
{
    write_word(b"ALTER", out)?;
    write_word(b"TABLE", out)?;
    write_table_name(&alter.table, out)?;
    write_change(&alter.change, out)?;
    Ok(())
}

fn write_change(change: &Change, out: &mut Vec<u8>) -> Result<(), AllocError>
    ensures ok { OnOk result (Writes out.old out.new (change_words change.now)) }
{
    match change {
        Change::RenameTo(table) => write_with_table(b"RENAME", b"TO", table, out),
        Change::SwapWith(table) => write_with_table(b"SWAP", b"WITH", table, out),
        Change::SetRetention(days) => write_set_retention(days, out),
        Change::ClusterBy(column) => write_cluster(column, out),
        Change::DropClusteringKey => write_drop_key(out),
        Change::SuspendRecluster => write_recluster(b"SUSPEND", out),
        Change::ResumeRecluster => write_recluster(b"RESUME", out),
    }
}

fn write_with_table(
    first: &[u8],
    second: &[u8],
    table: &TableName,
    out: &mut Vec<u8>,
) -> Result<(), AllocError>
    ensures ok { OnOk result (Writes out.old out.new
        (first.now ∷ second.now ∷ table_name_words table.now)) }
{
    write_word(first, out)?;
    write_word(second, out)?;
    write_table_name(table, out)?;
    Ok(())
}

fn write_set_retention(days: &Number, out: &mut Vec<u8>) -> Result<(), AllocError>
    ensures ok { OnOk result (Writes out.old out.new (codes "SET" ∷ retention_words days.now)) }
{
    write_word(b"SET", out)?;
    write_retention(days, out)?;
    Ok(())
}

fn write_drop_key(out: &mut Vec<u8>) -> Result<(), AllocError>
    ensures ok { OnOk result (Writes out.old out.new
        (codes "DROP" ∷ codes "CLUSTERING" ∷ codes "KEY" ∷ [])) }
{
    write_word(b"DROP", out)?;
    write_word(b"CLUSTERING", out)?;
    write_word(b"KEY", out)?;
    Ok(())
}

fn write_recluster(word: &[u8], out: &mut Vec<u8>) -> Result<(), AllocError>
    ensures ok { OnOk result (Writes out.old out.new (word.now ∷ codes "RECLUSTER" ∷ [])) }
{
    write_word(word, out)?;
    write_word(b"RECLUSTER", out)?;
    Ok(())
}
