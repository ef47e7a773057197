//! The one text of a statement: its words, with a blank between any two.
#![tactic(auto, unfolding(crate::specs::text::Words::spaced))]

ghost use Rattle.std.specs.Prelude.{◌≡◌, ◌∷◌, [], OnOk, OnErr, codes};
ghost use Rattle.tt_print.specs.text.Words.{word_if, quoted, table_name_words, Writes, Adds};
ghost use Rattle.tt_print.specs.text.Queries.{query_words};
ghost use Rattle.tt_print.specs.text.Statements.{unit_text, wait_words, table_text, depth_words, metrics_words, statement_words, statement_text};

use crate::changes::write_dml;
use crate::queries::write_query;
use crate::tables::{write_alter, write_cloned, write_created};
use crate::words::{write_if, write_number, write_table_name, write_word};
use std::alloc::AllocError;
use tt_sql::{Query, Statement, TimeUnit, Wait};
use tt_value::TableName;

/// Appends the one text of a statement. A day or a moment outside the years 1 to 9999, which no statement has, is
/// written as the empty text `''`. An error leaves what was there.
pub fn print(statement: &Statement, out: &mut Vec<u8>) -> Result<(), AllocError>
    ensures ok { OnOk result (Adds out.old out.new (statement_text statement.now)) }
    ensures err { OnErr result (out.new.items ≡ out.old.items) }
{
    let mut text = Vec::new(*out.allocator());
    write_statement(statement, &mut text)?;
    match text.split_first() {
        Some((_, text)) => out.extend_from_slice(text),
        None => Ok(()),
    }
}

fn write_statement(statement: &Statement, out: &mut Vec<u8>) -> Result<(), AllocError>
    ensures ok { OnOk result (Writes out.old out.new (statement_words statement.now)) }
{
    match statement {
        Statement::Query(query) => write_query(query, out),
        Statement::Dml(dml) => write_dml(dml, out),
        Statement::Create(created) => write_created(created, out),
        Statement::Clone(cloned) => write_cloned(cloned, out),
        Statement::Drop(table) => write_on_table(b"DROP", table, out),
        Statement::Undrop(table) => write_on_table(b"UNDROP", table, out),
        Statement::Truncate(table) => write_on_table(b"TRUNCATE", table, out),
        Statement::Alter(alter) => write_alter(alter, out),
        Statement::Begin => write_word(b"BEGIN", out),
        Statement::Commit => write_word(b"COMMIT", out),
        Statement::Rollback => write_word(b"ROLLBACK", out),
        Statement::Wait(wait) => write_wait(wait, out),
        Statement::Explain(query) => write_explain(query, out),
        Statement::Show(history) => write_show(*history, out),
        Statement::Metrics => write_metrics(out),
        Statement::Depth(table) => write_depth(table, out),
    }
}

fn write_explain(query: &Query, out: &mut Vec<u8>) -> Result<(), AllocError>
    ensures ok { OnOk result (Writes out.old out.new (codes "EXPLAIN" ∷ query_words query.now)) }
{
    write_word(b"EXPLAIN", out)?;
    write_query(query, out)?;
    Ok(())
}

fn write_show(history: bool, out: &mut Vec<u8>) -> Result<(), AllocError>
    ensures ok { OnOk result (Writes out.old out.new
        (codes "SHOW" ∷ codes "TABLES" ∷ word_if history (codes "HISTORY"))) }
{
    write_word(b"SHOW", out)?;
    write_word(b"TABLES", out)?;
    write_if(history, b"HISTORY", out)?;
    Ok(())
}

/// Writes the word, TABLE and the table's name.
fn write_on_table(word: &[u8], table: &TableName, out: &mut Vec<u8>) -> Result<(), AllocError>
    ensures ok { OnOk result (Writes out.old out.new
        (word.now ∷ codes "TABLE" ∷ table_name_words table.now)) }
{
    write_word(word, out)?;
    write_word(b"TABLE", out)?;
    write_table_name(table, out)?;
    Ok(())
}

fn write_wait(wait: &Wait, out: &mut Vec<u8>) -> Result<(), AllocError>
    ensures ok { OnOk result (Writes out.old out.new (wait_words wait.now)) }
{
    write_word(b"CALL", out)?;
    write_word(b"SYSTEM$WAIT", out)?;
    write_word(b"(", out)?;
    write_number(&wait.amount, out)?;
    write_word(b",", out)?;
    write_unit(wait.unit, out)?;
    write_word(b")", out)?;
    Ok(())
}

fn write_unit(unit: TimeUnit, out: &mut Vec<u8>) -> Result<(), AllocError>
    ensures ok { OnOk result (Writes out.old out.new (quoted (unit_text unit) ∷ [])) }
{
    match unit {
        TimeUnit::Days => write_word(b"'DAYS'", out),
        TimeUnit::Hours => write_word(b"'HOURS'", out),
        TimeUnit::Minutes => write_word(b"'MINUTES'", out),
        TimeUnit::Seconds => write_word(b"'SECONDS'", out),
        TimeUnit::Milliseconds => write_word(b"'MILLISECONDS'", out),
    }
}

fn write_metrics(out: &mut Vec<u8>) -> Result<(), AllocError>
    ensures ok { OnOk result (Writes out.old out.new metrics_words) }
{
    write_word(b"SELECT", out)?;
    write_word(b"*", out)?;
    write_word(b"FROM", out)?;
    write_word(b"INFORMATION_SCHEMA", out)?;
    write_word(b".", out)?;
    write_word(b"TABLE_STORAGE_METRICS", out)?;
    Ok(())
}

fn write_depth(table: &TableName, out: &mut Vec<u8>) -> Result<(), AllocError>
    ensures ok { OnOk result (Writes out.old out.new (depth_words table.now)) }
{
    write_word(b"SELECT", out)?;
    write_word(b"SYSTEM$CLUSTERING_DEPTH", out)?;
    write_word(b"(", out)?;
    write_quoted_name(table, out)?;
    write_word(b")", out)?;
    Ok(())
}

fn write_quoted_name(table: &TableName, out: &mut Vec<u8>) -> Result<(), AllocError>
    ensures ok { OnOk result (Writes out.old out.new (table_text table.now ∷ [])) }
{
    out.extend_from_slice(b" '")?;
    if let Some(schema) = &table.schema {
        out.extend_from_slice(schema.text.as_str().as_bytes())?;
        out.push(b'.')?;
    }
    out.extend_from_slice(table.name.text.as_str().as_bytes())?;
    out.push(b'\'')?;
    Ok(())
}
