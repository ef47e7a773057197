//! Statements that change the rows of a table.
#![tactic(auto, unfolding(crate::specs::text::Words::spaced))]

ghost use Rattle.std.specs.Prelude.{map, OnOk};
ghost use Rattle.tt_print.specs.text.Words.{listed, words_if, Writes};
ghost use Rattle.tt_print.specs.text.Changes.{column_list_words, tuple_words, values_words, insert_source_words, insert_words, set_words, update_words, delete_words, copy_words, dml_words};

use crate::expressions::write_expr;
use crate::predicates::write_filter;
use crate::queries::write_query;
use crate::words::{
    write_literals, write_name, write_names, write_quoted, write_table_name, write_word,
};
use sqlite_items::Items;
use std::alloc::AllocError;
use tt_sql::{Copy, Delete, Dml, Insert, InsertSource, Set, Tuple, Update};
use tt_value::Name;

/// Writes INSERT, UPDATE, DELETE or COPY, from its first word to its last.
pub fn write_dml(dml: &Dml, out: &mut Vec<u8>) -> Result<(), AllocError>
    ensures ok { OnOk result (Writes out.old out.new (dml_words dml.now)) }
{
    match dml {
        Dml::Insert(insert) => write_insert(insert, out),
        Dml::Update(update) => write_update(update, out),
        Dml::Delete(delete) => write_delete(delete, out),
        Dml::Copy(copy) => write_copy(copy, out),
    }
}

fn write_insert(insert: &Insert, out: &mut Vec<u8>) -> Result<(), AllocError>
    ensures ok { OnOk result (Writes out.old out.new (insert_words insert.now)) }
{
    write_word(b"INSERT", out)?;
    write_word(b"INTO", out)?;
    write_table_name(&insert.table, out)?;
    write_column_list_if(&insert.columns, out)?;
    write_insert_source(&insert.source, out)?;
    Ok(())
}

fn write_column_list_if(columns: &Option<Items<Name>>, out: &mut Vec<u8>) -> Result<(), AllocError>
    ensures ok { OnOk result (Writes out.old out.new (words_if column_list_words columns.now)) }
{
    match columns {
        Some(columns) => write_column_list(columns.as_slice(), out),
        None => Ok(()),
    }
}

fn write_column_list(columns: &[Name], out: &mut Vec<u8>) -> Result<(), AllocError>
    ensures ok { OnOk result (Writes out.old out.new (column_list_words columns.now)) }
{
    write_word(b"(", out)?;
    write_names(columns, out)?;
    write_word(b")", out)?;
    Ok(())
}

fn write_insert_source(source: &InsertSource, out: &mut Vec<u8>) -> Result<(), AllocError>
    ensures ok { OnOk result (Writes out.old out.new (insert_source_words source.now)) }
{
    match source {
        InsertSource::Values(tuples) => write_values(tuples.as_slice(), out),
        InsertSource::Query(query) => write_query(query, out),
    }
}

fn write_values(tuples: &[Tuple], out: &mut Vec<u8>) -> Result<(), AllocError>
    ensures ok { OnOk result (Writes out.old out.new (values_words tuples.now)) }
{
    write_word(b"VALUES", out)?;
    write_tuples(tuples, out)?;
    Ok(())
}

fn write_tuples(tuples: &[Tuple], out: &mut Vec<u8>) -> Result<(), AllocError>
    ensures ok { OnOk result (Writes out.old out.new (listed (map tuple_words tuples.now))) }
{
    let Some((first, others)) = tuples.split_first() else {
        return Ok(());
    };
    write_tuple(first, out)?;
    for tuple in others {
        write_word(b",", out)?;
        write_tuple(tuple, out)?;
    }
    Ok(())
}

fn write_tuple(tuple: &Tuple, out: &mut Vec<u8>) -> Result<(), AllocError>
    ensures ok { OnOk result (Writes out.old out.new (tuple_words tuple.now)) }
{
    write_word(b"(", out)?;
    write_literals(tuple.values.as_slice(), out)?;
    write_word(b")", out)?;
    Ok(())
}

fn write_update(update: &Update, out: &mut Vec<u8>) -> Result<(), AllocError>
    ensures ok { OnOk result (Writes out.old out.new (update_words update.now)) }
{
    write_word(b"UPDATE", out)?;
    write_table_name(&update.table, out)?;
    write_word(b"SET", out)?;
    write_sets(update.sets.as_slice(), out)?;
    write_filter(&update.filter, out)?;
    Ok(())
}

fn write_sets(sets: &[Set], out: &mut Vec<u8>) -> Result<(), AllocError>
    ensures ok { OnOk result (Writes out.old out.new (listed (map set_words sets.now))) }
{
    let Some((first, others)) = sets.split_first() else {
        return Ok(());
    };
    write_set(first, out)?;
    for set in others {
        write_word(b",", out)?;
        write_set(set, out)?;
    }
    Ok(())
}

fn write_set(set: &Set, out: &mut Vec<u8>) -> Result<(), AllocError>
    ensures ok { OnOk result (Writes out.old out.new (set_words set.now)) }
{
    write_name(&set.column, out)?;
    write_word(b"=", out)?;
    write_expr(&set.value, out)?;
    Ok(())
}

fn write_delete(delete: &Delete, out: &mut Vec<u8>) -> Result<(), AllocError>
    ensures ok { OnOk result (Writes out.old out.new (delete_words delete.now)) }
{
    write_word(b"DELETE", out)?;
    write_word(b"FROM", out)?;
    write_table_name(&delete.table, out)?;
    write_filter(&delete.filter, out)?;
    Ok(())
}

fn write_copy(copy: &Copy, out: &mut Vec<u8>) -> Result<(), AllocError>
    ensures ok { OnOk result (Writes out.old out.new (copy_words copy.now)) }
{
    write_word(b"COPY", out)?;
    write_word(b"INTO", out)?;
    write_table_name(&copy.table, out)?;
    write_word(b"FROM", out)?;
    write_quoted(&copy.file, out)?;
    Ok(())
}
