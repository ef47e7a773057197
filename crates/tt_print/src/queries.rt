//! Queries, and the moments at which they read.
#![tactic(auto, unfolding(crate::specs::text::Words::spaced))]

ghost use Rattle.std.specs.Prelude.{map, OnOk, codes};
ghost use Rattle.std.specs.List.{flat_map};
ghost use Rattle.tt_print.specs.text.Words.{separated, listed, words_if, column_name_words, Writes};
ghost use Rattle.tt_print.specs.text.Queries.{clause_words, source_words, pair_words, join_words, count_all_words, aggregate_words, item_words, selection_words, key_column_words, key_words, group_by_words, group_words, order_by_words, order_words, limit_words, selected_words, narrowed_words, query_words};

use crate::expressions::write_expr;
use crate::moments::write_clause;
use crate::predicates::write_filter;
use crate::words::{write_column_name, write_if, write_number, write_table_name, write_word};
use std::alloc::AllocError;
use tt_sql::{Clause, Item, Join, Key, KeyColumn, Pair, Query, Selection, Source};
use tt_value::{ColumnName, Number};

/// Writes the query from SELECT on. A part that it does not have leaves no word.
pub fn write_query(query: &Query, out: &mut Vec<u8>) -> Result<(), AllocError>
    ensures ok { OnOk result (Writes out.old out.new (query_words query.now)) }
{
    write_selected(query, out)?;
    write_narrowed(query, out)?;
    Ok(())
}

/// What is selected, and from which tables.
fn write_selected(query: &Query, out: &mut Vec<u8>) -> Result<(), AllocError>
    ensures ok { OnOk result (Writes out.old out.new (selected_words query.now)) }
{
    write_word(b"SELECT", out)?;
    write_selection(&query.selection, out)?;
    write_word(b"FROM", out)?;
    write_source(&query.first, out)?;
    write_joins(query.joins.as_slice(), out)?;
    Ok(())
}

/// Which rows, in which groups and which order, and how many.
fn write_narrowed(query: &Query, out: &mut Vec<u8>) -> Result<(), AllocError>
    ensures ok { OnOk result (Writes out.old out.new (narrowed_words query.now)) }
{
    write_filter(&query.filter, out)?;
    write_group(query.group.as_slice(), out)?;
    write_order(query.order.as_slice(), out)?;
    write_limit(&query.limit, out)?;
    Ok(())
}

fn write_selection(selection: &Selection, out: &mut Vec<u8>) -> Result<(), AllocError>
    ensures ok { OnOk result (Writes out.old out.new (selection_words selection.now)) }
{
    match selection {
        Selection::All(_) => write_word(b"*", out),
        Selection::Listed(items) => write_items(items.as_slice(), out),
    }
}

fn write_items(items: &[Item], out: &mut Vec<u8>) -> Result<(), AllocError>
    ensures ok { OnOk result (Writes out.old out.new (listed (map item_words items.now))) }
{
    let Some((first, others)) = items.split_first() else {
        return Ok(());
    };
    write_item(first, out)?;
    for item in others {
        write_word(b",", out)?;
        write_item(item, out)?;
    }
    Ok(())
}

fn write_item(item: &Item, out: &mut Vec<u8>) -> Result<(), AllocError>
    ensures ok { OnOk result (Writes out.old out.new (item_words item.now)) }
{
    match item {
        Item::Expr(expr) => write_expr(expr, out),
        Item::CountAll(_) => write_count_all(out),
        Item::Count(_, column) => write_aggregate(b"COUNT", column, out),
        Item::Sum(_, column) => write_aggregate(b"SUM", column, out),
        Item::Min(_, column) => write_aggregate(b"MIN", column, out),
        Item::Max(_, column) => write_aggregate(b"MAX", column, out),
    }
}

fn write_count_all(out: &mut Vec<u8>) -> Result<(), AllocError>
    ensures ok { OnOk result (Writes out.old out.new count_all_words) }
{
    write_word(b"COUNT", out)?;
    write_word(b"(", out)?;
    write_word(b"*", out)?;
    write_word(b")", out)?;
    Ok(())
}

fn write_aggregate(word: &[u8], column: &ColumnName, out: &mut Vec<u8>) -> Result<(), AllocError>
    ensures ok { OnOk result (Writes out.old out.new (aggregate_words word.now column.now)) }
{
    write_word(word, out)?;
    write_word(b"(", out)?;
    write_column_name(column, out)?;
    write_word(b")", out)?;
    Ok(())
}

/// Writes the table's name, and AT or BEFORE behind it if it is read at a moment.
pub fn write_source(source: &Source, out: &mut Vec<u8>) -> Result<(), AllocError>
    ensures ok { OnOk result (Writes out.old out.new (source_words source.now)) }
{
    write_table_name(&source.table, out)?;
    write_clause_if(&source.clause, out)?;
    Ok(())
}

fn write_clause_if(clause: &Option<Clause>, out: &mut Vec<u8>) -> Result<(), AllocError>
    ensures ok { OnOk result (Writes out.old out.new (words_if clause_words clause.now)) }
{
    match clause {
        Some(clause) => write_clause(clause, out),
        None => Ok(()),
    }
}

fn write_joins(joins: &[Join], out: &mut Vec<u8>) -> Result<(), AllocError>
    ensures ok { OnOk result (Writes out.old out.new (flat_map join_words joins.now)) }
{
    for join in joins {
        write_join(join, out)?;
    }
    Ok(())
}

fn write_join(join: &Join, out: &mut Vec<u8>) -> Result<(), AllocError>
    ensures ok { OnOk result (Writes out.old out.new (join_words join.now)) }
{
    write_word(b"JOIN", out)?;
    write_source(&join.source, out)?;
    write_word(b"ON", out)?;
    write_pairs(join.pairs.as_slice(), out)?;
    Ok(())
}

fn write_pairs(pairs: &[Pair], out: &mut Vec<u8>) -> Result<(), AllocError>
    ensures ok { OnOk result (Writes out.old out.new
        (separated (codes "AND") (map pair_words pairs.now))) }
{
    let Some((first, others)) = pairs.split_first() else {
        return Ok(());
    };
    write_pair(first, out)?;
    for pair in others {
        write_word(b"AND", out)?;
        write_pair(pair, out)?;
    }
    Ok(())
}

fn write_pair(pair: &Pair, out: &mut Vec<u8>) -> Result<(), AllocError>
    ensures ok { OnOk result (Writes out.old out.new (pair_words pair.now)) }
{
    write_column_name(&pair.left, out)?;
    write_word(b"=", out)?;
    write_column_name(&pair.right, out)?;
    Ok(())
}

fn write_group(columns: &[ColumnName], out: &mut Vec<u8>) -> Result<(), AllocError>
    ensures ok { OnOk result (Writes out.old out.new (group_words columns.now)) }
{
    if columns.is_empty() {
        return Ok(());
    }
    write_group_by(columns, out)
}

fn write_group_by(columns: &[ColumnName], out: &mut Vec<u8>) -> Result<(), AllocError>
    ensures ok { OnOk result (Writes out.old out.new (group_by_words columns.now)) }
{
    write_word(b"GROUP", out)?;
    write_word(b"BY", out)?;
    write_columns(columns, out)?;
    Ok(())
}

fn write_columns(columns: &[ColumnName], out: &mut Vec<u8>) -> Result<(), AllocError>
    ensures ok { OnOk result (Writes out.old out.new (listed (map column_name_words columns.now))) }
{
    let Some((first, others)) = columns.split_first() else {
        return Ok(());
    };
    write_column_name(first, out)?;
    for column in others {
        write_word(b",", out)?;
        write_column_name(column, out)?;
    }
    Ok(())
}

fn write_order(keys: &[Key], out: &mut Vec<u8>) -> Result<(), AllocError>
    ensures ok { OnOk result (Writes out.old out.new (order_words keys.now)) }
{
    if keys.is_empty() {
        return Ok(());
    }
    write_order_by(keys, out)
}

fn write_order_by(keys: &[Key], out: &mut Vec<u8>) -> Result<(), AllocError>
    ensures ok { OnOk result (Writes out.old out.new (order_by_words keys.now)) }
{
    write_word(b"ORDER", out)?;
    write_word(b"BY", out)?;
    write_keys(keys, out)?;
    Ok(())
}

fn write_keys(keys: &[Key], out: &mut Vec<u8>) -> Result<(), AllocError>
    ensures ok { OnOk result (Writes out.old out.new (listed (map key_words keys.now))) }
{
    let Some((first, others)) = keys.split_first() else {
        return Ok(());
    };
    write_key(first, out)?;
    for key in others {
        write_word(b",", out)?;
        write_key(key, out)?;
    }
    Ok(())
}

fn write_key(key: &Key, out: &mut Vec<u8>) -> Result<(), AllocError>
    ensures ok { OnOk result (Writes out.old out.new (key_words key.now)) }
{
    write_key_column(&key.by, out)?;
    write_if(key.descending, b"DESC", out)?;
    Ok(())
}

fn write_key_column(column: &KeyColumn, out: &mut Vec<u8>) -> Result<(), AllocError>
    ensures ok { OnOk result (Writes out.old out.new (key_column_words column.now)) }
{
    match column {
        KeyColumn::Column(column) => write_column_name(column, out),
        KeyColumn::Position(number) => write_number(number, out),
    }
}

fn write_limit(limit: &Option<Number>, out: &mut Vec<u8>) -> Result<(), AllocError>
    ensures ok { OnOk result (Writes out.old out.new (words_if limit_words limit.now)) }
{
    if let Some(number) = limit {
        write_word(b"LIMIT", out)?;
        write_number(number, out)?;
    }
    Ok(())
}
