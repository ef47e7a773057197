//! Readers of queries.

ghost use Rattle.std.specs.Prelude.{◌≡◌, ◌≤◌, [], ◌∷◌, ◌++◌, length, IfOk};
ghost use Rattle.tt_sql.specs.grammar.Grammar.{At};
ghost use Rattle.tt_sql.specs.machine.Factored.{read_query, read_query_end};
ghost use Rattle.tt_sql.specs.marks.Expressions.{flag_marks, column_marks, number_marks, table_marks};
ghost use Rattle.tt_sql.specs.trees.Lists.{WhenThere};
ghost use Rattle.tt_sql.specs.determined.Expressions.{IsGivenPredicate};
ghost use Rattle.tt_sql.specs.determined.Queries.{IsGivenQuery, IsGivenSelection};
ghost use Rattle.tt_sql.specs.marks.Queries.{key_marks, key_column_marks, query_marks, selection_marks};
ghost use Rattle.tt_sql.specs.grammar.Combinators.{listed, name as name_part};
ghost use Rattle.tt_sql.specs.grammar.Written.{key};
ghost use Rattle.tt_phrase.specs.QueryEnds.{IsGivenQueryEnd, ends, ends_marks, query_end_marks, query_tail, query_tail_marks, group_by, order_by, key_column, direction, limit};
ghost use Rattle.tt_terminal.specs.Reading.{IsKnown, Passes, Reads};
ghost use Rattle.tt_terminal.specs.Readers.{ReadsPart, ReadsList, ReadsMaybeList, ReadsMaybe};

use crate::item::selection_of;
use crate::moment::optional_clause;
use crate::predicate::filter_of;
use sqlite_items::Items;
use std::alloc::Global;
use tt_sql::{
    Clause, ColumnName, Key, KeyColumn, Number, Predicate, Query, Selection, Source, TableName,
};
use tt_terminal::error::ParseError;
use tt_terminal::fixed::{after, place_of};
use tt_terminal::kind::LexemeKind;
use tt_terminal::name::{column_of, number_of, optional_name, table_of};
use tt_terminal::pair::paired;
use tt_terminal::rest::Rest;

/// What stands behind the filter of a query.
#[derive(Drop)]
pub struct QueryTail {
    pub group: Items<ColumnName>,
    pub order: Items<Key>,
    pub limit: Option<Number>,
}

/// What stands behind the table of a query.
#[derive(Drop)]
pub struct QueryEnd {
    pub clause: Option<Clause>,
    pub filter: Option<Predicate>,
    pub tail: QueryTail,
}

/// What a key of ORDER BY orders by.
fn key_column_of<'a>(alloc: Global, rest: Rest<'a>) -> Result<(KeyColumn, Rest<'a>), ParseError>
    requires { IsKnown rest }
    ensures { ReadsPart key_column_marks key_column rest.entry result }
{
    if let Some((name, rest)) = optional_name(alloc, rest)? {
        let table = None;
        return Ok((KeyColumn::Column(ColumnName { table, name }), rest));
    }
    let (number, rest) = number_of(rest)?;
    Ok((KeyColumn::Position(number), rest))
}

/// Whether DESC stands behind a key.
fn descending_of(rest: Rest<'_>) -> (bool, Rest<'_>)
    requires { IsKnown rest }
    ensures { Passes [] direction rest.entry (flag_marks result.0) result.1 }
{
    if let Some(rest) = rest.word(LexemeKind::Asc) {
        return (false, rest);
    }
    match rest.word(LexemeKind::Desc) {
        Some(rest) => (true, rest),
        None => (false, rest),
    }
}

/// A key of ORDER BY.
fn key_of<'a>(alloc: Global, rest: Rest<'a>) -> Result<(Key, Rest<'a>), ParseError>
    requires { IsKnown rest }
    ensures { ReadsPart key_marks key rest.entry result }
{
    let (by, rest) = key_column_of(alloc, rest)?;
    let (descending, rest) = descending_of(rest);
    Ok((Key { by, descending }, rest))
}

/// The keys of ORDER BY.
fn keys_of<'a>(alloc: Global, rest: Rest<'a>) -> Result<(Items<Key>, Rest<'a>), ParseError>
    requires { IsKnown rest }
    ensures reads { ReadsList key_marks (listed key) rest.entry result }
    ensures filled { IfOk result (λ x. 1 ≤ length x.0) }
{
    let mut keys = Items::new(alloc);
    let mut left = rest;
    loop {
        let (part, behind) = key_of(alloc, left)?;
        keys.push(part)?;
        let Some(next) = behind.word(LexemeKind::Comma) else {
            return Ok((keys, behind));
        };
        left = next;
    }
}

/// The columns of GROUP BY.
fn columns_of<'a>(
    alloc: Global,
    rest: Rest<'a>,
) -> Result<(Items<ColumnName>, Rest<'a>), ParseError>
    requires { IsKnown rest }
    ensures reads { ReadsList column_marks (listed name_part) rest.entry result }
    ensures filled { IfOk result (λ x. 1 ≤ length x.0) }
{
    let mut columns = Items::new(alloc);
    let mut left = rest;
    loop {
        let (part, behind) = column_of(alloc, left)?;
        columns.push(part)?;
        let Some(next) = behind.word(LexemeKind::Comma) else {
            return Ok((columns, behind));
        };
        left = next;
    }
}

/// GROUP BY, if it stands here.
fn group_of<'a>(alloc: Global, rest: Rest<'a>) -> Result<(Items<ColumnName>, Rest<'a>), ParseError>
    requires { IsKnown rest }
    ensures { ReadsMaybeList column_marks group_by rest.entry result }
{
    let Some(rest) = rest.word(LexemeKind::Group) else {
        return Ok((Items::new(alloc), rest));
    };
    let rest = after(LexemeKind::By, rest)?;
    let (columns, rest) = columns_of(alloc, rest)?;
    Ok((columns, rest))
}

/// ORDER BY, if it stands here.
fn order_of<'a>(alloc: Global, rest: Rest<'a>) -> Result<(Items<Key>, Rest<'a>), ParseError>
    requires { IsKnown rest }
    ensures { ReadsMaybeList key_marks order_by rest.entry result }
{
    let Some(rest) = rest.word(LexemeKind::Order) else {
        return Ok((Items::new(alloc), rest));
    };
    let rest = after(LexemeKind::By, rest)?;
    let (keys, rest) = keys_of(alloc, rest)?;
    Ok((keys, rest))
}

/// LIMIT, if it stands here.
fn limit_of(rest: Rest<'_>) -> Result<(Option<Number>, Rest<'_>), ParseError>
    requires { IsKnown rest }
    ensures { ReadsMaybe number_marks limit rest.entry result }
{
    let Some(rest) = rest.word(LexemeKind::Limit) else {
        return Ok((None, rest));
    };
    let (number, rest) = number_of(rest)?;
    Ok((Some(number), rest))
}

/// What stands behind the filter of a query.
fn tail_of<'a>(alloc: Global, rest: Rest<'a>) -> Result<(QueryTail, Rest<'a>), ParseError>
    requires { IsKnown rest }
    ensures { ReadsPart query_tail_marks query_tail rest.entry result }
{
    let (group, rest) = group_of(alloc, rest)?;
    let (order, rest) = order_of(alloc, rest)?;
    let (limit, rest) = limit_of(rest)?;
    let tail = QueryTail {
        group,
        order,
        limit,
    };
    Ok((tail, rest))
}

/// The filter of a query, and what stands behind it.
fn filtered_of<'a>(
    alloc: Global,
    levels: u32,
    rest: Rest<'a>,
) -> Result<(Option<Predicate>, QueryTail, Rest<'a>), ParseError>
    requires { IsKnown rest }
    ensures reads { Reads (λ x. ends_marks x.0 x.1) (λ x. x.2) (ends levels) rest.entry result }
    ensures filter { IfOk result (λ x. WhenThere IsGivenPredicate x.0) }
{
    let (filter, rest) = filter_of(alloc, levels, rest)?;
    paired(filter, tail_of(alloc, rest))
}

/// What stands behind the table of a query.
fn query_end_of<'a>(
    alloc: Global,
    levels: u32,
    rest: Rest<'a>,
) -> Result<(QueryEnd, Rest<'a>), ParseError>
    requires { IsKnown rest }
    ensures reads { ReadsPart query_end_marks (read_query_end levels) rest.entry result }
    ensures given { IfOk result (λ x. IsGivenQueryEnd x.0) }
{
    let (clause, rest) = optional_clause(alloc, rest)?;
    let (filter, tail, rest) = filtered_of(alloc, levels, rest)?;
    let end = QueryEnd {
        clause,
        filter,
        tail,
    };
    Ok((end, rest))
}

/// A query of its parts, with one table.
fn query_with(
    alloc: Global,
    place: u32,
    selection: Selection,
    table: TableName,
    end: QueryEnd,
) -> Query
    ensures marks { query_marks result
        ≡ At place ∷ (selection_marks selection ++ (table_marks table ++ query_end_marks end)) }
    ensures given { IsGivenSelection selection → IsGivenQueryEnd end → IsGivenQuery result }
{
    let clause = end.clause;
    Query {
        place,
        selection,
        first: Source { table, clause },
        joins: Items::new(alloc),
        filter: end.filter,
        group: end.tail.group,
        order: end.tail.order,
        limit: end.tail.limit,
    }
}

/// A query.
pub fn query_of<'a>(
    alloc: Global,
    levels: u32,
    rest: Rest<'a>,
) -> Result<(Query, Rest<'a>), ParseError>
    requires { IsKnown rest }
    ensures reads { ReadsPart query_marks (read_query levels) rest.entry result }
    ensures given { IfOk result (λ x. IsGivenQuery x.0) }
{
    let (place, rest) = place_of(LexemeKind::Select, rest)?;
    let (selection, rest) = selection_of(alloc, levels, rest)?;
    let rest = after(LexemeKind::From, rest)?;
    let (table, rest) = table_of(alloc, rest)?;
    let (end, rest) = query_end_of(alloc, levels, rest)?;
    let query = query_with(alloc, place, selection, table, end);
    Ok((query, rest))
}
