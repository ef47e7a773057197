//! Rows and queries as statements write them.

use std::alloc::Global;
use std::process::Abort;
use std::test::Fail;
use tt_lex::tokens;
use tt_parse::parse;
use tt_sql::{Dml, InsertSource, Query, Statement, Tuple};
use tt_value::{Column, Kind, Row, Schema, Sequence, Text};

/// A table of these columns.
pub fn schema_of(alloc: Global, columns: &[(&str, Kind)]) -> Result<Schema, Fail> {
    let mut list = Vec::new(alloc);
    for (name, kind) in columns {
        list.push(Column {
            name: Text::from_str(alloc, name).ok().ok_or("no text")?,
            kind: *kind,
            nullable: true,
        })?;
    }
    Ok(Schema {
        columns: Sequence::from_vec(list),
    })
}

fn statement_of<R: Abort + AllocGlobal>(rt: &R, text: &str) -> Result<Statement, Fail> {
    assert!(rt; text.len() < 1_000_000);
    let list = tokens(rt.alloc(), text).ok().ok_or("no tokens")?;
    match parse(rt.alloc(), text, &list) {
        Ok(statement) => Ok(statement),
        Err(_) => panic!(rt; "no statement: {text}"),
    }
}

/// The query that a text is.
pub fn query_of<R: Abort + AllocGlobal>(rt: &R, text: &str) -> Result<Query, Fail> {
    match statement_of(rt, text)? {
        Statement::Query(query) => Ok(query),
        _ => panic!(rt; "no query: {text}"),
    }
}

fn row_of(alloc: Global, tuple: &Tuple) -> Result<Row, Fail> {
    let mut values = Vec::new(alloc);
    for literal in tuple.values.as_slice() {
        values.push(literal.value.clone()?)?;
    }
    Ok(Row {
        values: Sequence::from_vec(values),
    })
}

fn rows_of_tuples(alloc: Global, tuples: &[Tuple]) -> Result<Vec<Row>, Fail> {
    let mut rows = Vec::new(alloc);
    for tuple in tuples {
        rows.push(row_of(alloc, tuple)?)?;
    }
    Ok(rows)
}

/// The rows of an INSERT; of an empty text none.
pub fn rows_of<R: Abort + AllocGlobal>(rt: &R, text: &str) -> Result<Vec<Row>, Fail> {
    if text.is_empty() {
        return Ok(Vec::new(rt.alloc()));
    }
    match statement_of(rt, text)? {
        Statement::Dml(Dml::Insert(insert)) => match &insert.source {
            InsertSource::Values(tuples) => rows_of_tuples(rt.alloc(), tuples.as_slice()),
            InsertSource::Query(_) => panic!(rt; "no rows: {text}"),
        },
        _ => panic!(rt; "no rows: {text}"),
    }
}
