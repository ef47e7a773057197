//! What is refused of statements, as they are written, for their columns, counts, kinds and NULLs.

ghost use Rattle.std.specs.Prelude.{◌≡◌, true, length, []};
ghost use Rattle.tt_plain.specs.Tables.{tables_of, dml_tables, IsOverOneTable, ReadsOneTable};

use std::alloc::{AllocError, Global};
use std::process::Abort;
use std::test::Fail;
use tt_history::Refusal;
use tt_lex::tokens;
use tt_parse::{ParseError, parse};
use tt_sql::{Change, Dml, InsertSource, Query, Statement};
use tt_typer::check;
use tt_value::{Column, Kind, Schema, Sequence, Text};

mod columns;
mod counts;
mod dates;
mod kinds;
mod nulls;
mod order;
mod trees;

/// The tables of the examples.
#[derive(Clone, Copy)]
enum Table {
    /// X INT, D DATE, S VARCHAR NOT NULL, Y INT.
    T,
    /// K INT, E DATE, V VARCHAR.
    U,
    /// X INT NOT NULL, S VARCHAR.
    R,
}

fn schema_of(alloc: Global, columns: &[(&str, Kind, bool)]) -> Result<Schema, Fail> {
    let mut list = Vec::new(alloc);
    for (name, kind, nullable) in columns {
        list.push(Column {
            name: Text::from_str(alloc, name).ok().ok_or("no text")?,
            kind: *kind,
            nullable: *nullable,
        })?;
    }
    Ok(Schema {
        columns: Sequence::from_vec(list),
    })
}

fn schema(alloc: Global, table: Table) -> Result<Schema, Fail> {
    match table {
        Table::T => schema_of(
            alloc,
            &[
                ("X", Kind::Int, true),
                ("D", Kind::Date, true),
                ("S", Kind::Varchar, false),
                ("Y", Kind::Int, true),
            ],
        ),
        Table::U => schema_of(
            alloc,
            &[
                ("K", Kind::Int, true),
                ("E", Kind::Date, true),
                ("V", Kind::Varchar, true),
            ],
        ),
        Table::R => schema_of(
            alloc,
            &[("X", Kind::Int, false), ("S", Kind::Varchar, true)],
        ),
    }
}

fn schemas(alloc: Global, tables: &[Table]) -> Result<Vec<Schema>, Fail> {
    let mut list = Vec::new(alloc);
    for table in tables {
        list.push(schema(alloc, *table)?)?;
    }
    Ok(list)
}

fn statement_of<R: Abort + AllocGlobal>(rt: &R, text: &str) -> Result<Statement, Fail> {
    assert!(rt; text.len() < 1_000_000);
    let list = tokens(rt.alloc(), text).ok().ok_or("no tokens")?;
    match parse(rt.alloc(), text, &list) {
        Ok(statement) => Ok(statement),
        Err(ParseError::Syntax(fault)) => panic!(rt; "a fault at {} in {text}", fault.place),
        Err(ParseError::Memory) => Err(AllocError.into()),
    }
}

fn is_alone(query: &Query) -> bool
    ensures { result ≡ true → query.now.joins ≡ [] }
{
    query.joins.is_empty()
}

/// Whether a change names so many tables, each query one.
fn change_names(dml: &Dml, count: usize) -> bool
    ensures tables { result ≡ true → count ≡ length (dml_tables dml.now) }
    ensures alone { result ≡ true → ReadsOneTable dml.now }
{
    match dml {
        Dml::Insert(insert) => match &insert.source {
            InsertSource::Query(query) => is_alone(query) && count == 2,
            InsertSource::Values(_) => count == 1,
        },
        Dml::Update(_) => count == 1,
        Dml::Delete(_) => count == 1,
        Dml::Copy(_) => count == 1,
    }
}

/// Whether a statement names so many tables, each query one.
fn names(statement: &Statement, count: usize) -> bool
    ensures tables { result ≡ true → count ≡ length (tables_of statement.now) }
    ensures alone { result ≡ true → IsOverOneTable statement.now }
{
    match statement {
        Statement::Query(query) => is_alone(query) && count == 1,
        Statement::Explain(query) => is_alone(query) && count == 1,
        Statement::Dml(dml) => change_names(dml, count),
        Statement::Create(_) => count == 0,
        Statement::Alter(alter) => match &alter.change {
            Change::ClusterBy(_) => count == 1,
            _ => false,
        },
        _ => false,
    }
}

/// That just this is refused of a statement over tables, named in the order of the statement.
fn assert_refused<R: Abort + AllocGlobal>(
    rt: &R,
    text: &str,
    statement: &Statement,
    tables: &[Table],
    wanted: Option<Refusal>,
) -> Result<(), Fail> {
    let list = schemas(rt.alloc(), tables)?;
    let mut lent = Vec::new(rt.alloc());
    for schema in &list {
        lent.push(schema)?;
    }
    assert!(rt; names(statement, lent.len()), "in {text}");
    assert!(rt; check(statement, &lent).err() == wanted, "in {text}");
    Ok(())
}

/// The same of each statement.
fn assert_found<R: Abort + AllocGlobal>(
    rt: &R,
    table: &[(&str, &[Table], Option<Refusal>)],
) -> Result<(), Fail> {
    for (text, tables, wanted) in table {
        let statement = statement_of(rt, text)?;
        assert_refused(rt, text, &statement, tables, *wanted)?;
    }
    Ok(())
}
