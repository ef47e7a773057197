//! What the zones of rows tell of a predicate. The rows are those of an INSERT, the predicate is the WHERE of a query.

mod conditions;
mod predicates;
mod true_zones;

use std::alloc::Global;
use std::process::Abort;
use std::test::Fail;
use tt_lex::tokens;
use tt_parse::parse;
use tt_sql::{Dml, InsertSource, Statement, Tuple};
use tt_value::{Column, Kind, Predicate, Row, Schema, Sequence, Text};
use tt_zone::{TruthSet, Zone, may, possible, zone_of_rows};

/// X from 3 to 7, Y NULL alone, D in February 2024, S from 'ba' to 'bc'.
const THREE: &str =
    "INSERT INTO t VALUES (3,NULL,DATE'2024-02-01','ba'),(7,NULL,DATE'2024-02-29','bc'),(5,NULL,DATE'2024-02-10','bb')";

/// X 1, NULL and 9; Y from 1 to 2; D NULL alone; S NULL and 'b'.
const WITH_NULLS: &str = "INSERT INTO t VALUES (1,2,NULL,NULL),(NULL,1,NULL,'b'),(9,2,NULL,'b')";

/// One row.
const ONE: &str = "INSERT INTO t VALUES (5,1,DATE'2024-02-29','ab')";

fn schema(alloc: Global) -> Result<Schema, Fail> {
    let mut columns = Vec::new(alloc);
    for (name, kind) in [
        ("X", Kind::Int),
        ("Y", Kind::Int),
        ("D", Kind::Date),
        ("S", Kind::Varchar),
    ] {
        columns.push(Column {
            name: Text::from_str(alloc, name).ok().ok_or("no text")?,
            kind,
            nullable: true,
        })?;
    }
    Ok(Schema {
        columns: Sequence::from_vec(columns),
    })
}

fn statement_of<R: Abort + AllocGlobal>(rt: &R, text: &str) -> Result<Statement, Fail> {
    assert!(rt; text.len() < 1_000_000);
    let list = tokens(rt.alloc(), text).ok().ok_or("no tokens")?;
    match parse(rt.alloc(), text, &list) {
        Ok(statement) => Ok(statement),
        Err(_) => panic!(rt; "no statement: {text}"),
    }
}

fn row_of(alloc: Global, tuple: &Tuple) -> Result<Row, Fail> {
    let mut values = Vec::new(alloc);
    for literal in tuple.values.as_slice() {
        values.push(literal.value.clone()?)?;
    }
    Ok(Row {
        values: Sequence::from_vec(values),
    })
}

fn rows_of_tuples(alloc: Global, tuples: &[Tuple]) -> Result<Vec<Row>, Fail> {
    let mut rows = Vec::new(alloc);
    for tuple in tuples {
        rows.push(row_of(alloc, tuple)?)?;
    }
    Ok(rows)
}

/// The rows of an INSERT.
fn rows_of<R: Abort + AllocGlobal>(rt: &R, text: &str) -> Result<Vec<Row>, Fail> {
    match statement_of(rt, text)? {
        Statement::Dml(Dml::Insert(insert)) => match &insert.source {
            InsertSource::Values(tuples) => rows_of_tuples(rt.alloc(), tuples.as_slice()),
            InsertSource::Query(_) => panic!(rt; "no rows: {text}"),
        },
        _ => panic!(rt; "no rows: {text}"),
    }
}

/// The zones of the four columns of rows.
fn zones_of<R: Abort + AllocGlobal>(rt: &R, rows: &[Row]) -> Result<Vec<Zone>, Fail> {
    assert!(rt; rows.len() < 1_000);
    let mut zones = Vec::new(rt.alloc());
    for at in 0..4 {
        zones.push(zone_of_rows(rows, at)?)?;
    }
    Ok(zones)
}

/// A query with this condition.
fn query_of<R: Abort + AllocGlobal>(rt: &R, condition: &str) -> Result<Statement, Fail> {
    let mut text = String::from_str(rt.alloc(), "SELECT * FROM t WHERE ")?;
    text.push_str(condition)?;
    statement_of(rt, text.as_str())
}

/// The WHERE of a query, if it has one.
fn filter_of(statement: &Statement) -> Option<&Predicate> {
    match statement {
        Statement::Query(query) => query.filter.as_ref(),
        _ => None,
    }
}

/// The set of the truth values that these letters stand for.
fn set_of(letters: &str) -> TruthSet {
    let letters = letters.as_bytes();
    TruthSet {
        has_true: letters.contains(&b'T'),
        has_false: letters.contains(&b'F'),
        has_unknown: letters.contains(&b'U'),
    }
}

/// That just these truth values are possible for each condition over these rows, and that a row may match where
/// true is one of them.
fn assert_possible<R: Abort + AllocGlobal>(
    rt: &R,
    rows: &str,
    table: &[(&str, &str)],
) -> Result<(), Fail> {
    let schema = schema(rt.alloc())?;
    let zones = zones_of(rt, &rows_of(rt, rows)?)?;
    for (condition, letters) in table {
        let query = query_of(rt, condition)?;
        let Some(predicate) = filter_of(&query) else {
            panic!(rt; "no condition: {condition}");
        };
        let wanted = set_of(letters);
        assert!(rt;
            possible(&schema, &zones, predicate) == wanted,
            "in {condition}"
        );
        assert!(rt;
            may(&schema, &zones, predicate) == wanted.has_true,
            "in {condition}"
        );
    }
    Ok(())
}
