//! The one text of a statement: of statements that are read, and of trees that no text gives.

use crate::parsing::assert_statements;
use sqlite_items::Items;
use std::alloc::Global;
use std::process::Abort;
use std::test::Fail;
use tt_print::print;
use tt_sql::{
    Clause, ClonedTable, Delete, Dml, Item, Join, Moment, Pair, Query, Selection, Side, Source,
    Statement, TableKind,
};
use tt_value::{
    ColumnName, Conjunction, Expr, Factor, Literal, Name, Operand, Predicate, TableName, Term,
    Text, Unit, Value,
};

#[test]
fn minuses_in_front_of_a_number_are_kept(rt: HostRuntime) -> Result<(), Fail> {
    assert_statements(
        &rt,
        &[
            ("SELECT - -0 FROM t", "SELECT - - 0 FROM T"),
            ("SELECT - -5 FROM t", "SELECT - - 5 FROM T"),
            ("SELECT 0 FROM t", "SELECT 0 FROM T"),
        ],
    )
}

#[test]
fn queries_have_their_parts_in_order(rt: HostRuntime) -> Result<(), Fail> {
    assert_statements(
        &rt,
        &[
            (
                "select a,count(*) from t group by a order by a desc,2 limit 5",
                "SELECT A , COUNT ( * ) FROM T GROUP BY A ORDER BY A DESC , 2 LIMIT 5",
            ),
            (
                "insert into t select * from u",
                "INSERT INTO T SELECT * FROM U",
            ),
        ],
    )
}

#[test]
fn predicates_keep_their_form(rt: HostRuntime) -> Result<(), Fail> {
    assert_statements(
        &rt,
        &[
            (
                "delete from t where a is null and b is null or a=b",
                "DELETE FROM T WHERE A IS NULL AND B IS NULL OR A = B",
            ),
            (
                "select * from t where not(a is not null)",
                "SELECT * FROM T WHERE NOT ( A IS NOT NULL )",
            ),
            (
                "select * from t where a between date'1970-01-01' and date'2024-02-29'",
                "SELECT * FROM T WHERE A BETWEEN DATE '1970-01-01' AND DATE '2024-02-29'",
            ),
        ],
    )
}

#[test]
fn moments_are_written_behind_the_table(rt: HostRuntime) -> Result<(), Fail> {
    assert_statements(
        &rt,
        &[
            (
                "select * from t at(timestamp=>'2024-02-29T12:34:56.007Z')",
                "SELECT * FROM T AT ( TIMESTAMP => '2024-02-29 12:34:56.007' )",
            ),
            (
                "select * from t before(timestamp=>'1969-12-31T23:59:59.999Z')",
                "SELECT * FROM T BEFORE ( TIMESTAMP => '1969-12-31 23:59:59.999' )",
            ),
            (
                "select * from t at(timestamp=>'9999-12-31T23:59:59.999Z')",
                "SELECT * FROM T AT ( TIMESTAMP => '9999-12-31 23:59:59.999' )",
            ),
            (
                "select * from t at(offset=>-24*3600)",
                "SELECT * FROM T AT ( OFFSET => - 24 * 3600 )",
            ),
        ],
    )
}

fn name(alloc: Global, text: &str) -> Result<Name, Fail> {
    let text = Text::from_str(alloc, text).ok().ok_or("no text")?;
    Ok(Name { text, place: 0 })
}

fn column(alloc: Global, text: &str) -> Result<ColumnName, Fail> {
    let name = name(alloc, text)?;
    Ok(ColumnName { table: None, name })
}

fn table(alloc: Global, text: &str) -> Result<TableName, Fail> {
    let name = name(alloc, text)?;
    Ok(TableName { schema: None, name })
}

fn one<T: Drop>(alloc: Global, item: T) -> Result<Items<T>, Fail> {
    let mut items = Items::new(alloc);
    items.push(item)?;
    Ok(items)
}

/// `S . T`
fn table_of_schema(alloc: Global) -> Result<TableName, Fail> {
    let schema = name(alloc, "S")?;
    let name = name(alloc, "T")?;
    Ok(TableName {
        schema: Some(schema),
        name,
    })
}

/// `T . A`
fn item_of_table(alloc: Global) -> Result<Item, Fail> {
    let table = name(alloc, "T")?;
    let name = name(alloc, "A")?;
    let first = Factor::Column(ColumnName {
        table: Some(table),
        name,
    });
    let first = Term {
        first,
        others: Items::new(alloc),
    };
    Ok(Item::Expr(Expr {
        first,
        others: Items::new(alloc),
    }))
}

/// `JOIN U ON A = B`
fn join(alloc: Global) -> Result<Join, Fail> {
    let table = table(alloc, "U")?;
    let pair = Pair {
        left: column(alloc, "A")?,
        right: column(alloc, "B")?,
    };
    let pairs = one(alloc, pair)?;
    let source = Source {
        table,
        clause: None,
    };
    Ok(Join { source, pairs })
}

/// `SELECT T . A FROM T JOIN U ON A = B GROUP BY A`
fn joined(alloc: Global) -> Result<Statement, Fail> {
    let items = one(alloc, item_of_table(alloc)?)?;
    let table = table(alloc, "T")?;
    let joins = one(alloc, join(alloc)?)?;
    let group = one(alloc, column(alloc, "A")?)?;
    Ok(Statement::Query(Query {
        place: 0,
        selection: Selection::Listed(items),
        first: Source {
            table,
            clause: None,
        },
        joins,
        filter: None,
        group,
        order: Items::new(alloc),
        limit: None,
    }))
}

/// `CREATE TABLE C CLONE T`, with the word of the kind and with the clause.
fn cloned(alloc: Global, kind: TableKind, clause: Option<Clause>) -> Result<Statement, Fail> {
    let read = table(alloc, "T")?;
    let table = table(alloc, "C")?;
    let source = Source {
        table: read,
        clause,
    };
    Ok(Statement::Clone(ClonedTable {
        replaces: false,
        kind,
        table,
        source,
    }))
}

fn day(day: i32) -> Literal {
    Literal {
        value: Value::Date(day),
        place: 0,
    }
}

/// `DELETE FROM T WHERE A NOT BETWEEN` the two days.
fn deleted(alloc: Global, least: i32, greatest: i32) -> Result<Statement, Fail> {
    let table = table(alloc, "T")?;
    let operand = Operand::Column(column(alloc, "A")?);
    let first = Conjunction {
        first: Unit::Between(operand, true, day(least), day(greatest)),
        others: Items::new(alloc),
    };
    let filter = Some(Predicate {
        first,
        others: Items::new(alloc),
    });
    Ok(Statement::Dml(Dml::Delete(Delete { table, filter })))
}

/// That the text of a statement is appended to a bar, with nothing else.
fn assert_printed<R: Abort + AllocGlobal>(
    rt: &R,
    statement: Statement,
    wanted: &str,
) -> Result<(), Fail> {
    let mut out = Vec::new(rt.alloc());
    out.push(b'|')?;
    print(&statement, &mut out)?;
    assert_eq!(rt; out.as_slice(), wanted.as_bytes(), "at {wanted}");
    Ok(())
}

#[test]
fn words_that_no_text_gives_are_written(rt: HostRuntime) -> Result<(), Fail> {
    let alloc = rt.alloc();
    let undrop = Statement::Undrop(table_of_schema(alloc)?);
    assert_printed(&rt, undrop, "|UNDROP TABLE S . T")?;
    let depth = Statement::Depth(table_of_schema(alloc)?);
    assert_printed(&rt, depth, "|SELECT SYSTEM$CLUSTERING_DEPTH ( 'S.T' )")?;
    let join = joined(alloc)?;
    assert_printed(&rt, join, "|SELECT T . A FROM T JOIN U ON A = B GROUP BY A")?;
    let temporary = cloned(alloc, TableKind::Temporary, None)?;
    assert_printed(&rt, temporary, "|CREATE TEMPORARY TABLE C CLONE T")
}

#[test]
fn days_and_moments_off_the_calendar_are_empty_texts(rt: HostRuntime) -> Result<(), Fail> {
    let alloc = rt.alloc();
    let clause = Clause {
        side: Side::At,
        moment: Moment::Timestamp(253_402_300_800_000),
    };
    let late = cloned(alloc, TableKind::Permanent, Some(clause))?;
    assert_printed(&rt, late, "|CREATE TABLE C CLONE T AT ( TIMESTAMP => '' )")?;
    let early = deleted(alloc, -719_162, -719_163)?;
    assert_printed(
        &rt,
        early,
        "|DELETE FROM T WHERE A NOT BETWEEN DATE '0001-01-01' AND DATE ''",
    )
}
