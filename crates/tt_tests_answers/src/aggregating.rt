//! Rows that queries give over a table X INT, S VARCHAR, D DATE, before they are ordered.

use crate::texts::{query_of, rows_of, schema_of};
use std::alloc::{AllocError, Global};
use std::process::Abort;
use std::test::Fail;
use tt_agg::{AggregateError, aggregate, select};
use tt_order::arrange;
use tt_scope::has_places;
use tt_value::{Kind, Row, Schema};

/// NULL in each column, and 2 twice.
const SIX: &str =
    "INSERT INTO t VALUES (2,'b',DATE'2024-02-29'),(NULL,'a',NULL),(1,'b',DATE'1969-12-31'),(2,NULL,NULL),(NULL,'b',NULL),(1,'a',DATE'2024-02-29')";

/// The greatest number, 1 and -1.
const MOST: &str = "INSERT INTO t VALUES (9223372036854775807,'a',NULL),(1,'a',NULL),(-1,'a',NULL)";

fn schemas(alloc: Global) -> Result<Vec<Schema>, Fail> {
    let mut list = Vec::new(alloc);
    list.push(schema_of(
        alloc,
        &[("X", Kind::Int), ("S", Kind::Varchar), ("D", Kind::Date)],
    )?)?;
    Ok(list)
}

/// What a query gives of these rows; none where it is out of range.
fn answer_of<R: Abort + AllocGlobal>(
    rt: &R,
    text: &str,
    given: &str,
) -> Result<Option<Vec<Row>>, Fail> {
    let schemas = schemas(rt.alloc())?;
    let query = query_of(rt, text)?;
    let rows = rows_of(rt, given)?;
    assert!(rt; has_places(&schemas, &query));
    match aggregate(rt.alloc(), &schemas, &query, &rows) {
        Ok(answer) => Ok(Some(answer)),
        Err(AggregateError::OutOfRange) => Ok(None),
        Err(AggregateError::Memory) => Err(AllocError.into()),
    }
}

/// The same, where the rows are given away.
fn selected_of<R: Abort + AllocGlobal>(
    rt: &R,
    text: &str,
    given: &str,
) -> Result<Option<Vec<Row>>, Fail> {
    let schemas = schemas(rt.alloc())?;
    let query = query_of(rt, text)?;
    let rows = rows_of(rt, given)?;
    assert!(rt; has_places(&schemas, &query));
    match select(rt.alloc(), &schemas, &query, rows) {
        Ok(answer) => Ok(Some(answer)),
        Err(AggregateError::OutOfRange) => Ok(None),
        Err(AggregateError::Memory) => Err(AllocError.into()),
    }
}

/// Of each query the rows, given those that it takes.
fn assert_rows<R: Abort + AllocGlobal>(
    rt: &R,
    given: &str,
    cases: &[(&str, &str)],
) -> Result<(), Fail> {
    for (text, wanted) in cases {
        let Some(answer) = answer_of(rt, text, given)? else {
            panic!(rt; "out of range: {text}")
        };
        assert!(rt; answer == rows_of(rt, wanted)?, "{text}");
    }
    Ok(())
}

/// Whether each query is out of range.
fn assert_out_of_range<R: Abort + AllocGlobal>(
    rt: &R,
    given: &str,
    cases: &[(&str, bool)],
) -> Result<(), Fail> {
    for (text, wanted) in cases {
        let is_out = answer_of(rt, text, given)?.is_none();
        assert!(rt; is_out == *wanted, "{text}");
    }
    Ok(())
}

#[test]
fn items_of_each_row_and_of_all_rows(rt: HostRuntime) -> Result<(), Fail> {
    assert_rows(
        &rt,
        SIX,
        &[
            ("SELECT * FROM t", SIX),
            (
                "SELECT s, x + 1, -x * 2 FROM t",
                "INSERT INTO t VALUES ('b',3,-4),('a',NULL,NULL),('b',2,-2),(NULL,3,-4),('b',NULL,NULL),('a',2,-2)",
            ),
            (
                "SELECT COUNT(*), COUNT(x), SUM(x), MIN(x), MAX(x), MIN(s), MAX(d), MIN(d) FROM t",
                "INSERT INTO t VALUES (6,4,6,1,2,'a',DATE'2024-02-29',DATE'1969-12-31')",
            ),
        ],
    )
}

#[test]
fn nulls_are_one_group_and_are_left_out(rt: HostRuntime) -> Result<(), Fail> {
    assert_rows(
        &rt,
        SIX,
        &[
            (
                "SELECT x, COUNT(*), COUNT(s), SUM(x), MIN(s), MAX(d) FROM t GROUP BY x",
                "INSERT INTO t VALUES (2,2,1,4,'b',DATE'2024-02-29'),(NULL,2,2,NULL,'a',NULL),(1,2,2,2,'a',DATE'2024-02-29')",
            ),
            (
                "SELECT s, d FROM t GROUP BY s, d",
                "INSERT INTO t VALUES ('b',DATE'2024-02-29'),('a',NULL),('b',DATE'1969-12-31'),(NULL,NULL),('b',NULL),('a',DATE'2024-02-29')",
            ),
            (
                "SELECT COUNT(*) FROM t GROUP BY s, s",
                "INSERT INTO t VALUES (3),(2),(1)",
            ),
        ],
    )
}

#[test]
fn over_no_rows(rt: HostRuntime) -> Result<(), Fail> {
    assert_rows(
        &rt,
        "",
        &[
            ("SELECT * FROM t", ""),
            ("SELECT x + 1 FROM t", ""),
            ("SELECT x, COUNT(*) FROM t GROUP BY x", ""),
            (
                "SELECT COUNT(*), COUNT(x), SUM(x), MIN(s), MAX(d) FROM t",
                "INSERT INTO t VALUES (0,0,NULL,NULL,NULL)",
            ),
        ],
    )
}

#[test]
fn sums_are_judged_whole_and_before_the_limit(rt: HostRuntime) -> Result<(), Fail> {
    assert_out_of_range(
        &rt,
        MOST,
        &[
            ("SELECT SUM(x) FROM t", false),
            ("SELECT s, SUM(x) FROM t GROUP BY s", false),
            ("SELECT x, SUM(x) FROM t GROUP BY x", false),
            ("SELECT x + 1 - 1 FROM t", true),
            ("SELECT x + 1 FROM t LIMIT 0", true),
            ("SELECT x - 1 + 1 FROM t", false),
            ("SELECT x * 2 FROM t LIMIT 1", true),
            ("SELECT -9223372036854775808 FROM t", false),
            ("SELECT - (-9223372036854775808) FROM t", true),
        ],
    )?;
    assert_rows(
        &rt,
        MOST,
        &[(
            "SELECT SUM(x), MAX(x) FROM t",
            "INSERT INTO t VALUES (9223372036854775807,9223372036854775807)",
        )],
    )?;
    assert_out_of_range(
        &rt,
        "INSERT INTO t VALUES (9223372036854775807,'a',NULL),(1,'a',NULL),(1,'b',NULL)",
        &[
            ("SELECT SUM(x) FROM t LIMIT 0", true),
            ("SELECT s, SUM(x) FROM t GROUP BY s LIMIT 0", true),
            ("SELECT x, SUM(x) FROM t GROUP BY x", false),
        ],
    )
}

#[test]
fn rows_that_are_given_away_are_selected(rt: HostRuntime) -> Result<(), Fail> {
    for (text, wanted) in [
        ("SELECT * FROM t", MOST),
        (
            "SELECT s, x FROM t",
            "INSERT INTO t VALUES ('a',9223372036854775807),('a',1),('a',-1)",
        ),
        (
            "SELECT s, COUNT(*) FROM t GROUP BY s",
            "INSERT INTO t VALUES ('a',3)",
        ),
    ] {
        let Some(answer) = selected_of(&rt, text, MOST)? else {
            panic!(rt; "out of range: {text}")
        };
        assert!(rt; answer == rows_of(&rt, wanted)?, "{text}");
    }
    assert!(rt; selected_of(&rt, "SELECT x + 1 FROM t", MOST)?.is_none());
    Ok(())
}

#[test]
fn arranged_aggregates_are_the_answer(rt: HostRuntime) -> Result<(), Fail> {
    let schemas = schemas(rt.alloc())?;
    let query = query_of(
        &rt,
        "SELECT x, COUNT(*) FROM t GROUP BY x ORDER BY 2 DESC, 1 DESC LIMIT 2",
    )?;
    let rows = rows_of(
        &rt,
        "INSERT INTO t VALUES (3,'a',NULL),(1,'a',NULL),(NULL,'a',NULL),(1,'b',NULL),(2,'c',NULL)",
    )?;
    assert!(rt; has_places(&schemas, &query));
    let Ok(selected) = aggregate(rt.alloc(), &schemas, &query, &rows) else {
        panic!(rt; "out of range")
    };
    let answer = arrange(rt.alloc(), &schemas, &query, selected)?;
    assert!(rt; answer == rows_of(&rt, "INSERT INTO t VALUES (1,2),(NULL,1)")?);
    Ok(())
}
