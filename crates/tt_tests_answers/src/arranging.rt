//! Answers of a table X INT, S VARCHAR, in the order of queries.

use crate::texts::{query_of, rows_of, schema_of};
use std::alloc::Global;
use std::process::Abort;
use std::test::Fail;
use tt_order::arrange;
use tt_scope::has_places;
use tt_value::{Kind, Row, Schema};

/// Five rows with NULL in each column.
const FIVE: &str = "INSERT INTO t VALUES (2,'b'),(NULL,'a'),(1,'b'),(2,NULL),(1,'a')";

/// Twenty-four rows, the least number twice.
const MANY: &str =
    "INSERT INTO t VALUES (12,'a'),(7,'a'),(19,'a'),(3,'a'),(24,'a'),(1,'b'),(16,'a'),(9,'a'),(22,'a'),(5,'a'),(14,'a'),(2,'a'),(11,'a'),(20,'a'),(8,'a'),(NULL,'a'),(17,'a'),(6,'a'),(23,'a'),(10,'a'),(4,'a'),(15,'a'),(13,'a'),(1,'a')";

fn schemas(alloc: Global) -> Result<Vec<Schema>, Fail> {
    let mut list = Vec::new(alloc);
    list.push(schema_of(alloc, &[("X", Kind::Int), ("S", Kind::Varchar)])?)?;
    Ok(list)
}

fn arranged<R: Abort + AllocGlobal>(
    rt: &R,
    schemas: &[Schema],
    text: &str,
    rows: Vec<Row>,
) -> Result<Vec<Row>, Fail> {
    let query = query_of(rt, text)?;
    assert!(rt; has_places(schemas, &query));
    Ok(arrange(rt.alloc(), schemas, &query, rows)?)
}

/// Of each query the answer, given its rows in some order.
fn assert_arranged<R: Abort + AllocGlobal>(
    rt: &R,
    given: &str,
    cases: &[(&str, &str)],
) -> Result<(), Fail> {
    let schemas = schemas(rt.alloc())?;
    for (text, wanted) in cases {
        let rows = rows_of(rt, given)?;
        let answer = arranged(rt, &schemas, text, rows)?;
        assert!(rt; answer == rows_of(rt, wanted)?, "{text}");
    }
    Ok(())
}

#[test]
fn without_keys_whole_rows_ascend(rt: HostRuntime) -> Result<(), Fail> {
    assert_arranged(
        &rt,
        FIVE,
        &[(
            "SELECT * FROM t",
            "INSERT INTO t VALUES (1,'a'),(1,'b'),(2,'b'),(2,NULL),(NULL,'a')",
        )],
    )
}

#[test]
fn desc_reverses_its_key_and_no_tie(rt: HostRuntime) -> Result<(), Fail> {
    assert_arranged(
        &rt,
        FIVE,
        &[
            (
                "SELECT * FROM t ORDER BY s",
                "INSERT INTO t VALUES (1,'a'),(NULL,'a'),(1,'b'),(2,'b'),(2,NULL)",
            ),
            (
                "SELECT * FROM t ORDER BY s DESC",
                "INSERT INTO t VALUES (2,NULL),(1,'b'),(2,'b'),(1,'a'),(NULL,'a')",
            ),
            (
                "SELECT * FROM t ORDER BY 2 DESC",
                "INSERT INTO t VALUES (2,NULL),(1,'b'),(2,'b'),(1,'a'),(NULL,'a')",
            ),
            (
                "SELECT * FROM t ORDER BY x DESC",
                "INSERT INTO t VALUES (NULL,'a'),(2,'b'),(2,NULL),(1,'a'),(1,'b')",
            ),
            (
                "SELECT * FROM t ORDER BY 2 DESC, 1 DESC",
                "INSERT INTO t VALUES (2,NULL),(2,'b'),(1,'b'),(NULL,'a'),(1,'a')",
            ),
            (
                "SELECT * FROM t ORDER BY x ASC, s DESC",
                "INSERT INTO t VALUES (1,'b'),(1,'a'),(2,NULL),(2,'b'),(NULL,'a')",
            ),
        ],
    )
}

#[test]
fn a_name_is_the_first_item_that_is_its_column(rt: HostRuntime) -> Result<(), Fail> {
    assert_arranged(
        &rt,
        "INSERT INTO t VALUES (9,2),(7,3),(8,1)",
        &[
            (
                "SELECT x + 1, x FROM t ORDER BY x",
                "INSERT INTO t VALUES (8,1),(9,2),(7,3)",
            ),
            (
                "SELECT x, x FROM t ORDER BY x",
                "INSERT INTO t VALUES (7,3),(8,1),(9,2)",
            ),
            (
                "SELECT COUNT(*), x FROM t GROUP BY x ORDER BY x DESC",
                "INSERT INTO t VALUES (7,3),(9,2),(8,1)",
            ),
            (
                "SELECT COUNT(*), x FROM t GROUP BY x ORDER BY 1",
                "INSERT INTO t VALUES (7,3),(8,1),(9,2)",
            ),
        ],
    )
}

#[test]
fn the_limit_keeps_the_first(rt: HostRuntime) -> Result<(), Fail> {
    assert_arranged(
        &rt,
        "INSERT INTO t VALUES (1,'a'),(2,'b'),(1,'a'),(NULL,'c')",
        &[
            ("SELECT * FROM t LIMIT 0", ""),
            (
                "SELECT * FROM t LIMIT 3",
                "INSERT INTO t VALUES (1,'a'),(1,'a'),(2,'b')",
            ),
            (
                "SELECT * FROM t ORDER BY x DESC LIMIT 2",
                "INSERT INTO t VALUES (NULL,'c'),(2,'b')",
            ),
            (
                "SELECT * FROM t LIMIT 9223372036854775807",
                "INSERT INTO t VALUES (1,'a'),(1,'a'),(2,'b'),(NULL,'c')",
            ),
        ],
    )
}

#[test]
fn a_limit_far_below_keeps_the_first_of_many(rt: HostRuntime) -> Result<(), Fail> {
    assert_arranged(
        &rt,
        MANY,
        &[
            (
                "SELECT * FROM t LIMIT 2",
                "INSERT INTO t VALUES (1,'a'),(1,'b')",
            ),
            (
                "SELECT * FROM t ORDER BY x DESC LIMIT 2",
                "INSERT INTO t VALUES (NULL,'a'),(24,'a')",
            ),
            (
                "SELECT * FROM t ORDER BY 2 DESC, 1 DESC LIMIT 2",
                "INSERT INTO t VALUES (1,'b'),(NULL,'a')",
            ),
            ("SELECT * FROM t LIMIT 0", ""),
        ],
    )
}
