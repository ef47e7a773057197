//! Which statements are carried out so far.

use crate::parsing::assert_carried_out;
use std::test::Fail;

#[test]
fn tables_with_columns_alone_are_made(rt: HostRuntime) -> Result<(), Fail> {
    assert_carried_out(
        &rt,
        &[
            ("CREATE TABLE t (a INT NOT NULL, b DATE, c VARCHAR)", true),
            ("CREATE OR REPLACE TABLE t (a INT)", false),
            ("CREATE TRANSIENT TABLE t (a INT)", false),
            ("CREATE TABLE t (a INT) CLUSTER BY (a)", false),
            (
                "CREATE TABLE t (a INT) DATA_RETENTION_TIME_IN_DAYS = 1",
                false,
            ),
            ("CREATE TABLE t CLONE u", false),
            ("DROP TABLE t", false),
        ],
    )
}

#[test]
fn written_rows_are_inserted(rt: HostRuntime) -> Result<(), Fail> {
    assert_carried_out(
        &rt,
        &[
            ("INSERT INTO t VALUES (1), (NULL)", true),
            ("INSERT INTO t (b, a) VALUES (1, 'x')", true),
            ("INSERT INTO t SELECT * FROM u", false),
            ("DELETE FROM t", false),
            ("UPDATE t SET a = 1", false),
        ],
    )
}

#[test]
fn whole_tables_are_selected(rt: HostRuntime) -> Result<(), Fail> {
    assert_carried_out(
        &rt,
        &[
            ("SELECT * FROM t", true),
            ("SELECT a FROM t", false),
            ("SELECT * FROM t AT (OFFSET => -1)", false),
            ("SELECT * FROM t WHERE a = 1", false),
            ("SELECT * FROM t GROUP BY a", false),
            ("SELECT * FROM t ORDER BY a", false),
            ("SELECT * FROM t LIMIT 1", false),
            ("EXPLAIN SELECT * FROM t", false),
            ("SHOW TABLES", false),
            ("BEGIN", false),
        ],
    )
}
