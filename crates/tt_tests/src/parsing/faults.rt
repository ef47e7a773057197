//! Texts that are no statements, and the places of their faults.

use crate::parsing::{assert_faults, assert_statements};
use std::test::Fail;

#[test]
fn the_first_token_that_does_not_fit_is_the_fault(rt: HostRuntime) -> Result<(), Fail> {
    assert_faults(
        &rt,
        &[
            ("", 0),
            ("-- only a comment", 17),
            ("COMMIT;", 6),
            ("SELECT x y FROM t", 9),
            ("SELECT COUNT(x + 1) FROM t", 15),
            ("SELECT SUM(*) FROM t", 11),
            ("SELECT * , x FROM t", 9),
            ("SELECT * FROM t WHERE x = 1 = 2", 28),
            ("SELECT * FROM t WHERE x", 23),
            ("SELECT * FROM t WHERE x + 1 = 2", 24),
            ("SELECT * FROM t WHERE (x) = 2", 24),
            ("SELECT * FROM t GROUP BY x GROUP BY y", 27),
            ("SELECT * FROM t LIMIT 1 ORDER BY x", 24),
            ("SELECT * FROM t AT(OFFSET => 2*3*4*5)", 34),
            ("SELECT * FROM t AT(STATEMENT => a)", 32),
            ("INSERT INTO t VALUES (x)", 22),
            ("INSERT INTO t VALUES ()", 22),
            ("INSERT INTO t () VALUES (1)", 15),
            ("UPDATE t SET WHERE x = 1", 13),
            ("CREATE TABLE t(a INT) CLUSTER BY(a) CLUSTER BY(a)", 36),
            ("CREATE TABLE t(a NUMBER)", 17),
            ("CREATE TABLE t(a INT NULL)", 21),
            ("ALTER TABLE t SUSPEND", 21),
            ("START WORK", 6),
            ("CALL SYSTEM$WAIT(x)", 17),
            ("CALL SYSTEM$WAIT(-1)", 17),
        ],
    )
}

#[test]
fn names_are_words_that_are_not_reserved(rt: HostRuntime) -> Result<(), Fail> {
    assert_statements(
        &rt,
        &[
            (
                "DROP TABLE a234567890123456789012345678901234567890123456789012345678901234",
                "DROP TABLE A234567890123456789012345678901234567890123456789012345678901234",
            ),
            ("DROP TABLE _a$1", "DROP TABLE _A$1"),
            ("DROP TABLE history", "DROP TABLE HISTORY"),
        ],
    )?;
    assert_faults(
        &rt,
        &[
            (
                "DROP TABLE a2345678901234567890123456789012345678901234567890123456789012345",
                11,
            ),
            ("DROP TABLE order", 11),
            ("SELECT select FROM t", 7),
            ("SELECT x FROM t WHERE values = 1", 22),
            ("SELECT SYSTEM$CLUSTERING_DEPTH('select')", 31),
            ("SELECT SYSTEM$CLUSTERING_DEPTH('a b')", 31),
        ],
    )
}

#[test]
fn words_of_later_parts_are_plain_names(rt: HostRuntime) -> Result<(), Fail> {
    assert_statements(
        &rt,
        &[
            (
                "create table temp(temporary int,schema date,public varchar)",
                "CREATE TABLE TEMP ( TEMPORARY INT , SCHEMA DATE , PUBLIC VARCHAR )",
            ),
            (
                "select temp,public from schema where temporary=1",
                "SELECT TEMP , PUBLIC FROM SCHEMA WHERE TEMPORARY = 1",
            ),
            (
                "alter table public rename to temporary",
                "ALTER TABLE PUBLIC RENAME TO TEMPORARY",
            ),
            (
                "select system$clustering_depth('schema')",
                "SELECT SYSTEM$CLUSTERING_DEPTH ( 'SCHEMA' )",
            ),
        ],
    )?;
    assert_faults(
        &rt,
        &[
            ("CREATE TEMPORARY TABLE t (x INT)", 7),
            ("CREATE OR REPLACE TEMP TABLE t CLONE u", 18),
            ("CREATE SCHEMA s", 7),
            ("DROP SCHEMA s", 5),
            ("UNDROP SCHEMA s", 7),
        ],
    )
}

#[test]
fn names_stand_alone_and_queries_have_one_table(rt: HostRuntime) -> Result<(), Fail> {
    assert_faults(
        &rt,
        &[
            ("SELECT t.x FROM t", 8),
            ("SELECT COUNT(t.x) FROM t", 14),
            ("SELECT x FROM s.t", 15),
            ("DELETE FROM t WHERE t.x = 1", 21),
            ("SELECT x FROM t ORDER BY t.x", 26),
            ("DROP TABLE s.t", 12),
            ("ALTER TABLE t RENAME TO s.u", 25),
            ("SELECT x FROM t JOIN u ON t.x = u.x", 16),
            (
                "SELECT x FROM t AT(OFFSET => 0) INNER JOIN u ON t.x = u.x",
                32,
            ),
        ],
    )
}

#[test]
fn numbers_and_dates_are_in_range(rt: HostRuntime) -> Result<(), Fail> {
    assert_statements(
        &rt,
        &[
            (
                "SELECT 9223372036854775807 - - 9223372036854775808 FROM t LIMIT 9223372036854775807",
                "SELECT 9223372036854775807 - - 9223372036854775808 FROM T LIMIT 9223372036854775807",
            ),
            (
                "SELECT 000000000000000000009 , DATE '9999-12-31' FROM t",
                "SELECT 9 , DATE '9999-12-31' FROM T",
            ),
        ],
    )?;
    assert_faults(
        &rt,
        &[
            ("SELECT 9223372036854775808 FROM t", 7),
            ("SELECT - 9223372036854775809 FROM t", 9),
            ("SELECT 1 - 9223372036854775808 FROM t", 11),
            ("SELECT * FROM t LIMIT 9223372036854775808", 22),
            ("SELECT * FROM t LIMIT -1", 22),
            ("CALL SYSTEM$WAIT(1000000000)", 17),
            ("CALL SYSTEM$WAIT(5, 'weeks')", 20),
            ("SELECT * FROM t AT(OFFSET => 1000000000)", 29),
            ("SELECT * FROM t AT(TIMESTAMP => '2024-02-30 00:00:00')", 32),
            ("SELECT * FROM t AT(TIMESTAMP => '2024-02-28')", 32),
            ("SELECT DATE '2023-02-29' FROM t", 12),
            ("INSERT INTO t VALUES (DATE 'x')", 27),
        ],
    )
}
