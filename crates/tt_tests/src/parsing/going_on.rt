//! Where a statement may end, and where it may go on.

use crate::parsing::{assert_fault, assert_finished};
use std::process::Abort;
use std::test::Fail;

/// That no statement ends with these bytes or goes on with a semicolon, and each goes on with another token.
fn assert_unfinished<R: Abort + AllocGlobal>(rt: &R, bytes: &[u8]) -> Result<(), Fail> {
    assert!(rt; bytes.len() < 1_000);
    let Ok(text) = str::from_utf8(bytes) else {
        panic!(rt; "no text");
    };
    assert_fault(rt, text, bytes.len() as u32)?;
    assert_followed(rt, bytes)
}

/// That no statement goes on with a semicolon behind these bytes.
fn assert_followed<R: Abort + AllocGlobal>(rt: &R, bytes: &[u8]) -> Result<(), Fail> {
    assert!(rt; bytes.len() < 1_000);
    let mut longer = bytes.to_vec(rt.alloc())?;
    longer.extend_from_slice(b" ;")?;
    let Ok(text) = str::from_utf8(&longer) else {
        panic!(rt; "no text");
    };
    assert_fault(rt, text, bytes.len() as u32 + 1)
}

/// That the pieces together are a statement at the end of each piece, and at no other blank.
fn assert_pieces<R: Abort + AllocGlobal>(rt: &R, pieces: &[&str]) -> Result<(), Fail> {
    let mut text = Vec::new(rt.alloc());
    for piece in pieces {
        let mut inside = false;
        for byte in piece.as_bytes() {
            if inside && *byte == b' ' {
                assert_unfinished(rt, &text)?;
            }
            text.push(*byte)?;
            inside = true;
        }
        assert_finished(rt, &text)?;
        assert_followed(rt, &text)?;
    }
    Ok(())
}

#[test]
fn queries_go_on_only_where_they_may(rt: HostRuntime) -> Result<(), Fail> {
    assert_pieces(
        &rt,
        &[
            "SELECT x + 2 * ( - y ) , COUNT ( * ) , COUNT ( x ) , SUM ( x ) , MIN , MAX ( x ) FROM t",
            " WHERE x = 1",
            " GROUP BY x",
            " , y",
            " ORDER BY x",
            " DESC",
            " , 2",
            " ASC",
            " LIMIT 10",
        ],
    )?;
    assert_pieces(
        &rt,
        &[
            "EXPLAIN SELECT NULL , 'a' , - 1 , DATE '2024-01-02' , DATE FROM t",
            " LIMIT 1",
        ],
    )?;
    assert_pieces(
        &rt,
        &[
            "SELECT * FROM information_schema",
            " . table_storage_metrics",
        ],
    )?;
    assert_pieces(&rt, &["SELECT SYSTEM$CLUSTERING_DEPTH ( 't' )"])
}

#[test]
fn moments_go_on_only_where_they_may(rt: HostRuntime) -> Result<(), Fail> {
    assert_pieces(
        &rt,
        &[
            "SELECT * FROM t",
            " AT ( TIMESTAMP => '2024-01-02T03:04:05' :: TIMESTAMP_NTZ )",
            " WHERE DATE '2024-01-02' <> d",
        ],
    )?;
    assert_pieces(
        &rt,
        &[
            "SELECT * FROM t",
            " BEFORE ( OFFSET => - 60 * 60 * 24 )",
            " LIMIT 1",
        ],
    )?;
    assert_pieces(
        &rt,
        &["CREATE TABLE t CLONE u", " AT ( STATEMENT => 'a-1' )"],
    )
}

#[test]
fn predicates_go_on_only_where_they_may(rt: HostRuntime) -> Result<(), Fail> {
    assert_pieces(
        &rt,
        &[
            "DELETE FROM t",
            " WHERE x <= - 1",
            " OR y NOT IN ( 1 , - 2 , NULL , 'a' , DATE '2024-01-02' )",
            " OR z NOT BETWEEN 'a' AND 'b'",
            " AND STARTSWITH ( x , 'a' )",
            " AND STARTSWITH > 1",
            " AND NOT ( y IS NOT NULL AND NOT z IS NULL )",
        ],
    )
}

#[test]
fn changes_go_on_only_where_they_may(rt: HostRuntime) -> Result<(), Fail> {
    assert_pieces(
        &rt,
        &[
            "INSERT INTO t ( a , b ) VALUES ( 1 , 'x' )",
            " , ( NULL , DATE '2024-02-29' )",
        ],
    )?;
    assert_pieces(&rt, &["INSERT INTO t SELECT * FROM u", " LIMIT 1"])?;
    assert_pieces(
        &rt,
        &[
            "UPDATE t SET a = a",
            " + 1",
            " , b = - ( a )",
            " WHERE a > 0",
        ],
    )?;
    assert_pieces(&rt, &["COPY INTO t FROM 'f.csv'"])
}

#[test]
fn tables_go_on_only_where_they_may(rt: HostRuntime) -> Result<(), Fail> {
    assert_pieces(
        &rt,
        &[
            "CREATE OR REPLACE TRANSIENT TABLE t ( a INT NOT NULL , b DATE , c TEXT )",
            " CLUSTER BY ( a )",
            " DATA_RETENTION_TIME_IN_DAYS = 7",
        ],
    )?;
    assert_pieces(
        &rt,
        &[
            "CREATE TABLE t ( a BIGINT )",
            " DATA_RETENTION_TIME_IN_DAYS = 7",
            " CLUSTER BY ( a )",
        ],
    )?;
    for text in [
        "DROP TABLE t",
        "UNDROP TABLE t",
        "TRUNCATE TABLE t",
        "TRUNCATE t",
        "ALTER TABLE t RENAME TO u",
        "ALTER TABLE t SWAP WITH u",
        "ALTER TABLE t SET DATA_RETENTION_TIME_IN_DAYS = 1",
        "ALTER TABLE t CLUSTER BY ( a )",
        "ALTER TABLE t DROP CLUSTERING KEY",
        "ALTER TABLE t SUSPEND RECLUSTER",
        "ALTER TABLE t RESUME RECLUSTER",
    ] {
        assert_pieces(&rt, &[text])?;
    }
    Ok(())
}

#[test]
fn other_statements_go_on_only_where_they_may(rt: HostRuntime) -> Result<(), Fail> {
    assert_pieces(&rt, &["BEGIN", " WORK"])?;
    assert_pieces(&rt, &["BEGIN", " TRANSACTION"])?;
    assert_pieces(&rt, &["START TRANSACTION"])?;
    assert_pieces(&rt, &["COMMIT", " WORK"])?;
    assert_pieces(&rt, &["ROLLBACK", " WORK"])?;
    assert_pieces(&rt, &["SHOW TABLES", " HISTORY"])?;
    assert_pieces(&rt, &["CALL SYSTEM$WAIT ( 5 , 'minutes' )"])
}
