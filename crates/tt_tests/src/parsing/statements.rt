//! Statements that are read, and the one text of each.

use crate::parsing::assert_statements;
use std::test::Fail;

#[test]
fn queries_select_items(rt: HostRuntime) -> Result<(), Fail> {
    assert_statements(
        &rt,
        &[
            ("select /* all */ *\nFROM -- rows\n t", "SELECT * FROM T"),
            (
                "SELECT -5- -6*x,-(y)+1 FROM t",
                "SELECT - 5 - - 6 * X , - ( Y ) + 1 FROM T",
            ),
            (
                "SELECT 'it''s',NULL,DATE '2024-02-29',date FROM t",
                "SELECT 'it''s' , NULL , DATE '2024-02-29' , DATE FROM T",
            ),
            (
                "select count(*),COUNT(x),sum(x),MIN(x),max(x),count,sum*2 FROM t",
                "SELECT COUNT ( * ) , COUNT ( X ) , SUM ( X ) , MIN ( X ) , MAX ( X ) , COUNT , SUM * 2 FROM T",
            ),
            (
                "SELECT x FROM t group by x,count order by 1 desc,x asc,y limit 007",
                "SELECT X FROM T GROUP BY X , COUNT ORDER BY 1 DESC , X , Y LIMIT 7",
            ),
        ],
    )
}

#[test]
fn queries_read_at_moments(rt: HostRuntime) -> Result<(), Fail> {
    assert_statements(
        &rt,
        &[
            (
                "SELECT * FROM t AT(TIMESTAMP=>'2024-01-02T03:04:05.6Z'::TIMESTAMP_NTZ)",
                "SELECT * FROM T AT ( TIMESTAMP => '2024-01-02 03:04:05.600' )",
            ),
            (
                "SELECT * FROM t before(timestamp => '0001-01-01 00:00:00')",
                "SELECT * FROM T BEFORE ( TIMESTAMP => '0001-01-01 00:00:00.000' )",
            ),
            (
                "SELECT * FROM t AT(OFFSET=>-60*60*24)WHERE x=1",
                "SELECT * FROM T AT ( OFFSET => - 60 * 60 * 24 ) WHERE X = 1",
            ),
            (
                "SELECT * FROM t BEFORE(offset=>999999999)",
                "SELECT * FROM T BEFORE ( OFFSET => 999999999 )",
            ),
            (
                "SELECT * FROM t at(statement=>'a-1')",
                "SELECT * FROM T AT ( STATEMENT => 'a-1' )",
            ),
        ],
    )
}

#[test]
fn predicates_are_read(rt: HostRuntime) -> Result<(), Fail> {
    assert_statements(
        &rt,
        &[
            (
                "DELETE FROM t WHERE a=1 and(b<>2 or not c!=3)",
                "DELETE FROM T WHERE A = 1 AND ( B <> 2 OR NOT C <> 3 )",
            ),
            (
                "DELETE FROM t WHERE x IS NULL OR x IS NOT NULL AND x IN(1,-2)OR x NOT IN('a')",
                "DELETE FROM T WHERE X IS NULL OR X IS NOT NULL AND X IN ( 1 , - 2 ) OR X NOT IN ( 'a' )",
            ),
            (
                "DELETE FROM t WHERE x BETWEEN 1 AND 2 AND x NOT BETWEEN DATE '2024-01-01' AND NULL",
                "DELETE FROM T WHERE X BETWEEN 1 AND 2 AND X NOT BETWEEN DATE '2024-01-01' AND NULL",
            ),
            (
                "DELETE FROM t WHERE startswith(x,'a') AND startswith>=1 AND 1<=x AND NULL< -1 AND 'a'>x",
                "DELETE FROM T WHERE STARTSWITH ( X , 'a' ) AND STARTSWITH >= 1 AND 1 <= X AND NULL < - 1 AND 'a' > X",
            ),
            (
                "DELETE FROM t WHERE date=DATE '2024-01-01' OR DATE '2024-01-01'<date",
                "DELETE FROM T WHERE DATE = DATE '2024-01-01' OR DATE '2024-01-01' < DATE",
            ),
        ],
    )
}

#[test]
fn changes_of_rows_are_read(rt: HostRuntime) -> Result<(), Fail> {
    assert_statements(
        &rt,
        &[
            (
                "insert into T(a,b)values(1,'x'),(NULL,DATE '2024-02-29')",
                "INSERT INTO T ( A , B ) VALUES ( 1 , 'x' ) , ( NULL , DATE '2024-02-29' )",
            ),
            (
                "INSERT INTO t VALUES(-9223372036854775808,9223372036854775807,'')",
                "INSERT INTO T VALUES ( - 9223372036854775808 , 9223372036854775807 , '' )",
            ),
            (
                "INSERT INTO t(a) SELECT * FROM u",
                "INSERT INTO T ( A ) SELECT * FROM U",
            ),
            (
                "update t SET a=a*2,b=NULL where a>0",
                "UPDATE T SET A = A * 2 , B = NULL WHERE A > 0",
            ),
            ("Delete From t", "DELETE FROM T"),
            (
                "copy into t from 'it''s.csv'",
                "COPY INTO T FROM 'it''s.csv'",
            ),
        ],
    )
}

#[test]
fn tables_are_made_and_copied(rt: HostRuntime) -> Result<(), Fail> {
    assert_statements(
        &rt,
        &[
            (
                "create or replace transient table t(a integer not null,b date,c string)data_retention_time_in_days=7 cluster by(a)",
                "CREATE OR REPLACE TRANSIENT TABLE T ( A INT NOT NULL , B DATE , C VARCHAR ) CLUSTER BY ( A ) DATA_RETENTION_TIME_IN_DAYS = 7",
            ),
            (
                "CREATE TABLE t(int INT,bigint BIGINT,text TEXT)cluster by(int) data_retention_time_in_days=0",
                "CREATE TABLE T ( INT INT , BIGINT INT , TEXT VARCHAR ) CLUSTER BY ( INT ) DATA_RETENTION_TIME_IN_DAYS = 0",
            ),
            ("CREATE TABLE t(a VARCHAR)", "CREATE TABLE T ( A VARCHAR )"),
            (
                "CREATE TABLE t CLONE u BEFORE(STATEMENT=>'b-2')",
                "CREATE TABLE T CLONE U BEFORE ( STATEMENT => 'b-2' )",
            ),
            (
                "create transient table t clone u",
                "CREATE TRANSIENT TABLE T CLONE U",
            ),
            ("drop table t", "DROP TABLE T"),
            ("undrop table t", "UNDROP TABLE T"),
            ("truncate t", "TRUNCATE TABLE T"),
            ("truncate table t", "TRUNCATE TABLE T"),
        ],
    )
}

#[test]
fn tables_are_changed(rt: HostRuntime) -> Result<(), Fail> {
    assert_statements(
        &rt,
        &[
            ("alter table t rename to u", "ALTER TABLE T RENAME TO U"),
            ("alter table t swap with u", "ALTER TABLE T SWAP WITH U"),
            (
                "alter table t set data_retention_time_in_days=90",
                "ALTER TABLE T SET DATA_RETENTION_TIME_IN_DAYS = 90",
            ),
            (
                "alter table t cluster by(a)",
                "ALTER TABLE T CLUSTER BY ( A )",
            ),
            (
                "alter table t drop clustering key",
                "ALTER TABLE T DROP CLUSTERING KEY",
            ),
            (
                "alter table t suspend recluster",
                "ALTER TABLE T SUSPEND RECLUSTER",
            ),
            (
                "alter table t resume recluster",
                "ALTER TABLE T RESUME RECLUSTER",
            ),
        ],
    )
}

#[test]
fn other_statements_are_read(rt: HostRuntime) -> Result<(), Fail> {
    assert_statements(
        &rt,
        &[
            ("begin", "BEGIN"),
            ("BEGIN work", "BEGIN"),
            ("begin transaction", "BEGIN"),
            ("start transaction", "BEGIN"),
            ("commit work", "COMMIT"),
            ("Commit", "COMMIT"),
            ("rollback work", "ROLLBACK"),
            ("RollBack", "ROLLBACK"),
            ("call system$wait(5)", "CALL SYSTEM$WAIT ( 5 , 'SECONDS' )"),
            (
                "call system$wait(999999999,'Days')",
                "CALL SYSTEM$WAIT ( 999999999 , 'DAYS' )",
            ),
            (
                "call system$wait(1,'hours')",
                "CALL SYSTEM$WAIT ( 1 , 'HOURS' )",
            ),
            (
                "call system$wait(1,'MINUTES')",
                "CALL SYSTEM$WAIT ( 1 , 'MINUTES' )",
            ),
            (
                "call system$wait(1,'seconds')",
                "CALL SYSTEM$WAIT ( 1 , 'SECONDS' )",
            ),
            (
                "call system$wait(1,'milliSeconds')",
                "CALL SYSTEM$WAIT ( 1 , 'MILLISECONDS' )",
            ),
            ("show tables", "SHOW TABLES"),
            ("show tables history", "SHOW TABLES HISTORY"),
        ],
    )
}

#[test]
fn selects_that_are_no_queries_are_read(rt: HostRuntime) -> Result<(), Fail> {
    assert_statements(
        &rt,
        &[
            ("explain select * from t", "EXPLAIN SELECT * FROM T"),
            (
                "select * from information_schema.table_storage_metrics",
                "SELECT * FROM INFORMATION_SCHEMA . TABLE_STORAGE_METRICS",
            ),
            (
                "select * from information_schema limit 1",
                "SELECT * FROM INFORMATION_SCHEMA LIMIT 1",
            ),
            (
                "select * from table_storage_metrics",
                "SELECT * FROM TABLE_STORAGE_METRICS",
            ),
            (
                "select system$clustering_depth('t_1')",
                "SELECT SYSTEM$CLUSTERING_DEPTH ( 'T_1' )",
            ),
            (
                "select system$clustering_depth+1,x from t",
                "SELECT SYSTEM$CLUSTERING_DEPTH + 1 , X FROM T",
            ),
        ],
    )
}
