//! The program over sources and sinks in memory: statuses, transcripts, failing reads and writes.

ghost use Rattle.std.specs.Prelude.{◌≡◌, ◌≤◌, ◌<◌, ◌+◌, Some, IfOk, IsErrOf, length};
ghost use Rattle.std.specs.Io.{WritesAtMost};
ghost use Rattle.std.specs.Io.KnownBytes.{WriteAppends};
ghost use Rattle.tt_edge.specs.Outside.{Counts};

use crate::top::{Status, top_alone};
use std::alloc::{AllocError, Global};
use std::process::Abort;
use std::test::Fail;
use tt_edge::{MemorySink, MemorySource, Sink, Unwritten};

const FIRST: &[u8] =
    b"%session a\nCREATE TABLE t (x INT);\nINSERT INTO t VALUES (2),(1),(2);\nSELECT * FROM t;\n";

const FIRST_TRANSCRIPT: &[u8] =
    b"@1 a 1 define\n= ok\n@2 a 2 start\n@3 a 2 end +1:3:31\n= 3 inserted\n@4 a 3 start\n@5 a 3 end\n: 1\n: 2\n: 2\n= 3 rows\n%end 5\n";

// The status for `replay` over a source and a sink, and whether there is a store.
fn called<K: Sink>(
    alloc: Global,
    source: &mut MemorySource,
    sink: &mut K,
) -> Result<(Status, bool), AllocError> {
    let words = vec![in alloc; String::from_str(alloc, "replay")?]?;
    let outcome = top_alone(alloc, words.as_slice(), source, sink);
    Ok((outcome.status, outcome.store.is_some()))
}

// What the call answers for a script, and what the sink then holds.
fn replayed(alloc: Global, script: &[u8]) -> Result<(Status, Vec<u8>), AllocError> {
    let mut source = MemorySource::new(Vec::from_slice(alloc, script)?, Vec::new(alloc));
    let mut sink = MemorySink::new(alloc, Vec::new(alloc));
    let (status, _) = called(alloc, &mut source, &mut sink)?;
    Ok((status, Vec::from_slice(alloc, sink.bytes())?))
}

// The first script in pieces of so many bytes, from a source whose reads of these numbers fail.
fn first_source(
    rt: &impl Abort,
    alloc: Global,
    limit: usize,
    fail: &[u64],
) -> Result<MemorySource, AllocError> {
    assert!(rt; limit > 0);
    let bytes = Vec::from_slice(alloc, FIRST)?;
    Ok(MemorySource::with_limit(bytes, Vec::from_slice(alloc, fail)?, limit))
}

// A sink that takes so many bytes a call, and whose writes of these numbers fail.
fn sink_of(
    rt: &impl Abort,
    alloc: Global,
    limit: usize,
    fail: &[u64],
) -> Result<MemorySink, AllocError> {
    assert!(rt; limit > 0);
    Ok(MemorySink::with_limit(alloc, Vec::from_slice(alloc, fail)?, limit))
}

// Each script has its transcript.
fn have_transcripts(
    rt: &impl Abort,
    alloc: Global,
    rows: &[(&str, &[u8], &[u8])],
) -> Result<(), AllocError> {
    for (name, script, transcript) in rows {
        let (status, written) = replayed(alloc, script)?;
        assert!(rt; status == Status::Ok, "{name}");
        assert!(rt; written.as_slice() == *transcript, "{name}");
    }
    Ok(())
}

#[test]
fn worked_scripts_have_their_transcripts(rt: HostRuntime) -> Result<(), Fail> {
    let rows: [(&str, &[u8], &[u8]); 6] = [
        ("an empty input", b"", b"%end 0\n"),
        (
            "a session without statements",
            b"%session a\r\n ;; \n",
            b"%end 0\n",
        ),
        ("copies are kept and rows ascend", FIRST, FIRST_TRANSCRIPT),
        (
            "names fold to upper case, and the extreme numbers are read",
            b"%session s1\ncreate table T(a int);insert INTO t values(9223372036854775807),(- 9223372036854775808);select*from T",
            b"@1 s1 1 define\n= ok\n@2 s1 2 start\n@3 s1 2 end +1:2:37\n= 2 inserted\n@4 s1 3 start\n@5 s1 3 end\n: -9223372036854775808\n: 9223372036854775807\n= 2 rows\n%end 5\n",
        ),
        (
            "unknown tables, taken names and wrong counts are refused, the least number first",
            b"%session a\nSELECT * FROM t;CREATE TABLE t (x INT, y INT);CREATE TABLE t (x INT, x INT);CREATE TABLE u (x INT, X INT);INSERT INTO t VALUES (1);INSERT INTO u VALUES (1)",
            b"@1 a 1 start refused 2\n! 2 UnknownTable 14\n@2 a 2 define\n= ok\n@3 a 3 define refused 3\n! 3 TableExists 13\n@4 a 4 define refused 5\n! 5 WrongCount 23\n@5 a 5 start refused 5\n! 5 WrongCount 21\n@6 a 6 start refused 2\n! 2 UnknownTable 12\n%end 6\n",
        ),
        (
            "32 columns are taken and 33 are not",
            b"%session a\nCREATE TABLE t (a INT,b INT,c INT,d INT,e INT,f INT,g INT,h INT,i INT,j INT,k INT,l INT,m INT,n INT,o INT,p INT,q INT,r INT,s INT,t INT,u INT,v INT,w INT,x INT,y INT,z INT,aa INT,ab INT,ac INT,ad INT,ae INT,af INT);CREATE TABLE u (a INT,b INT,c INT,d INT,e INT,f INT,g INT,h INT,i INT,j INT,k INT,l INT,m INT,n INT,o INT,p INT,q INT,r INT,s INT,t INT,u INT,v INT,w INT,x INT,y INT,z INT,aa INT,ab INT,ac INT,ad INT,ae INT,af INT,ag INT)",
            b"@1 a 1 define\n= ok\n@2 a 2 define refused 5\n! 5 WrongCount 214\n%end 2\n",
        ),
    ];
    Ok(have_transcripts(&rt, rt.alloc(), &rows)?)
}

#[test]
fn scripts_are_cut_and_begun_as_they_say(rt: HostRuntime) -> Result<(), Fail> {
    let rows: [(&str, &[u8], &[u8]); 7] = [
        ("white space alone", b" \t\r\n\n", b"%end 0\n"),
        ("a start without a session", b"%start 7\n", b"%end 0\n"),
        (
            "a semicolon in a text does not cut",
            b"%session a\nCREATE TABLE t (s VARCHAR);INSERT INTO t VALUES ('a;b');SELECT * FROM t",
            b"@1 a 1 define\n= ok\n@2 a 2 start\n@3 a 2 end +1:1:26\n= 1 inserted\n@4 a 3 start\n@5 a 3 end\n: 'a;b'\n= 1 rows\n%end 5\n",
        ),
        (
            "comments hide semicolons",
            b"%session a\nCREATE TABLE t (x INT); -- one; two\nINSERT INTO t VALUES (1) /* ; */ ; SELECT * FROM t",
            b"@1 a 1 define\n= ok\n@2 a 2 start\n@3 a 2 end +1:1:29\n= 1 inserted\n@4 a 3 start\n@5 a 3 end\n: 1\n= 1 rows\n%end 5\n",
        ),
        (
            "the least start",
            b"%start 0\n%session a\nCREATE TABLE t (x INT)",
            b"@1 a 1 define\n= ok\n%end 1\n",
        ),
        (
            "the greatest start",
            b"%start 253402300799999\n%session a\nCREATE TABLE t (x INT)",
            b"@253402300800000 a 1 define\n= ok\n%end 1\n",
        ),
        (
            "carriage returns",
            b"%start 5\r\n%session a\r\nCREATE TABLE t (x INT);\r\nSELECT * FROM t\r\n",
            b"@6 a 1 define\n= ok\n@7 a 2 start\n@8 a 2 end\n= 0 rows\n%end 3\n",
        ),
    ];
    Ok(have_transcripts(&rt, rt.alloc(), &rows)?)
}

#[test]
fn texts_without_an_end_and_long_names(rt: HostRuntime) -> Result<(), Fail> {
    let rows: [(&str, &[u8], &[u8]); 4] = [
        (
            "a text that is not closed is a fault at its quote",
            b"%session a\nSELECT 'x",
            b"@1 a 1 start refused 1\n! 1 Syntax 7\n%end 1\n",
        ),
        (
            "a statement that ends too early has its fault at its end",
            b"%session a\nSELECT 'x'",
            b"@1 a 1 start refused 1\n! 1 Syntax 10\n%end 1\n",
        ),
        (
            "a table's name has at most 64 bytes",
            b"%session a\nCREATE TABLE abcdefghabcdefghabcdefghabcdefghabcdefghabcdefghabcdefghabcdefgh (x INT);CREATE TABLE abcdefghabcdefghabcdefghabcdefghabcdefghabcdefghabcdefghabcdefghi (x INT);SELECT * FROM abcdefghabcdefghabcdefghabcdefghabcdefghabcdefghabcdefghabcdefghi",
            b"@1 a 1 define\n= ok\n@2 a 2 start refused 1\n! 1 Syntax 13\n@3 a 3 start refused 1\n! 1 Syntax 14\n%end 3\n",
        ),
        (
            "a session's name has at most 16 bytes",
            b"%session abcdefghijklmno9\nSELECT * FROM t",
            b"@1 abcdefghijklmno9 1 start refused 2\n! 2 UnknownTable 14\n%end 1\n",
        ),
    ];
    Ok(have_transcripts(&rt, rt.alloc(), &rows)?)
}

#[test]
fn values_are_stored_by_their_columns(rt: HostRuntime) -> Result<(), Fail> {
    let rows: [(&str, &[u8], &[u8]); 2] = [
        (
            "dates, texts, lists of columns and NULL",
            b"%session a\nCREATE TABLE t (x INT, d DATE, s VARCHAR);INSERT INTO t VALUES (1,'2024-02-29','it''s'),(NULL,DATE '0001-01-01','');INSERT INTO t (s, x) VALUES ('b', -2);SELECT * FROM t",
            b"@1 a 1 define\n= ok\n@2 a 2 start\n@3 a 2 end +1:2:68\n= 2 inserted\n@4 a 3 start\n@5 a 3 end +2:1:55\n= 1 inserted\n@6 a 4 start\n@7 a 4 end\n: -2,NULL,'b'\n: 1,2024-02-29,'it''s'\n: NULL,0001-01-01,''\n= 3 rows\n%end 7\n",
        ),
        (
            "a text that is a date is a text in a column of texts",
            b"%session a\nCREATE TABLE t (s TEXT NOT NULL, d DATE);INSERT INTO t (d, S) VALUES ('9999-12-31', '2024-02-29');SELECT * FROM t",
            b"@1 a 1 define\n= ok\n@2 a 2 start\n@3 a 2 end +1:1:48\n= 1 inserted\n@4 a 3 start\n@5 a 3 end\n: '2024-02-29',9999-12-31\n= 1 rows\n%end 5\n",
        ),
    ];
    Ok(have_transcripts(&rt, rt.alloc(), &rows)?)
}

// The statement behind the making of a table is refused so.
fn is_refused(
    rt: &impl Abort,
    alloc: Global,
    word: &str,
    number: u32,
    statement: &str,
    refusal: &str,
) -> Result<(), AllocError> {
    let script = format!(in alloc;
        "%session a\nCREATE TABLE t (x INT NOT NULL, d DATE, s VARCHAR);{statement}"
    )?;
    let transcript = format!(in alloc;
        "@1 a 1 define\n= ok\n@2 a 2 {word} refused {number}\n! {number} {refusal}\n%end 2\n"
    )?;
    let (status, written) = replayed(alloc, script.as_bytes())?;
    assert!(rt; status == Status::Ok, "{statement}");
    assert!(rt; written.as_slice() == transcript.as_bytes(), "{statement}");
    Ok(())
}

#[test]
fn statements_are_refused_at_their_places(rt: HostRuntime) -> Result<(), Fail> {
    for (number, statement, refusal) in [
        (1, "SELEC 1", "Syntax 0"),
        (1, "/* c */ SELECT * FROM", "Syntax 13"),
        (1, "INSERT INTO t VALUES (9223372036854775808)", "Syntax 22"),
        (1, "INSERT INTO t VALUES (DATE '2023-02-29')", "Syntax 27"),
        (1, "INSERT INTO t VALUES ('a", "Syntax 22"),
        (1, "SELECT * FROM t # x", "Syntax 16"),
        (1, "CREATE TABLE table (x INT)", "Syntax 13"),
        (2, "SELECT * FROM u", "UnknownTable 14"),
        (2, "INSERT INTO u VALUES (1)", "UnknownTable 12"),
        (4, "INSERT INTO t (x, y) VALUES (1, 2)", "UnknownColumn 18"),
        (4, "INSERT INTO t (y) VALUES (1, 2)", "UnknownColumn 15"),
        (5, "INSERT INTO t VALUES (1, NULL)", "WrongCount 21"),
        (5, "INSERT INTO t (x, x) VALUES (1, 2)", "WrongCount 18"),
        (5, "INSERT INTO t VALUES (1,NULL,NULL),(1)", "WrongCount 35"),
        (6, "INSERT INTO t VALUES ('a',NULL,NULL)", "TypeMismatch 22"),
        (
            6,
            "INSERT INTO t VALUES (1,'2023-02-29',NULL)",
            "TypeMismatch 24",
        ),
        (6, "INSERT INTO t VALUES (1,NULL,2)", "TypeMismatch 29"),
        (6, "INSERT INTO t VALUES (NULL,5,NULL)", "TypeMismatch 27"),
        (
            7,
            "INSERT INTO t VALUES (NULL,NULL,NULL)",
            "NullInNotNull 22",
        ),
        (7, "INSERT INTO t (d) VALUES (NULL)", "NullInNotNull 12"),
    ] {
        is_refused(&rt, rt.alloc(), "start", number, statement, refusal)?;
    }
    for (number, statement, refusal) in [
        (3, "CREATE TABLE T (x INT)", "TableExists 13"),
        (5, "CREATE TABLE u (x INT, X INT)", "WrongCount 23"),
    ] {
        is_refused(&rt, rt.alloc(), "define", number, statement, refusal)?;
    }
    Ok(())
}

#[test]
fn what_is_not_built_is_no_statement(rt: HostRuntime) -> Result<(), Fail> {
    for statement in [
        "UPDATE t SET x = 1",
        "DELETE FROM t",
        "COPY INTO t FROM 'f'",
        "INSERT INTO t SELECT * FROM t",
        "CREATE OR REPLACE TABLE u (x INT)",
        "CREATE TRANSIENT TABLE u (x INT)",
        "CREATE TABLE u (x INT) CLUSTER BY (x)",
        "CREATE TABLE u CLONE t",
        "DROP TABLE t",
        "UNDROP TABLE t",
        "TRUNCATE t",
        "ALTER TABLE t RENAME TO u",
        "BEGIN",
        "COMMIT",
        "ROLLBACK",
        "CALL SYSTEM$WAIT(1)",
        "EXPLAIN SELECT * FROM t",
        "SHOW TABLES",
        "SELECT * FROM INFORMATION_SCHEMA.TABLE_STORAGE_METRICS",
        "SELECT SYSTEM$CLUSTERING_DEPTH('t')",
        "SELECT x FROM t",
        "SELECT COUNT(*) FROM t",
        "SELECT * FROM t AT(OFFSET => -1)",
        "SELECT * FROM t WHERE x = 1",
        "SELECT * FROM t ORDER BY x",
        "SELECT * FROM t LIMIT 1",
    ] {
        is_refused(&rt, rt.alloc(), "start", 1, statement, "Syntax 0")?;
    }
    Ok(())
}

#[test]
fn inputs_are_bad_at_their_first_faulty_line(rt: HostRuntime) -> Result<(), Fail> {
    let inputs: [(&[u8], u64); 11] = [
        (b"x", 0),
        (b"%session A\n", 0),
        (b"%session a\nSELECT * FROM t;\n%session b\n", 28),
        (b"%session a\nSELECT * FROM t;\n%turns a\n", 28),
        (b"%start 253402300800000\n", 0),
        (b"%session a\n%start 1\n", 11),
        (b" \n\t\nx\n", 4),
        (b"%session a\n\xff\n", 11),
        (b"%session a \n", 0),
        (b"%session a\n%session a\n", 11),
        (b"%start 5\n%session abcdefghijklmno90\n", 9),
    ];
    for (input, place) in inputs {
        let (status, written) = replayed(rt.alloc(), input)?;
        assert!(rt; status == Status::BadInput(place), "{place}");
        assert!(rt; written.is_empty());
    }
    Ok(())
}

fn words_of(alloc: Global, line: &[&str]) -> Result<Vec<String>, AllocError> {
    let mut words = Vec::new(alloc);
    for word in line {
        words.push(String::from_str(alloc, word)?)?;
    }
    Ok(words)
}

#[test]
fn words_ask_for_the_rows_of_a_partition(rt: HostRuntime) -> Result<(), Fail> {
    let lines: [(&[&str], u32); 6] = [
        (&["replay"], 4096),
        (&["replay", "--partition-rows=1"], 1),
        (&["replay", "--partition-rows", "1"], 1),
        (&["replay", "--partition-rows=00007"], 7),
        (&["replay", "--partition-rows", "65536"], 65536),
        (&["replay", "--partition-rows=65536"], 65536),
    ];
    for (line, rows) in lines {
        let words = words_of(rt.alloc(), line)?;
        let mut source = first_source(&rt, rt.alloc(), 7, &[])?;
        let mut sink = MemorySink::new(rt.alloc(), Vec::new(rt.alloc()));
        let outcome = top_alone(rt.alloc(), words.as_slice(), &mut source, &mut sink);
        assert!(rt; outcome.status == Status::Ok);
        assert!(rt;
            outcome.store.is_some_and(|store| store.cap() == rows),
            "{rows}"
        );
    }
    Ok(())
}

// An INSERT's entry for these words.
fn has_parts(
    rt: &impl Abort,
    alloc: Global,
    line: &[&str],
    statement: &str,
    parts: &str,
    count: u32,
) -> Result<(), AllocError> {
    let script = format!(in alloc; "%session a\nCREATE TABLE t (x INT, s VARCHAR);{statement}")?;
    let transcript = format!(in alloc;
        "@1 a 1 define\n= ok\n@2 a 2 start\n@3 a 2 end{parts}\n= {count} inserted\n%end 3\n"
    )?;
    let words = words_of(alloc, line)?;
    let bytes = Vec::from_slice(alloc, script.as_bytes())?;
    let mut source = MemorySource::new(bytes, Vec::new(alloc));
    let mut sink = MemorySink::new(alloc, Vec::new(alloc));
    let outcome = top_alone(alloc, words.as_slice(), &mut source, &mut sink);
    assert!(rt; outcome.status == Status::Ok, "{statement}");
    assert!(rt; sink.bytes() == transcript.as_bytes(), "{statement}");
    Ok(())
}

// Each row of a table has a number, and a text of one byte: a part of one row takes 43 bytes, and one of two
// rows with other numbers and texts takes 48.
#[test]
fn an_insert_is_cut_at_the_length_that_the_words_ask_for(rt: HostRuntime) -> Result<(), Fail> {
    let five = "INSERT INTO t VALUES (1,'a'),(2,'b'),(3,'c'),(4,'d'),(5,'e')";
    let same = "INSERT INTO t VALUES (7,'a'),(7,'a')";
    let lines: [(&[&str], &str, &str, u32); 4] = [
        (
            &["replay", "--partition-rows=2"],
            five,
            " +1:2:48 +2:2:48 +3:1:43",
            5,
        ),
        (
            &["replay", "--partition-rows", "1"],
            same,
            " +1:1:43 +2:1:43",
            2,
        ),
        (
            &["replay", "--partition-rows=00001"],
            same,
            " +1:1:43 +2:1:43",
            2,
        ),
        (&["replay", "--partition-rows=65536"], same, " +1:2:47", 2),
    ];
    for (line, statement, parts, count) in lines {
        has_parts(&rt, rt.alloc(), line, statement, parts, count)?;
    }
    Ok(())
}

// The image of the first part that a script's run leaves.
fn first_image(alloc: Global, script: &[u8]) -> Result<Option<Vec<u8>>, AllocError> {
    let mut source = MemorySource::new(Vec::from_slice(alloc, script)?, Vec::new(alloc));
    let mut sink = MemorySink::new(alloc, Vec::new(alloc));
    let words = words_of(alloc, &["replay"])?;
    let outcome = top_alone(alloc, words.as_slice(), &mut source, &mut sink);
    let Some(store) = &outcome.store else {
        return Ok(None);
    };
    let Some(stored) = store.stored().first() else {
        return Ok(None);
    };
    let image = stored.part.partition().image();
    Ok(Some(Vec::from_slice(alloc, image)?))
}

#[test]
fn what_is_stored_are_images(rt: HostRuntime) -> Result<(), Fail> {
    let rows: [(&[u8], &[u8]); 2] = [
        (
            FIRST,
            b"TTP1\x03\0\0\0\x01\0\x01\x01\0\x0a\0\0\0\0\0\0\0\x01\0\0\0\0\0\0\0\x01\x05",
        ),
        (
            b"%session a\nCREATE TABLE t (s VARCHAR);INSERT INTO t VALUES ('a'),(NULL)",
            b"TTP1\x02\0\0\0\x01\0\x03\0\x01\x03\0\0\0\0\0\0\0\x02\x01\0a",
        ),
    ];
    for (script, image) in rows {
        let stored = first_image(rt.alloc(), script)?;
        assert!(rt; stored.is_some_and(|stored| stored.as_slice() == image));
    }
    Ok(())
}

#[test]
fn other_words_are_bad_and_nothing_is_read(rt: HostRuntime) -> Result<(), Fail> {
    let lines: [&[&str]; 16] = [
        &[],
        &[""],
        &["Replay"],
        &["run"],
        &["replay", ""],
        &["replay", "replay"],
        &["--", "replay"],
        &["--partition-rows=1"],
        &["replay", "--partition-rows"],
        &["replay", "--partition-rows="],
        &["replay", "--partition-rows=0"],
        &["replay", "--partition-rows=65537"],
        &["replay", "--partition-rows", "65537"],
        &["replay", "--partition-rows=000001"],
        &["replay", "--partition-rows", "+1"],
        &["replay", "--partition-rows=1", "--partition-rows=1"],
    ];
    for line in lines {
        let words = words_of(rt.alloc(), line)?;
        let mut source = first_source(&rt, rt.alloc(), 7, &[])?;
        let mut sink = MemorySink::new(rt.alloc(), Vec::new(rt.alloc()));
        let outcome = top_alone(rt.alloc(), words.as_slice(), &mut source, &mut sink);
        assert!(rt; outcome.status == Status::BadWords);
        assert_eq!(rt; source.calls(), 0);
        assert_eq!(rt; sink.calls(), 0);
    }
    Ok(())
}

#[test]
fn an_input_has_at_most_67_108_864_bytes(rt: HostRuntime) -> Result<(), Fail> {
    let rows: [(usize, Status, &[u8]); 2] = [
        (67_108_864, Status::Ok, b"%end 0\n"),
        (67_108_865, Status::TooLong, b""),
    ];
    for (length, status, transcript) in rows {
        let mut bytes = Vec::new(rt.alloc());
        bytes.resize(length, b' ')?;
        let mut source = MemorySource::new(bytes, Vec::new(rt.alloc()));
        let mut sink = MemorySink::new(rt.alloc(), Vec::new(rt.alloc()));
        let (answer, has_store) = called(rt.alloc(), &mut source, &mut sink)?;
        assert!(rt; answer == status, "{length}");
        assert!(rt; sink.bytes() == transcript, "{length}");
        assert_eq!(rt; has_store, status == Status::Ok);
    }
    Ok(())
}

#[test]
fn a_comment_may_be_as_long_as_the_input(rt: HostRuntime) -> Result<(), Fail> {
    let mut bytes = Vec::from_slice(rt.alloc(), b"%session a\n/*")?;
    bytes.resize(67_108_864, b'x')?;
    let mut source = MemorySource::new(bytes, Vec::new(rt.alloc()));
    let mut sink = MemorySink::new(rt.alloc(), Vec::new(rt.alloc()));
    let answer = called(rt.alloc(), &mut source, &mut sink)?;
    assert!(rt; answer == (Status::Ok, true));
    assert!(rt; sink.bytes() == b"%end 0\n".as_slice());
    Ok(())
}

#[test]
fn a_script_of_100_001_statements_is_bad_in_its_last_line(rt: HostRuntime) -> Result<(), Fail> {
    let mut script = Vec::from_slice(rt.alloc(), b"%session a\n")?;
    for _ in 0..100_000 {
        script.extend_from_slice(b"x;")?;
    }
    script.extend_from_slice(b"\nx")?;
    let (status, written) = replayed(rt.alloc(), script.as_slice())?;
    assert!(rt; status == Status::BadInput(200_012));
    assert!(rt; written.is_empty());
    Ok(())
}

#[test]
fn each_failed_read_is_told_and_nothing_is_written(rt: HostRuntime) -> Result<(), Fail> {
    let alloc = rt.alloc();
    for limit in [1, 2, 7, usize::MAX] {
        let mut source = first_source(&rt, alloc, limit, &[])?;
        let mut sink = MemorySink::new(alloc, Vec::new(alloc));
        let whole = called(alloc, &mut source, &mut sink)?;
        assert!(rt; whole == (Status::Ok, true) && source.calls() >= 2);
        for call in 0..source.calls() {
            let mut source = first_source(&rt, alloc, limit, &[call])?;
            let mut sink = MemorySink::new(alloc, Vec::new(alloc));
            let answer = called(alloc, &mut source, &mut sink)?;
            assert!(rt;
                answer == (Status::ReadFault, false),
                "read {call} of {limit}"
            );
            assert_eq!(rt; sink.calls(), 0);
        }
    }
    Ok(())
}

#[test]
fn each_failed_write_is_told_and_leaves_a_prefix(rt: HostRuntime) -> Result<(), Fail> {
    let alloc = rt.alloc();
    for limit in [1, 2, 7, usize::MAX] {
        let mut source = first_source(&rt, alloc, usize::MAX, &[])?;
        let mut sink = sink_of(&rt, alloc, limit, &[])?;
        let whole = called(alloc, &mut source, &mut sink)?;
        assert!(rt; whole == (Status::Ok, true));
        assert!(rt; sink.bytes() == FIRST_TRANSCRIPT);
        for call in 0..sink.calls() {
            let mut source = first_source(&rt, alloc, usize::MAX, &[])?;
            let mut sink = sink_of(&rt, alloc, limit, &[call])?;
            let answer = called(alloc, &mut source, &mut sink)?;
            assert!(rt;
                answer == (Status::WriteFault, true),
                "write {call} of {limit}"
            );
            assert!(rt; FIRST_TRANSCRIPT.starts_with(sink.bytes()));
            assert_eq!(rt; sink.bytes().is_empty(), call == 0);
        }
    }
    Ok(())
}

// A sink with room for so many bytes.
#[derive(Drop)]
struct Cramped {
    bytes: Vec<u8>,
    room: usize,
}

impl Sink for Cramped {
    ghost holds = { λ s. Some s.bytes.items };

    ghost received = { λ s. length s.bytes.items };

    ghost faults = { λ _. 0 };

    fn write(&mut self, piece: &[u8]) -> Result<usize, Unwritten>
        ensures bound { WritesAtMost result piece.now }
        ensures some { IfOk result (λ taken. 0 < length piece.now → 0 < taken) }
        ensures bytes { WriteAppends (Some self.old.bytes.items) (Some self.new.bytes.items) result piece.now }
        ensures counted { Counts (length self.old.bytes.items) (length self.new.bytes.items) result }
        ensures failed { IsErrOf result Unwritten.Failed → ⊥ }
    {
        let count = self.room.min(piece.len());
        if count == 0 && !piece.is_empty() {
            return Err(Unwritten::Memory);
        }
        match self.bytes.extend_from_slice(&piece[..count]) {
            Ok(()) => {
                self.room -= count;
                Ok(count)
            }
            Err(_) => Err(Unwritten::Memory),
        }
    }
}

#[test]
fn a_sink_that_cannot_grow_holds_a_prefix(rt: HostRuntime) -> Result<(), Fail> {
    let alloc = rt.alloc();
    for room in 0..=FIRST_TRANSCRIPT.len() {
        let mut source = first_source(&rt, alloc, usize::MAX, &[])?;
        let mut sink = Cramped {
            bytes: Vec::new(alloc),
            room,
        };
        let (status, has_store) = called(alloc, &mut source, &mut sink)?;
        let has_all = room == FIRST_TRANSCRIPT.len();
        let wanted = if has_all {
            Status::Ok
        } else {
            Status::OutOfMemory
        };
        assert!(rt; status == wanted, "{room}");
        assert_eq!(rt; has_store, room > 0);
        assert!(rt; sink.bytes.as_slice() == &FIRST_TRANSCRIPT[..room]);
    }
    Ok(())
}

#[test]
fn a_script_that_is_cut_is_bad_in_its_first_line_alone(rt: HostRuntime) -> Result<(), Fail> {
    for length in 0..=FIRST.len() {
        let (status, written) = replayed(rt.alloc(), &FIRST[..length])?;
        let is_script = length == 0 || length >= 10;
        let wanted = if is_script {
            Status::Ok
        } else {
            Status::BadInput(0)
        };
        assert!(rt; status == wanted, "{length}");
        assert_eq!(rt; written.is_empty(), !is_script);
    }
    Ok(())
}

// Whether a line begins at the place.
fn begins_line(script: &[u8], place: u64) -> bool {
    place == 0 || script.get(place as usize - 1) == Some(&b'\n')
}

#[test]
fn a_script_with_another_byte_is_read_or_bad(rt: HostRuntime) -> Result<(), Fail> {
    for place in 0..FIRST.len() {
        for byte in *b"';%\n\0\x80\xff (,-z1" {
            let mut script = Vec::from_slice(rt.alloc(), FIRST)?;
            script[place] = byte;
            let (status, written) = replayed(rt.alloc(), script.as_slice())?;
            let is_read = status == Status::Ok;
            let is_bad = match status {
                Status::BadInput(at) => begins_line(script.as_slice(), at),
                _ => false,
            };
            assert!(rt; is_read || is_bad, "{place} {byte}");
            assert_eq!(rt; written.is_empty(), !is_read, "{place} {byte}");
        }
    }
    Ok(())
}
