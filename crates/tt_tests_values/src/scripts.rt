//! Scripts: their sessions and statements, and their first faulty lines.

use std::alloc::{AllocError, Global};
use std::process::Abort;
use std::test::Fail;
use tt_script::{BadInput, Program, ReadError, read};

fn bytes_of(alloc: Global, text: &str) -> Result<Vec<u8>, AllocError> {
    let mut bytes = Vec::new(alloc);
    bytes.extend_from_slice(text.as_bytes())?;
    Ok(bytes)
}

fn program<R: Abort + AllocGlobal>(rt: &R, text: &str) -> Result<Program, Fail> {
    let bytes = bytes_of(rt.alloc(), text)?;
    assert!(rt; bytes.len() < 1_000_000);
    match read(rt.alloc(), bytes) {
        Ok(program) => Ok(program),
        Err(ReadError::Bad(BadInput { place })) => panic!(rt; "a fault at {place} in {text:?}"),
        Err(ReadError::Memory) => panic!(rt; "no memory for {text:?}"),
    }
}

/// What the program of a script with one session is: its start, and where its statements stand.
fn assert_session<R: Abort + AllocGlobal>(
    rt: &R,
    text: &str,
    start: u64,
    name: &str,
    wanted: &[(u32, u32)],
) -> Result<(), Fail> {
    let program = program(rt, text)?;
    let script = program.script();
    assert_eq!(rt; script.start, start, "in {text:?}");
    assert_eq!(rt; script.text.as_str(), text);
    assert_eq!(rt; script.sessions.len(), 1, "in {text:?}");
    for session in script.sessions.items() {
        assert_eq!(rt; session.name.as_str(), name, "in {text:?}");
        assert_eq!(rt; session.statements.items(), wanted, "in {text:?}");
    }
    Ok(())
}

/// What the program of a script without a session is.
fn assert_empty<R: Abort + AllocGlobal>(rt: &R, text: &str, start: u64) -> Result<(), Fail> {
    let program = program(rt, text)?;
    let script = program.script();
    assert_eq!(rt; script.start, start, "in {text:?}");
    assert!(rt; script.sessions.is_empty(), "in {text:?}");
    Ok(())
}

fn place_of<R: Abort + AllocGlobal>(rt: &R, bytes: Vec<u8>) -> Option<u64> {
    assert!(rt; bytes.len() < 2_000_000);
    match read(rt.alloc(), bytes) {
        Err(ReadError::Bad(BadInput { place })) => Some(place),
        _ => None,
    }
}

fn assert_faulty<R: Abort + AllocGlobal>(rt: &R, bytes: &[u8], place: u64) -> Result<(), Fail> {
    let mut input = Vec::new(rt.alloc());
    input.extend_from_slice(bytes)?;
    assert_eq!(rt; place_of(rt, input), Some(place), "in {bytes:?}");
    Ok(())
}

#[test]
fn scripts_without_a_session(rt: HostRuntime) -> Result<(), Fail> {
    assert_empty(&rt, "", 0)?;
    assert_empty(&rt, "   ", 0)?;
    assert_empty(&rt, " \t\r\n\n  ", 0)?;
    assert_empty(&rt, "%start 0", 0)?;
    assert_empty(&rt, "%start 253402300799999\n", 253_402_300_799_999)?;
    assert_empty(&rt, "%start 000000000000007\r\n \n", 7)?;
    Ok(())
}

#[test]
fn a_session_and_its_statements(rt: HostRuntime) -> Result<(), Fail> {
    assert_session(&rt, "%session a", 0, "a", &[])?;
    assert_session(&rt, "%session a\r\n", 0, "a", &[])?;
    assert_session(&rt, "%session a\r", 0, "a", &[])?;
    assert_session(
        &rt,
        "%session abcdefghijklmno9\nx",
        0,
        "abcdefghijklmno9",
        &[(26, 27)],
    )?;
    assert_session(&rt, "%session a\nSELECT 'x", 0, "a", &[(11, 20)])?;
    assert_session(
        &rt,
        "%start 5\n%session a\nA;B",
        5,
        "a",
        &[(20, 21), (22, 23)],
    )?;
    assert_session(&rt, "%start 5\n \t\r\n\n%session a\nA", 5, "a", &[(25, 26)])?;
    assert_session(&rt, " \n%session a\nA ;\n", 0, "a", &[(13, 15)])?;
    Ok(())
}

#[test]
fn semicolons_cut_outside_texts_and_comments(rt: HostRuntime) -> Result<(), Fail> {
    let table: [(&str, &[(u32, u32)]); 20] = [
        ("", &[]),
        (";;", &[]),
        (" ; \t;\n", &[]),
        ("A", &[(0, 1)]),
        ("A; ", &[(0, 1)]),
        (" A ;B", &[(1, 3), (4, 5)]),
        ("SELECT 'a;b' ; -- ; \n /* ; */ ;", &[(0, 13)]),
        ("'a''b;'';c'", &[(0, 11)]),
        ("'a';'b'", &[(0, 3), (4, 7)]),
        ("-- a\nB--;\n;C", &[(5, 10), (11, 12)]),
        ("- -;-", &[(0, 3), (4, 5)]),
        ("/ *;/**/A", &[(0, 3), (8, 9)]),
        ("/*/;*/A", &[(6, 7)]),
        ("/***/A;/* **/B", &[(5, 6), (13, 14)]),
        ("A /* ;", &[(0, 6)]),
        (" /* A;", &[]),
        ("-- A;", &[]),
        ("--';\nB", &[(5, 6)]),
        ("'--';B", &[(0, 4), (5, 6)]),
        ("/* é */é;-- é\né", &[(8, 10), (17, 19)]),
    ];
    for (body, wanted) in table {
        let mut text = String::from_str(rt.alloc(), "%session a\n")?;
        text.push_str(body)?;
        let program = program(&rt, text.as_str())?;
        for session in program.script().sessions.items() {
            assert_eq!(rt; session.statements.len(), wanted.len(), "in {body:?}");
            for (found, want) in session.statements.items().iter().zip(wanted) {
                let (begin, end) = *found;
                assert!(rt; 11 <= begin && 11 <= end);
                assert_eq!(rt; (begin - 11, end - 11), *want, "in {body:?}");
            }
        }
    }
    Ok(())
}

#[test]
fn the_first_faulty_line_is_given(rt: HostRuntime) -> Result<(), Fail> {
    for (text, place) in [
        ("x", 0),
        (" \n\u{a0}", 2),
        ("%", 0),
        ("%start", 0),
        ("%start ", 0),
        ("%start 5 ", 0),
        ("%start  5", 0),
        ("%start -5", 0),
        ("%Start 5", 0),
        ("%start 5\r\r\n", 0),
        ("%start 253402300800000", 0),
        ("%start 0000000000000005", 0),
        ("\n%start 5", 1),
        ("%start 5\n%start 5", 9),
        ("%session a\n%start 5", 11),
        ("%start 5\n \nx\n", 11),
        ("%session", 0),
        ("%session ", 0),
        ("%session A", 0),
        ("%session 1a", 0),
        ("%session a b", 0),
        ("%session a ", 0),
        (" %session a", 0),
        ("%session abcdefghijklmno90", 0),
        ("%session a\n%session a", 11),
        ("%session a\n%session b\n%", 11),
        ("%session a\nA;\n%turns a\n", 14),
        ("%file f 0\n", 0),
        ("%session a\n\n%transcript\n", 12),
        ("%session a\n'\n%'", 13),
    ] {
        assert_faulty(&rt, text.as_bytes(), place)?;
    }
    for (text, place) in [
        (&b"\xff"[..], 0),
        (&b" \n\xc3"[..], 2),
        (&b" \n\xc3\n\xa9"[..], 2),
        (&b"x\n\xff"[..], 0),
        (&b"%session a\nA\n--\xff\n"[..], 13),
        (&b"%session \xff\n"[..], 0),
        (&b"%session a\n%session a\n\xff"[..], 11),
    ] {
        assert_faulty(&rt, text, place)?;
    }
    Ok(())
}

/// A session with so many statements on one line, and two more on lines of their own.
fn many_statements(alloc: Global, first: usize) -> Result<String, AllocError> {
    let mut text = String::from_str(alloc, "%session a\n")?;
    for _ in 0..first {
        text.push_str("x;")?;
    }
    text.push_str("\nx;\n  x")?;
    Ok(text)
}

#[test]
fn a_script_may_have_100000_statements(rt: HostRuntime) -> Result<(), Fail> {
    let text = many_statements(rt.alloc(), 99_998)?;
    let program = program(&rt, text.as_str())?;
    let sessions = &program.script().sessions;
    assert_eq!(rt; sessions.len(), 1);
    for session in sessions.items() {
        assert_eq!(rt; session.statements.len(), 100_000);
    }
    Ok(())
}

#[test]
fn the_line_of_the_100001st_statement_is_faulty(rt: HostRuntime) -> Result<(), Fail> {
    let late = many_statements(rt.alloc(), 99_999)?;
    assert_faulty(&rt, late.as_bytes(), 200_013)?;
    let mut later_fault = many_statements(rt.alloc(), 99_999)?;
    later_fault.push_str("\n%session b")?;
    assert_faulty(&rt, later_fault.as_bytes(), 200_013)?;
    let text = many_statements(rt.alloc(), 100_001)?;
    let mut same_line = bytes_of(rt.alloc(), text.as_str())?;
    same_line.extend_from_slice(b"\n\xff")?;
    assert_faulty(&rt, same_line.as_slice(), 11)?;
    Ok(())
}

#[test]
fn a_program_gives_its_statements_and_has_several_owners(rt: HostRuntime) -> Result<(), Fail> {
    let first = program(&rt, "%session a\nSELECT 'é;' ;-- B\n C")?;
    let second = first.share()?;
    drop(first);
    assert_eq!(rt; second.statement(0, 0), Some("SELECT 'é;' "));
    assert_eq!(rt; second.statement(0, 1), Some("C"));
    assert_eq!(rt; second.statement(0, 2), None);
    assert_eq!(rt; second.statement(1, 0), None);
    Ok(())
}
