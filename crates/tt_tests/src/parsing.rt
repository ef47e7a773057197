//! What each text is read as: a statement, with its one text, or a fault at a place.

mod carried;
mod faults;
mod going_on;
mod levels;
mod statements;

use std::alloc::AllocError;
use std::process::Abort;
use std::test::Fail;
use tt_built::{plain_create, plain_query};
use tt_lex::tokens;
use tt_parse::{ParseError, parse};
use tt_print::print;
use tt_sql::{Definition, Dml, InsertSource, Request, Statement};

/// The statement that a text is, or the place of its fault.
fn read<R: Abort + AllocGlobal>(rt: &R, text: &str) -> Result<Result<Statement, u32>, Fail> {
    assert!(rt; text.len() < 1_000_000);
    let list = tokens(rt.alloc(), text).ok().ok_or("no tokens")?;
    match parse(rt.alloc(), text, &list) {
        Ok(statement) => Ok(Ok(statement)),
        Err(ParseError::Syntax(fault)) => Ok(Err(fault.place)),
        Err(ParseError::Memory) => Err(AllocError.into()),
    }
}

/// The one text of the statement that a text is, or the place of its fault.
fn outcome<R: Abort + AllocGlobal>(rt: &R, text: &str) -> Result<Result<Vec<u8>, u32>, Fail> {
    match read(rt, text)? {
        Ok(statement) => {
            let mut out = Vec::new(rt.alloc());
            print(&statement, &mut out)?;
            Ok(Ok(out))
        }
        Err(place) => Ok(Err(place)),
    }
}

/// That each text is a statement, and which one.
pub fn assert_statements<R: Abort + AllocGlobal>(
    rt: &R,
    table: &[(&str, &str)],
) -> Result<(), Fail> {
    for (text, wanted) in table {
        match outcome(rt, text)? {
            Ok(printed) => assert_eq!(rt; printed.as_slice(), wanted.as_bytes(), "in {text}"),
            Err(place) => panic!(rt; "a fault at {place} in {text}"),
        }
    }
    Ok(())
}

/// That these bytes are a statement.
pub fn assert_finished<R: Abort + AllocGlobal>(rt: &R, bytes: &[u8]) -> Result<(), Fail> {
    let Ok(text) = str::from_utf8(bytes) else {
        panic!(rt; "no text");
    };
    if let Err(place) = outcome(rt, text)? {
        panic!(rt; "a fault at {place} in {text}");
    }
    Ok(())
}

/// That a text is no statement, and the place of its fault.
pub fn assert_fault<R: Abort + AllocGlobal>(rt: &R, text: &str, wanted: u32) -> Result<(), Fail> {
    match outcome(rt, text)? {
        Ok(_) => panic!(rt; "no fault in {text}"),
        Err(place) => assert_eq!(rt; place, wanted, "in {text}"),
    }
    Ok(())
}

pub fn assert_faults<R: Abort + AllocGlobal>(rt: &R, table: &[(&str, u32)]) -> Result<(), Fail> {
    for (text, place) in table {
        assert_fault(rt, text, *place)?;
    }
    Ok(())
}

/// Whether what is asked for is carried out so far.
fn is_carried_out(request: &Request) -> bool {
    match request {
        Request::Reads(query) => plain_query(query),
        Request::Writes(Dml::Insert(insert)) => matches!(&insert.source, InsertSource::Values(_)),
        Request::Defines(Definition::Creates(create)) => plain_create(create),
        _ => false,
    }
}

/// Whether each text is a statement that is carried out.
pub fn assert_carried_out<R: Abort + AllocGlobal>(
    rt: &R,
    table: &[(&str, bool)],
) -> Result<(), Fail> {
    for (text, wanted) in table {
        match read(rt, text)? {
            Ok(statement) => {
                let carried = is_carried_out(&statement.request());
                assert_eq!(rt; carried, *wanted, "in {text}");
            }
            Err(place) => panic!(rt; "a fault at {place} in {text}"),
        }
    }
    Ok(())
}
