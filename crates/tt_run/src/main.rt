//! Replays a script of table statements, and prints each reply with the journal of the events.
#![tactic(auto)]

mod failure;
mod parsing;
mod run;
mod session;
mod settle;
#[cfg(test)]
mod tests;
mod top;
mod words;

use failure::failure_of;
use std::process::ExitCode;
use std::{env, io};
use top::{Status, top_alone};
use tt_edge::{StdSink, StdSource};

fn arguments(rt: &HostRuntime) -> io::Result<Vec<String>> {
    let mut words = Vec::new(rt.alloc());
    for word in env::args(rt)?.skip(1) {
        words.push(word)?;
    }
    Ok(words)
}

// A word that is not UTF-8 is no word of the command line.
fn serve(rt: &HostRuntime) -> Status {
    let words = match arguments(rt) {
        Ok(words) => words,
        Err(e) if e.kind() == io::ErrorKind::InvalidData => return Status::BadWords,
        Err(_) => return Status::OutOfMemory,
    };
    let mut source = StdSource::new(rt.stdin());
    let mut sink = StdSink::new(rt.stdout());
    top_alone(rt.alloc(), words.as_slice(), &mut source, &mut sink).status
}

fn main(rt: HostRuntime) -> ExitCode {
    let status = serve(&rt);
    if let Some(failure) = failure_of(status) {
        let _ = eprintln!(rt; "{failure}");
    }
    ExitCode::from(status.number())
}
