//! What the catalog keeps beside its program and its history.

ghost use Rattle.std.specs.Prelude.{◌≡◌, ◌+◌, ◌-◌, ◌<◌, ◌≤◌, ◌^◌, length};
ghost use Rattle.tt_plain.specs.stored.Points.{point_place};
ghost use Rattle.tt_state.specs.Kept.{kept_of};
ghost use Rattle.tt_state.specs.Moves.{with_begun, with_ended, IsReady};

use crate::part::StoredPart;
use tt_layout::TableFacts;
use tt_marks::Marks;
use tt_names::Names;
use tt_plain::tally::TallyPin;
use tt_script::Program;
use tt_value::Schema;

/// A table: its facts, with which parts make it up since when, and what its statements ask of it.
#[derive(Drop)]
pub struct TableState {
    pub facts: TableFacts,
    pub schema: Schema,
    /// Without Fail-safe, and with at most 1 day of Time Travel.
    pub transient: bool,
    /// The place, from 0, of the column by which the table is clustered.
    pub key: Option<u32>,
    pub suspended: bool,
}

/// A session: how many of its statements have ended, and the number of the one that is open.
#[derive(Clone, Copy, Drop)]
pub struct SessionState {
    pub done: u32,
    pub running: Option<u32>,
}

/// What the catalog keeps beside its program and its history.
#[derive(Drop)]
pub struct State {
    /// That of the last entry, in milliseconds.
    pub moment: u64,
    /// The table of number n at place n - 1.
    pub tables: Vec<TableState>,
    pub names: Names,
    pub marks: Marks,
    /// The part of number n at place n - 1, since none is taken away yet.
    pub parts: Vec<StoredPart>,
    /// The parts that open statements may still read.
    pub pins: Vec<TallyPin>,
    pub sessions: Vec<SessionState>,
    /// One for each statement, session after session.
    pub points: Vec<Option<u64>>,
}

// The statements of the sessions before this one, and those before this statement.
fn point_index(program: &Program, session: u32, index: u32) -> usize
    requires first { 0 < index }
    requires known { session ≤ length program.now.sessions }
    requires within { point_place program.now session index < 2 ^ 64 }
    ensures { result ≡ point_place program.now session index }
{
    let earlier = &program.script().sessions.items()[..session as usize];
    let before: usize = earlier.iter().map(|lines| lines.statements.len()).sum();
    before + (index as usize - 1)
}

impl State {
    /// The session's statement has ended, at the next moment, which is its point.
    pub fn end_statement(&mut self, program: &Program, session: u32, index: u32)
        requires { IsReady program.now (kept_of self.old) session index }
        ensures { kept_of self.new ≡ with_ended program.now (kept_of self.old) session index }
    {
        let place = point_index(program, session, index);
        self.moment += 1;
        self.sessions[session as usize] = SessionState {
            done: index,
            running: None,
        };
        self.points[place] = Some(self.moment);
    }

    /// The session's statement has begun, at the next moment, and has no point yet.
    pub fn begin_statement(&mut self, program: &Program, session: u32, index: u32)
        requires { IsReady program.now (kept_of self.old) session index }
        ensures { kept_of self.new ≡ with_begun program.now (kept_of self.old) session index }
    {
        let place = point_index(program, session, index);
        self.moment += 1;
        self.sessions[session as usize] = SessionState {
            done: index - 1,
            running: Some(index),
        };
        self.points[place] = Some(u64::MAX);
    }
}
