//! The catalog and how it begins.

ghost use Rattle.std.specs.Prelude.{◌≡◌, ◌≤◌, [], ◌++◌, length, IfOk, OnOk, map};
ghost use Rattle.std.specs.List.{flat_map};
ghost use Rattle.tt_plain.specs.stored.Empty.{no_points};
ghost use Rattle.tt_state.specs.Kept.{kept_of};
ghost use Rattle.tt_state.specs.Moves.{first_kept, no_session};
ghost use Rattle.tt_state.specs.Owed.{entry_limit, statements_in};
ghost use Rattle.tt_plain.specs.tally.Facts.{facts_of_part, stored_parts};
ghost use Rattle.tt_state.specs.Keeps.{AreTrueParts};
ghost use Rattle.tt_state.specs.Chronicle.{rows_of, store_of};

use crate::part::StoredPart;
use crate::state::{SessionState, State};
use std::alloc::{AllocError, Global};
use std::marker::Model;
use tt_history::History;
use tt_marks::Marks;
use tt_names::Names;
use tt_script::{Program, Script, SessionText};

/// The tables with the partitions of each of their layouts, the sessions, and the history of what they did. It keeps
/// the program that it was made for and the most rows of a partition. Contracts see it as a `Chronicle`: its history
/// is legal, and what it keeps stands for the store to which that leads.
#[derive(Drop)]
pub struct Catalog {
    pub program: Program,
    pub cap: u32,
    pub history: History,
    pub state: State,
}

impl Model for Catalog {
    ghost use Rattle.tt_state.specs.Chronicle.{Chronicle};
    ghost use Rattle.tt_state.specs.Keeps.{StandsFor};
    ghost use Rattle.tt_state.specs.Kept.{kept_of};
    ghost use Rattle.tt_names.specs.RegistryCode.{registry_code};
    ghost use Rattle.std.specs.Coded.{codes};

    ghost Value = { Chronicle };

    ghost coded = { Prim.hlevel (codes, registry_code) };

    ghost view = { λ c. record { program = c.program; cap = c.cap; history = c.history.list; kept = kept_of c.state } };

    ghost invariant = { λ c. StandsFor (record { program = c.program; cap = c.cap; history = c.history.list; kept = kept_of c.state }) (kept_of c.state) c.history.room };
}

fn push_points(points: &mut Vec<Option<u64>>, lines: &SessionText) -> Result<(), AllocError>
    ensures { OnOk result (points.new.items ≡ points.old.items ++ no_points lines.now) }
{
    for _span in lines.statements.items() {
        points.push(None)?;
    }
    Ok(())
}

fn first_points(alloc: Global, program: &Script) -> Result<Vec<Option<u64>>, AllocError>
    ensures { IfOk result (λ points. points.items ≡ flat_map no_points program.now.sessions) }
{
    let mut points = Vec::new(alloc);
    for lines in program.sessions.items() {
        push_points(&mut points, lines)?;
    }
    Ok(points)
}

fn first_sessions(alloc: Global, program: &Script) -> Result<Vec<SessionState>, AllocError>
    ensures { IfOk result (λ made. made.items ≡ map (λ _. no_session) program.now.sessions) }
{
    let mut sessions = Vec::new(alloc);
    for _lines in program.sessions.items() {
        sessions.push(SessionState {
            done: 0,
            running: None,
        })?;
    }
    Ok(sessions)
}

fn first_state(alloc: Global, program: &Script) -> Result<State, AllocError>
    ensures { IfOk result (λ state. kept_of state ≡ first_kept program.now) }
{
    Ok(State {
        moment: program.start,
        tables: Vec::new(alloc),
        names: Names::new(alloc),
        marks: Marks::new(alloc),
        parts: Vec::new(alloc),
        pins: Vec::new(alloc),
        sessions: first_sessions(alloc, program)?,
        points: first_points(alloc, program)?,
    })
}

// Three entries for each statement, and one for each session.
fn entry_room(program: &Script) -> usize
    requires sessions { length program.now.sessions ≤ 64 }
    requires statements { statements_in program.now.sessions ≤ 100000 }
    ensures { result ≡ entry_limit program.now }
{
    let sessions = program.sessions.items();
    let statements: usize = sessions.iter().map(|lines| lines.statements.len()).sum();
    3 * statements + sessions.len()
}

impl Catalog {
    /// A catalog without tables, whose history is empty and has room for all entries that the program's
    /// statements may make. The cap is the most rows of a partition, 1 to 65,536.
    pub fn new(alloc: Global, program: &Program, cap: u32) -> Result<Catalog, AllocError>
        requires cap { (1 ≤ cap) × (cap ≤ 65536) }
        ensures program { IfOk result (λ catalog. catalog.program ≡ program.now) }
        ensures cap { IfOk result (λ catalog. catalog.cap ≡ cap) }
        ensures history { IfOk result (λ catalog. catalog.history ≡ []) }
    {
        let script = program.script();
        Ok(Catalog {
            program: program.share()?,
            cap,
            history: History::with_room(alloc, entry_room(script))?,
            state: first_state(alloc, script)?,
        })
    }

    /// The most rows of a partition, 1 to 65,536.
    pub fn cap(&self) -> u32
        ensures cap { result ≡ self.now.cap }
        ensures range { (1 ≤ result) × (result ≤ 65536) }
    {
        self.cap
    }

    /// What was done so far, refused statements included.
    pub fn history(&self) -> &History
        ensures { result.now.list ≡ self.now.history }
    {
        &self.history
    }

    /// The parts that are kept, by number, each with its facts.
    pub fn stored(&self) -> &[StoredPart]
        ensures kept { result.now ≡ self.now.kept.parts }
        ensures facts { map (λ part. part.facts) result.now ≡ map facts_of_part (stored_parts (store_of self.now).tally) }
        ensures true_parts { AreTrueParts (store_of self.now).tables (rows_of self.now) 1 result.now }
    {
        &self.state.parts
    }
}
