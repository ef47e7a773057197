//! Programs, as they are read from scripts.

ghost use Rattle.std.specs.Prelude.{◌≡◌, string_bytes, IfOk};
ghost use Rattle.std.specs.Option.{option_copied};
ghost use Rattle.tt_script.specs.Program.{IsProgram, statement_text};

use std::alloc::{AllocError, Global};
use std::marker::Model;
use std::sync::Arc;
use tt_value::{Sequence, Text};

/// A turn of a script: the next event of a session, counted from 0, or of the store's own work.
#[derive(Clone, Copy, PartialEq, Eq)]
pub enum Turn {
    Session(u32),
    Recluster,
    Sweep,
    Purge,
}

/// The text of a script. Contracts see its bytes.
#[derive(Drop)]
pub struct ScriptText {
    text: String,
}

/// A session's name, and where each of its statements begins and ends in the script, in bytes.
#[derive(Drop)]
pub struct SessionText {
    pub name: Text,
    pub statements: Sequence<(u32, u32)>,
}

/// A staged file's name, and where its content begins and ends in the script, in bytes.
#[derive(Drop)]
pub struct FileText {
    pub name: Text,
    pub start: u32,
    pub end: u32,
}

/// The parts of a program. The start is the moment before the first event, in milliseconds.
#[derive(Drop)]
pub struct Script {
    pub start: u64,
    pub text: ScriptText,
    pub sessions: Sequence<SessionText>,
    pub files: Sequence<FileText>,
    pub turns: Sequence<Turn>,
}

/// A program, which its owners share. Contracts see its parts, and that they are within the limits of scripts and
/// fit each other.
#[derive(Drop)]
pub struct Program {
    script: Arc<Script>,
}

impl Model for ScriptText {
    ghost use Rattle.std.specs.Prelude.{List, ℕ, string_bytes};

    ghost Value = { List ℕ };

    ghost view = { λ s. string_bytes s.text };
}

impl ScriptText {
    /// Takes the text over. No byte is copied.
    pub fn new(text: String) -> ScriptText
        ensures { result ≡ string_bytes text }
    {
        ScriptText { text }
    }

    /// The text in which the spans of statements and files are places.
    pub fn as_str(&self) -> &str
        ensures { result.now ≡ self.now }
    {
        self.text.as_str()
    }
}

impl Model for Program {
    ghost use Rattle.std.specs.Arc.{arc_value};
    ghost use Rattle.tt_script.specs.declared.script.Script.{Script};
    ghost use Rattle.tt_script.specs.Program.{IsProgram};

    ghost Value = { Script };

    ghost view = { λ p. arc_value p.script };

    ghost invariant = { λ p. IsProgram (arc_value p.script) };
}

impl Program {
    /// The program with its first owner. Where no memory is found its parts are dropped.
    pub fn new(alloc: Global, script: Script) -> Result<Program, AllocError>
        requires { IsProgram script }
        ensures { IfOk result (λ program. program ≡ script) }
    {
        Ok(Program {
            script: Arc::new(alloc, script)?,
        })
    }

    /// One more owner of the same program. No byte is copied.
    pub fn share(&self) -> Result<Program, AllocError>
        ensures { IfOk result (λ program. program ≡ self.now) }
    {
        Ok(Program {
            script: Arc::try_clone(&self.script)?,
        })
    }

    /// The parts of the program.
    pub fn script(&self) -> &Script
        ensures value { result.now ≡ self.now }
        ensures sound { IsProgram self.now }
    {
        &self.script
    }

    /// The text of a session's statement, both counted from 0, if there is one.
    pub fn statement(&self, session: usize, statement: usize) -> Option<&str>
        ensures { option_copied result ≡ statement_text self.now session statement }
    {
        let script = self.script();
        let lines = script.sessions.get(session)?;
        let (begin, end) = *lines.statements.get(statement)?;
        Some(&script.text.as_str()[begin as usize..end as usize])
    }
}
