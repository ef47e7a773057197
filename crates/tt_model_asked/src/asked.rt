//! A statement that is asked of the store at a moment, and the table that a name means.

ghost use Rattle.std.specs.Prelude.{◌≡◌};
ghost use Rattle.std.specs.Option.{option_copied};
ghost use Rattle.std.specs.Str.{bytes_eq};
ghost use Rattle.tt_plain.specs.asked.Asked.{table_asked};
ghost use Rattle.tt_plain.specs.stored.Tables.{is_live as is_live_table};
ghost use Rattle.tt_plain.specs.stored.Sessions.{session_at};
ghost use Rattle.tt_model_asked.specs.AskedAs.{asked_in};

use tt_plain::store::{Plain, PlainSession, PlainTable};
use tt_script::Program;
use tt_sql::Statement;
use tt_value::{TableName, Text};

/// What was read of a statement's text: its tree, or the place of a fault.
#[derive(Clone, Copy)]
pub enum Read<'a> {
    Fault(u32),
    Tree(&'a Statement),
}

/// A session's statement that is asked of the store. The moment is that of its next event, before what a wait adds.
#[derive(Clone, Copy)]
pub struct Asked<'a> {
    pub program: &'a Program,
    pub store: &'a Plain,
    /// From 0.
    pub session: u32,
    /// From 1.
    pub index: u32,
    pub moment: u64,
    pub read: Read<'a>,
}

fn is_live(table: &PlainTable) -> bool
    ensures { result ≡ is_live_table table.now }
{
    table.dropped.is_none()
}

/// Whether two texts are one.
pub fn is_same(a: &Text, b: &Text) -> bool
    ensures { result ≡ bytes_eq a.now b.now }
{
    a.as_str() == b.as_str()
}

/// The live table that a name means for the session; none where there is none.
#[tactic(auto, unfolding(tt_plain::specs::stored::Names::table_named))]
pub fn table_named<'a>(asked: &Asked<'a>, name: &TableName) -> Option<&'a PlainTable>
    ensures { option_copied result ≡ table_asked (asked_in asked.now) name.now }
{
    asked.store.tables.items().iter().find(|table| is_live(table)
        && is_same(&table.name, &name.name.text))
}
