//! The table of refusals: the number of each, its name, and what it tells.

ghost use Rattle.std.specs.Prelude.{◌≡◌};
ghost use Rattle.tt_history.specs.Refusals.{refusal_number, refusal_name, refusal_content};

use crate::reply::Refusal;

/// What a refusal tells beside its name. A session is told by its name.
#[derive(Clone, Copy)]
pub enum Content {
    Nothing,
    /// A place, a moment or a column.
    Number(u64),
    /// A moment, which may lie before 1970.
    Signed(i64),
    /// The session, from 0.
    Session(u32),
    /// A record and a column.
    Pair(u32, u32),
}

/// A line of the table of refusals.
#[derive(Clone, Copy)]
pub struct RefusalLine {
    /// From 1.
    pub number: u8,
    pub name: &'static str,
    pub content: Content,
}

fn line(number: u8, name: &'static str, content: Content) -> RefusalLine
    ensures number { result.number ≡ number }
    ensures name { result.name.now ≡ name.now }
    ensures content { result.content ≡ content }
{
    RefusalLine {
        number,
        name,
        content,
    }
}

fn placed(number: u8, name: &'static str, place: u32) -> RefusalLine
    ensures number { result.number ≡ number }
    ensures name { result.name.now ≡ name.now }
    ensures content { result.content ≡ Content.Number place }
{
    line(number, name, Content::Number(u64::from(place)))
}

impl Refusal {
    /// The refusal's line in the table: its number, by which an entry knows it, its name, and what it tells.
    pub fn line(self) -> RefusalLine
        ensures number { result.number ≡ refusal_number self }
        ensures name { result.name.now ≡ refusal_name self }
        ensures content { result.content ≡ refusal_content self }
    {
        match self {
            Refusal::Syntax(place) => placed(1, "Syntax", place),
            Refusal::UnknownTable(place) => placed(2, "UnknownTable", place),
            Refusal::TableExists(place) => placed(3, "TableExists", place),
            Refusal::UnknownColumn(place) => placed(4, "UnknownColumn", place),
            Refusal::WrongCount(place) => placed(5, "WrongCount", place),
            Refusal::TypeMismatch(place) => placed(6, "TypeMismatch", place),
            Refusal::NullInNotNull(place) => placed(7, "NullInNotNull", place),
            Refusal::RetentionRange(place) => placed(8, "RetentionRange", place),
            Refusal::KindMismatch(place) => placed(9, "KindMismatch", place),
            Refusal::UnknownFile(place) => placed(10, "UnknownFile", place),
            Refusal::InFuture => line(11, "InFuture", Content::Nothing),
            Refusal::UnknownStatement => line(12, "UnknownStatement", Content::Nothing),
            Refusal::StatementOpen => line(13, "StatementOpen", Content::Nothing),
            Refusal::NotYetMade(made) => line(14, "NotYetMade", Content::Number(made)),
            Refusal::OutsideRetention(horizon) => {
                line(15, "OutsideRetention", Content::Signed(horizon))
            }
            Refusal::NothingToUndrop => line(16, "NothingToUndrop", Content::Nothing),
            Refusal::LockHeld(session) => line(17, "LockHeld", Content::Session(session)),
            Refusal::ClockEnd => line(18, "ClockEnd", Content::Nothing),
            Refusal::InTransaction => line(19, "InTransaction", Content::Nothing),
            Refusal::BadData(record, column) => line(20, "BadData", Content::Pair(record, column)),
            Refusal::OutOfRange => line(21, "OutOfRange", Content::Nothing),
            Refusal::NullInRow(column) => placed(22, "NullInRow", column),
        }
    }

    /// The number by which an entry knows the refusal, from 1.
    pub fn number(self) -> u8
        ensures { result ≡ refusal_number self }
    {
        self.line().number
    }
}
