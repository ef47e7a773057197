//! Statements.

use crate::change::Dml;
use crate::query::Query;
use crate::table::{Alter, ClonedTable, CreatedTable};
use tt_value::{Number, TableName};

/// The tree of a statement. Each place in it is a byte offset in the statement's text.
#[derive(Drop)]
pub enum Statement {
    Query(Query),
    Dml(Dml),
    Create(CreatedTable),
    Clone(ClonedTable),
    Drop(TableName),
    Undrop(TableName),
    Truncate(TableName),
    Alter(Alter),
    Begin,
    Commit,
    Rollback,
    Wait(Wait),
    Explain(Query),
    /// SHOW TABLES, with HISTORY or without.
    Show(bool),
    /// The view of the storage that each table has.
    Metrics,
    /// SYSTEM$CLUSTERING_DEPTH. The name has the place of the text that it stands in.
    Depth(TableName),
}

/// SYSTEM$WAIT: the logical clock goes on by so much.
#[derive(Drop)]
pub struct Wait {
    pub amount: Number,
    pub unit: TimeUnit,
}

/// The unit of a wait. Where none is written, seconds are meant.
#[derive(Clone, Copy, PartialEq, Eq)]
pub enum TimeUnit {
    Days,
    Hours,
    Minutes,
    Seconds,
    Milliseconds,
}

/// A text that is no statement, with the byte offset of its fault: that of the lexer's fault, or else of the
/// first token with which no statement goes on, or the text's length where it ends too early. Where only the
/// limit on open levels is in the way, it is that of the token that would open a level too many, such as a
/// minus in front of the first token with which no statement goes on.
#[derive(Clone, Copy, PartialEq, Eq)]
pub struct Syntax {
    pub place: u32,
}
