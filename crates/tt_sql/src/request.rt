//! What a statement asks for, with its parts.

ghost use Rattle.std.specs.Prelude.{◌≡◌};
ghost use Rattle.tt_sql.specs.asked.Request.{as_read, request_in, request_of};

use crate::change::Dml;
use crate::query::Query;
use crate::statement::{Statement, Syntax, Wait};
use crate::table::{Alter, Change, ClonedTable, CreatedTable};
use tt_value::TableName;

/// What is asked for by what was read of a text: a statement, or a text that is none.
#[derive(Drop)]
pub enum Request {
    /// A text that is no statement, by the place of its fault.
    Unreadable(u32),
    /// A query, which reads rows.
    Reads(Query),
    /// A change of a table's rows.
    Writes(Dml),
    Defines(Definition),
    Tells(Telling),
    Begins,
    Commits,
    RollsBack,
    Waits(Wait),
}

/// A statement that makes or changes tables.
#[derive(Drop)]
pub enum Definition {
    Creates(CreatedTable),
    Clones(ClonedTable),
    Drops(TableName),
    Undrops(TableName),
    Truncates(TableName),
    Alters(TableName, Change),
}

/// A statement that tells of the store and changes nothing.
#[derive(Drop)]
pub enum Telling {
    Explains(Query),
    /// The tables, with those that are dropped or without.
    Shows(bool),
    /// The storage that each table has.
    Measures,
    /// The clustering depth of a table.
    Gauges(TableName),
}

impl Statement {
    /// What the statement asks for.
    pub fn request(self) -> Request
        ensures { result ≡ request_in self }
    {
        match self {
            Statement::Query(query) => Request::Reads(query),
            Statement::Dml(change) => Request::Writes(change),
            Statement::Create(table) => Request::Defines(Definition::Creates(table)),
            Statement::Clone(table) => Request::Defines(Definition::Clones(table)),
            Statement::Drop(table) => Request::Defines(Definition::Drops(table)),
            Statement::Undrop(table) => Request::Defines(Definition::Undrops(table)),
            Statement::Truncate(table) => Request::Defines(Definition::Truncates(table)),
            Statement::Alter(Alter { table, change }) => {
                Request::Defines(Definition::Alters(table, change))
            }
            Statement::Begin => Request::Begins,
            Statement::Commit => Request::Commits,
            Statement::Rollback => Request::RollsBack,
            Statement::Wait(wait) => Request::Waits(wait),
            Statement::Explain(query) => Request::Tells(Telling::Explains(query)),
            Statement::Show(history) => Request::Tells(Telling::Shows(history)),
            Statement::Metrics => Request::Tells(Telling::Measures),
            Statement::Depth(table) => Request::Tells(Telling::Gauges(table)),
        }
    }
}

impl Request {
    /// What is asked for by what was read of a text.
    pub fn of(read: Result<Statement, Syntax>) -> Request
        ensures { result ≡ request_of (as_read read) }
    {
        match read {
            Ok(statement) => statement.request(),
            Err(Syntax { place }) => Request::Unreadable(place),
        }
    }
}
