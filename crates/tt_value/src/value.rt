//! Values, rows, and the columns of a table.

use crate::sequence::Sequence;
use crate::text::Text;

/// What a column holds.
#[derive(Clone, Copy, PartialEq, Eq)]
pub enum Kind {
    Int,
    Date,
    Varchar,
}

/// A value of a row. A date is a day number, day 0 being 1970-01-01.
#[derive(Clone, Drop)]
pub enum Value {
    Null,
    Int(i64),
    Date(i32),
    Text(Text),
}

/// A column of a table. Its name is in upper case.
#[derive(Clone, Drop)]
pub struct Column {
    pub name: Text,
    pub kind: Kind,
    pub nullable: bool,
}

/// The columns of a table, in the order in which they were defined.
#[derive(Clone, Drop)]
pub struct Schema {
    pub columns: Sequence<Column>,
}

/// One value for each column, in the order of the schema.
#[derive(Clone, Drop)]
pub struct Row {
    pub values: Sequence<Value>,
}
