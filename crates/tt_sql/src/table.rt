//! Statements that make and change tables.

use crate::query::Source;
use sqlite_items::Items;
use tt_value::{Kind, Name, Number, TableName};

/// Permanent is meant where no kind is written. The grammar has no temporary tables yet.
#[derive(Clone, Copy, PartialEq, Eq)]
pub enum TableKind {
    Permanent,
    Transient,
    Temporary,
}

/// CREATE TABLE with columns. A live table of the name is replaced where OR REPLACE is written.
#[derive(Drop)]
pub struct CreatedTable {
    pub replaces: bool,
    pub kind: TableKind,
    pub table: TableName,
    pub columns: Items<ColumnDefinition>,
    pub options: TableOptions,
}

/// A column as CREATE TABLE has it. It may hold NULLs unless NOT NULL is written.
#[derive(Drop)]
pub struct ColumnDefinition {
    pub name: Name,
    pub kind: Kind,
    pub not_null: bool,
}

/// Each option stands at most once, in either order. The retention is in days.
#[derive(Drop)]
pub struct TableOptions {
    pub cluster_by: Option<Name>,
    pub retention: Option<Number>,
}

/// CREATE TABLE CLONE: a table with the rows that another has now or had at a moment.
#[derive(Drop)]
pub struct ClonedTable {
    pub replaces: bool,
    pub kind: TableKind,
    pub table: TableName,
    pub source: Source,
}

/// ALTER TABLE: a change that leaves the rows of the table as they are.
#[derive(Drop)]
pub struct Alter {
    pub table: TableName,
    pub change: Change,
}

/// What ALTER TABLE changes: a name, the retention, or the clustering.
#[derive(Drop)]
pub enum Change {
    RenameTo(TableName),
    SwapWith(TableName),
    /// In days.
    SetRetention(Number),
    ClusterBy(Name),
    DropClusteringKey,
    SuspendRecluster,
    ResumeRecluster,
}
