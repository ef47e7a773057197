//! Queries, and the moments at which they read.

use sqlite_items::Items;
use tt_value::{ColumnName, Expr, Number, Predicate, Quoted, TableName};

/// What is selected, from which tables, and in which order. Its place is that of SELECT. Where there is
/// no GROUP BY or no ORDER BY the list is empty.
#[derive(Drop)]
pub struct Query {
    pub place: u32,
    pub selection: Selection,
    pub first: Source,
    pub joins: Items<Join>,
    pub filter: Option<Predicate>,
    pub group: Items<ColumnName>,
    pub order: Items<Key>,
    pub limit: Option<Number>,
}

/// A star, with its place, or a list of items.
#[derive(Drop)]
pub enum Selection {
    All(u32),
    Listed(Items<Item>),
}

/// What a query gives for a row or for a group. The place of an aggregate is that of its word.
#[derive(Drop)]
pub enum Item {
    Expr(Expr),
    CountAll(u32),
    Count(u32, ColumnName),
    Sum(u32, ColumnName),
    Min(u32, ColumnName),
    Max(u32, ColumnName),
}

/// A table that is read, now or at a moment.
#[derive(Drop)]
pub struct Source {
    pub table: TableName,
    pub clause: Option<Clause>,
}

/// A further table of a query, and the pairs of columns that have to be equal.
#[derive(Drop)]
pub struct Join {
    pub source: Source,
    pub pairs: Items<Pair>,
}

/// Two columns with an equals sign between them, as they stand in ON.
#[derive(Drop)]
pub struct Pair {
    pub left: ColumnName,
    pub right: ColumnName,
}

/// What rows are ordered by. DESC reverses the order of this key.
#[derive(Drop)]
pub struct Key {
    pub by: KeyColumn,
    pub descending: bool,
}

/// A column's name, or the position of an item, from 1.
#[derive(Drop)]
pub enum KeyColumn {
    Column(ColumnName),
    Position(Number),
}

/// The moment at which a table is read.
#[derive(Drop)]
pub struct Clause {
    pub side: Side,
    pub moment: Moment,
}

/// AT includes what happened at the moment, and BEFORE does not.
#[derive(Clone, Copy, PartialEq, Eq)]
pub enum Side {
    At,
    Before,
}

/// A moment as it is written: by itself, by how far it lies from now, or by a statement.
#[derive(Drop)]
pub enum Moment {
    /// Milliseconds since 1970-01-01 00:00:00 UTC.
    Timestamp(i64),
    Offset(Offset),
    /// The query id of a statement.
    Statement(Quoted),
}

/// Seconds from now, as a product of one to three numbers, with a minus or without.
#[derive(Drop)]
pub struct Offset {
    pub negative: bool,
    pub factors: Items<Number>,
}
