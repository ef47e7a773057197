//! Statements that change the rows of a table.

use crate::query::Query;
use sqlite_items::Items;
use tt_value::{Expr, Literal, Name, Predicate, Quoted, TableName};

/// A statement that changes the rows of one table.
#[derive(Drop)]
pub enum Dml {
    Insert(Insert),
    Update(Update),
    Delete(Delete),
    Copy(Copy),
}

/// Rows that are put into a table. The columns are those that are listed, if there is a list.
#[derive(Drop)]
pub struct Insert {
    pub table: TableName,
    pub columns: Option<Items<Name>>,
    pub source: InsertSource,
}

/// Where new rows come from: written values, or the answer of a query.
#[derive(Drop)]
pub enum InsertSource {
    Values(Items<Tuple>),
    Query(Query),
}

/// The values of a row. Its place is that of its opening bracket.
#[derive(Drop)]
pub struct Tuple {
    pub place: u32,
    pub values: Items<Literal>,
}

/// New values for the rows of which the filter is true, or for all rows where there is no filter.
#[derive(Drop)]
pub struct Update {
    pub table: TableName,
    pub sets: Items<Set>,
    pub filter: Option<Predicate>,
}

/// A column and its new value, which is read on the old row.
#[derive(Drop)]
pub struct Set {
    pub column: Name,
    pub value: Expr,
}

/// Takes away the rows of which the filter is true, or all rows where there is no filter.
#[derive(Drop)]
pub struct Delete {
    pub table: TableName,
    pub filter: Option<Predicate>,
}

/// The records of a staged file, put into a table.
#[derive(Drop)]
pub struct Copy {
    pub table: TableName,
    pub file: Quoted,
}
