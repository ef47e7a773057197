//! SQL: its grammar, statements as trees, and what they mean.
#![tactic(auto)]

pub mod change;
pub mod examples;
pub mod grammar_laws;
pub mod query;
pub mod request;
pub mod statement;
pub mod table;
pub mod tree_laws;

pub use change::{Copy, Delete, Dml, Insert, InsertSource, Set, Tuple, Update};
pub use query::{
    Clause, Item, Join, Key, KeyColumn, Moment, Offset, Pair, Query, Selection, Side, Source,
};
pub use request::{Definition, Request, Telling};
pub use statement::{Statement, Syntax, TimeUnit, Wait};
pub use table::{
    Alter, Change, ClonedTable, ColumnDefinition, CreatedTable, TableKind, TableOptions,
};
pub use tt_value::{
    Addend, ColumnName, Comparison, Conjunction, Expr, Factor, Literal, Name, Number, Operand,
    Predicate, Quoted, Sign, TableName, Term, Truth, Unit,
};
