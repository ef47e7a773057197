//! Predicates: what a row has to meet.

use crate::name::{ColumnName, Literal, Quoted};
use sqlite_items::{Boxed, Items};

/// Conjunctions with OR between them.
#[cycle(predicates)]
#[derive(Drop)]
pub struct Predicate {
    pub first: Conjunction,
    pub others: Items<Conjunction>,
}

/// Units with AND between them.
#[cycle(predicates)]
#[derive(Drop)]
pub struct Conjunction {
    pub first: Unit,
    pub others: Items<Unit>,
}

/// A part of a conjunction: one condition, NOT in front of a part, or a predicate in brackets.
#[cycle(predicates)]
#[derive(Drop)]
pub enum Unit {
    Not(Boxed<Unit>),
    Bracket(Boxed<Predicate>),
    Compare(Operand, Comparison, Operand),
    /// Whether NOT stands in it, here and below.
    IsNull(Operand, bool),
    In(Operand, bool, Items<Literal>),
    /// The least and the greatest value that are meant.
    Between(Operand, bool, Literal, Literal),
    StartsWith(ColumnName, Quoted),
}

/// What a condition looks at: a row's value in a column, or a written value.
#[derive(Drop)]
pub enum Operand {
    Column(ColumnName),
    Literal(Literal),
}

/// A sign between two operands. `<>` and `!=` are one.
#[derive(Clone, Copy, PartialEq, Eq)]
pub enum Comparison {
    Equal,
    NotEqual,
    Less,
    LessOrEqual,
    Greater,
    GreaterOrEqual,
}

/// Whether a row meets a predicate. It is unknown where a NULL leaves it open.
#[derive(Clone, Copy, PartialEq, Eq)]
pub enum Truth {
    True,
    False,
    Unknown,
}
