//! Expressions over the columns of a row.

use crate::name::{ColumnName, Literal};
use sqlite_items::{Boxed, Items};

/// A sum of terms.
#[cycle(expressions)]
#[derive(Drop)]
pub struct Expr {
    pub first: Term,
    pub others: Items<Addend>,
}

/// A further term of a sum, with its sign.
#[cycle(expressions)]
#[derive(Drop)]
pub struct Addend {
    pub sign: Sign,
    pub term: Term,
}

/// Whether a further term is added or taken away.
#[derive(Clone, Copy, PartialEq, Eq)]
pub enum Sign {
    Plus,
    Minus,
}

/// A product of factors.
#[cycle(expressions)]
#[derive(Drop)]
pub struct Term {
    pub first: Factor,
    pub others: Items<Factor>,
}

/// A part of a product. What stands in brackets, and what has a minus in front, has the place of the
/// bracket or of the minus.
#[cycle(expressions)]
#[derive(Drop)]
pub enum Factor {
    Literal(Literal),
    Column(ColumnName),
    Bracket(u32, Boxed<Expr>),
    Negated(u32, Boxed<Factor>),
}
