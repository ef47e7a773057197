//! Readers of the phrases from which statements are made: expressions, predicates, items and queries.
#![tactic(auto)]

pub mod expression;
pub mod item;
pub mod literals;
pub mod moment;
pub mod predicate;
pub mod query;
pub mod unit;
