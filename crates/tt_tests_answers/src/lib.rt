//! Tests of the rows of answers: items, groups and aggregates, their order, and the columns that names mean.
#![tactic(auto)]

#[cfg(test)]
mod aggregating;
#[cfg(test)]
mod arranging;
#[cfg(test)]
mod places;
#[cfg(test)]
mod texts;
