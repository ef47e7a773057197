//! Tests of staged files and of points.
#![tactic(auto)]

#[cfg(test)]
mod files;
#[cfg(test)]
mod points;
