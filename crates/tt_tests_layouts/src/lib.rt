//! Tests of what a table keeps of its past: retention and layouts.
#![tactic(auto)]

#[cfg(test)]
mod layouts;
#[cfg(test)]
mod retention;
