//! Tests of what nothing names, of owners and classes, and of the metrics view.
#![tactic(auto)]

#[cfg(test)]
mod owners;
#[cfg(test)]
mod stories;
#[cfg(test)]
mod sweeps;
