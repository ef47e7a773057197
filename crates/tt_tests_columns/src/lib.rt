//! Tests of columns, zones and partitions.
#![tactic(auto)]

#[cfg(test)]
mod ints;
#[cfg(test)]
mod partitions;
#[cfg(test)]
mod texts;
#[cfg(test)]
mod zones;
