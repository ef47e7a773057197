//! Tests of bits, marks and names.
#![tactic(auto)]

#[cfg(test)]
mod bits;
#[cfg(test)]
mod marks;
#[cfg(test)]
mod names;
