//! Rows of several shapes, the same for the same seed. Each tenth row is NULL.

use anyhow::Result;
use std::alloc::Global;
use tt_value::Text;

/// How the values of the rows lie to each other, which decides the shortest encoding.
#[derive(Clone, Copy, Debug, PartialEq, Eq)]
pub enum Shape {
    /// Without a plan.
    FarApart,
    /// All below 1,000.
    CloseTogether,
    /// One value for each 64 rows.
    InRuns,
    /// One of 20 values.
    Few,
}

/// The next number of a row of numbers without a plan.
fn next(state: u64) -> u64 {
    let mixed = state.wrapping_mul(6_364_136_223_846_793_005);
    let moved = mixed.wrapping_add(1_442_695_040_888_963_407);
    moved ^ (moved >> 29)
}

/// The value of a row of some shape, from a number without a plan.
fn shaped(shape: Shape, row: usize, drawn: u64) -> u64 {
    match shape {
        Shape::FarApart => drawn,
        Shape::CloseTogether => drawn % 1_000,
        Shape::InRuns => (row as u64 / 64).wrapping_mul(1_000_003),
        Shape::Few => (drawn % 20).wrapping_mul(10_000_019_000_003),
    }
}

/// Whole numbers, none below 0. Only want of memory is an error.
pub fn numbers(alloc: Global, shape: Shape, rows: usize, seed: u64) -> Result<Vec<Option<i64>>> {
    let mut values = Vec::with_capacity(alloc, rows)?;
    let mut state = next(seed);
    for row in 0..rows {
        state = next(state);
        if row % 10 == 9 {
            values.push(None)?;
        } else {
            values.push(Some((shaped(shape, row, state) >> 1) as i64))?;
        }
    }
    Ok(values)
}

/// Texts of some ten bytes.
pub fn texts(alloc: Global, shape: Shape, rows: usize, seed: u64) -> Result<Vec<Option<Text>>> {
    let mut values = Vec::with_capacity(alloc, rows)?;
    let mut state = next(seed);
    for row in 0..rows {
        state = next(state);
        if row % 10 == 9 {
            values.push(None)?;
        } else {
            values.push(Some(text_of(alloc, shaped(shape, row, state) % 10_000_000_000)?))?;
        }
    }
    Ok(values)
}

fn text_of(alloc: Global, number: u64) -> Result<Text> {
    let text = format!(in alloc; "v{number}")?;
    match Text::from_str(alloc, text.as_str()) {
        Ok(text) => Ok(text),
        Err(_) => anyhow::bail!("no text"),
    }
}
