//! Prints how long columns take to be written and read: `tt_column_times numbers` or `texts`. Without a
//! word it prints nothing.
#![tactic(auto)]

mod samples;

use anyhow::{Result, bail};
use samples::{Shape, numbers, texts};
use std::env;
use std::time::{Duration, Instant};
use tt_value::Kind;

/// The rows of a partition.
const ROWS: usize = 4_096;

/// Partitions of some million rows in all.
const PARTITIONS: u64 = 245;

/// How long writing and reading took, and how many bytes were written.
#[derive(Clone, Copy)]
struct Sum {
    encoding: Duration,
    decoding: Duration,
    bytes: u64,
}

fn print_sum(rt: &HostRuntime, name: &str, sum: &Sum) -> Result<()> {
    let rows = ROWS as u128 * u128::from(PARTITIONS);
    let encode = sum.encoding.as_nanos() / rows;
    let decode = sum.decoding.as_nanos() / rows;
    let bytes = sum.bytes / PARTITIONS;
    println!(rt;
        "{name}: {encode} ns a row to encode, {decode} ns to decode, {bytes} bytes a partition"
    )?;
    Ok(())
}

fn no_sum() -> Sum {
    Sum {
        encoding: Duration::ZERO,
        decoding: Duration::ZERO,
        bytes: 0,
    }
}

fn add_numbers(rt: &HostRuntime, shape: Shape, seed: u64, sum: &mut Sum) -> Result<()> {
    let rows = numbers(rt.alloc(), shape, ROWS, seed)?;
    if rows.len() > 65_536 {
        bail!("too many rows");
    }
    let start = Instant::now(rt)?;
    let Ok(column) = tt_intcol::encode(rt.alloc(), Kind::Int, &rows) else {
        bail!("no memory");
    };
    let encoded = start.elapsed(rt)?;
    let start = Instant::now(rt)?;
    let Ok(read) = tt_intcol::decode(rt.alloc(), Kind::Int, rows.len() as u32, &column) else {
        bail!("not read");
    };
    let decoded = start.elapsed(rt)?;
    if read.as_slice() != rows.as_slice() {
        bail!("read as other rows");
    }
    sum.encoding = sum.encoding.saturating_add(encoded);
    sum.decoding = sum.decoding.saturating_add(decoded);
    sum.bytes = sum.bytes.saturating_add(column.body.len() as u64);
    Ok(())
}

fn add_texts(rt: &HostRuntime, shape: Shape, seed: u64, sum: &mut Sum) -> Result<()> {
    let rows = texts(rt.alloc(), shape, ROWS, seed)?;
    if rows.len() > 65_536 {
        bail!("too many rows");
    }
    let start = Instant::now(rt)?;
    let Ok(column) = tt_textcol::encode(rt.alloc(), &rows) else {
        bail!("no memory");
    };
    let encoded = start.elapsed(rt)?;
    let start = Instant::now(rt)?;
    let Ok(read) = tt_textcol::decode(rt.alloc(), rows.len() as u32, &column) else {
        bail!("not read");
    };
    let decoded = start.elapsed(rt)?;
    if read.len() != rows.len() {
        bail!("read as other rows");
    }
    sum.encoding = sum.encoding.saturating_add(encoded);
    sum.decoding = sum.decoding.saturating_add(decoded);
    sum.bytes = sum.bytes.saturating_add(column.body.len() as u64);
    Ok(())
}

fn time_numbers(rt: &HostRuntime, name: &str, shape: Shape) -> Result<()> {
    let mut sum = no_sum();
    for seed in 0..PARTITIONS {
        add_numbers(rt, shape, seed, &mut sum)?;
    }
    print_sum(rt, name, &sum)
}

fn time_texts(rt: &HostRuntime, name: &str, shape: Shape) -> Result<()> {
    let mut sum = no_sum();
    for seed in 0..PARTITIONS {
        add_texts(rt, shape, seed, &mut sum)?;
    }
    print_sum(rt, name, &sum)
}

fn main(rt: HostRuntime) -> Result<()> {
    for word in env::args(&rt)?.skip(1) {
        if word.as_str() == "numbers" {
            time_numbers(&rt, "far apart", Shape::FarApart)?;
            time_numbers(&rt, "close together", Shape::CloseTogether)?;
            time_numbers(&rt, "in runs", Shape::InRuns)?;
            time_numbers(&rt, "few", Shape::Few)?;
        }
        if word.as_str() == "texts" {
            time_texts(&rt, "far apart", Shape::FarApart)?;
            time_texts(&rt, "in runs", Shape::InRuns)?;
            time_texts(&rt, "few", Shape::Few)?;
        }
    }
    Ok(())
}
