//! Writing the four bodies.

ghost use Rattle.std.specs.Prelude.{◌≡◌, ◌+◌, ◌-◌, ◌*◌, ◌^◌, ◌<◌, ◌≤◌, ◌++◌, length, map, IfOk, OnOk, List};
ghost use Rattle.std.specs.List.{flat_map};
ghost use Rattle.std.specs.Ordering.{int_cmp};
ghost use Rattle.tt_value.specs.columns.Body.{plain_body, run_body, run_bytes, dictionary_body, runs_of, distinct, index_in};
ghost use Rattle.tt_intcol.specs.IntBody.{value_bytes, values_bytes, runs_bytes, frame_body, body, least_of, height};

use crate::choice::{distinct_values, least, value_size};
use crate::encoding::Encoding;
use crate::frame::greatest;
use std::alloc::{AllocError, Global};
use tt_value::{Kind, packing};

fn push_value(out: &mut Vec<u8>, kind: Kind, value: i64) -> Result<(), AllocError>
    ensures { OnOk result (out.new.items ≡ out.old.items ++ value_bytes kind value) }
{
    out.extend_from_slice(&value.to_le_bytes()[..value_size(kind)])?;
    Ok(())
}

fn push_values(out: &mut Vec<u8>, kind: Kind, values: &[i64]) -> Result<(), AllocError>
    ensures { OnOk result (out.new.items ≡ out.old.items ++ values_bytes kind values.now) }
{
    for value in values {
        push_value(out, kind, *value)?;
    }
    Ok(())
}

fn plain_body(alloc: Global, kind: Kind, values: &[i64]) -> Result<Vec<u8>, AllocError>
    ensures { IfOk result (λ v. v.items ≡ body kind values.now Encoding.Plain) }
{
    let mut out = Vec::with_capacity(alloc, values.len())?;
    push_values(&mut out, kind, values)?;
    Ok(out)
}

fn heights(alloc: Global, low: i64, values: &[i64]) -> Result<Vec<u64>, AllocError>
    ensures { IfOk result (λ v. v.items ≡ map (height low) values.now) }
{
    let mut heights = Vec::with_capacity(alloc, values.len())?;
    for value in values {
        heights.push(value.abs_diff(low))?;
    }
    Ok(heights)
}

fn frame_body(alloc: Global, kind: Kind, values: &[i64]) -> Result<Vec<u8>, AllocError>
    ensures { IfOk result (λ v. v.items ≡ body kind values.now Encoding.Frame) }
{
    let low = least(values);
    let heights = heights(alloc, low, values)?;
    let width = packing::width_of(greatest(&heights));
    let mut out = Vec::new(alloc);
    push_value(&mut out, kind, low)?;
    out.push(width as u8)?;
    packing::pack(out, width, &heights)
}

/// The runs, each as long as possible.
fn runs(alloc: Global, values: &[i64]) -> Result<Vec<(i64, u32)>, AllocError>
    requires { length values.now < 2 ^ 32 }
    ensures { IfOk result (λ v. v.items ≡ runs_of int_cmp values.now) }
{
    let mut runs = Vec::new(alloc);
    let Some((first, others)) = values.split_first() else {
        return Ok(runs);
    };
    let mut value = *first;
    let mut count = 1u32;
    for next in others {
        if *next == value {
            count += 1;
        } else {
            runs.push((value, count))?;
            value = *next;
            count = 1;
        }
    }
    runs.push((value, count))?;
    Ok(runs)
}

fn push_runs(out: &mut Vec<u8>, kind: Kind, runs: &[(i64, u32)]) -> Result<(), AllocError>
    ensures { OnOk result (out.new.items ≡ out.old.items ++ runs_bytes kind runs.now) }
{
    for run in runs {
        push_value(out, kind, run.0)?;
        out.extend_from_slice(&run.1.to_le_bytes())?;
    }
    Ok(())
}

fn run_body(alloc: Global, kind: Kind, values: &[i64]) -> Result<Vec<u8>, AllocError>
    requires { length values.now < 2 ^ 32 }
    ensures { IfOk result (λ v. v.items ≡ body kind values.now Encoding.Run) }
{
    let runs = runs(alloc, values)?;
    let mut out = Vec::new(alloc);
    out.extend_from_slice(&(runs.len() as u32).to_le_bytes())?;
    push_runs(&mut out, kind, &runs)?;
    Ok(out)
}

/// The place of each value among the distinct ones.
fn indexes(alloc: Global, entries: &[i64], values: &[i64]) -> Result<Vec<u64>, AllocError>
    requires { entries.now ≡ distinct int_cmp values.now }
    ensures { IfOk result (λ v. v.items ≡ map (index_in int_cmp entries.now) values.now) }
{
    let mut indexes = Vec::with_capacity(alloc, values.len())?;
    for value in values {
        match entries.binary_search(value) {
            Ok(index) => indexes.push(index as u64)?,
            Err(_) => unreachable!(),
        }
    }
    Ok(indexes)
}

fn dictionary_body(alloc: Global, kind: Kind, values: &[i64]) -> Result<Vec<u8>, AllocError>
    requires { length values.now < 2 ^ 32 }
    ensures { IfOk result (λ v. v.items ≡ body kind values.now Encoding.Dictionary) }
{
    let entries = distinct_values(alloc, values)?;
    let indexes = indexes(alloc, &entries, values)?;
    let width = packing::width_of((entries.len() as u64).saturating_sub(1));
    let mut out = Vec::new(alloc);
    out.extend_from_slice(&(entries.len() as u32).to_le_bytes())?;
    push_values(&mut out, kind, &entries)?;
    packing::pack(out, width, &indexes)
}

/// The body of that form.
pub fn body_of(
    alloc: Global,
    kind: Kind,
    values: &[i64],
    encoding: Encoding,
) -> Result<Vec<u8>, AllocError>
    requires { length values.now < 2 ^ 32 }
    ensures { IfOk result (λ v. v.items ≡ body kind values.now encoding) }
{
    match encoding {
        Encoding::Plain => plain_body(alloc, kind, values),
        Encoding::Frame => frame_body(alloc, kind, values),
        Encoding::Run => run_body(alloc, kind, values),
        Encoding::Dictionary => dictionary_body(alloc, kind, values),
    }
}
