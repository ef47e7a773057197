//! Writing the three bodies.

ghost use Rattle.std.specs.Prelude.{◌≡◌, ◌+◌, ◌-◌, ◌*◌, ◌^◌, ◌<◌, ◌≤◌, ◌++◌, length, map, IfOk, OnOk, List};
ghost use Rattle.std.specs.List.{flat_map};
ghost use Rattle.tt_value.specs.columns.Body.{run_bytes, runs_of, distinct, index_in};
ghost use Rattle.tt_textcol.specs.TextBody.{text_bytes, text_cmp, runs_bytes, HasEntries, body};

use crate::encoding::Encoding;
use crate::text_ref::TextRef;
use std::alloc::{AllocError, Global};
use tt_value::packing;

fn push_text(out: &mut Vec<u8>, text: &TextRef<'_>) -> Result<(), AllocError>
    ensures { OnOk result (out.new.items ≡ out.old.items ++ text_bytes text.now) }
{
    let bytes = text.bytes();
    out.extend_from_slice(&(bytes.len() as u16).to_le_bytes())?;
    out.extend_from_slice(bytes)?;
    Ok(())
}

fn push_texts(out: &mut Vec<u8>, values: &[TextRef<'_>]) -> Result<(), AllocError>
    ensures { OnOk result (out.new.items ≡ out.old.items ++ flat_map text_bytes values.now) }
{
    for value in values {
        push_text(out, value)?;
    }
    Ok(())
}

fn plain_body(alloc: Global, values: &[TextRef<'_>]) -> Result<Vec<u8>, AllocError>
    ensures { IfOk result (λ v. v.items ≡ body values.now Encoding.Plain) }
{
    let mut out = Vec::new(alloc);
    push_texts(&mut out, values)?;
    Ok(out)
}

/// The runs, each as long as possible.
fn runs<'a>(alloc: Global, values: &[TextRef<'a>]) -> Result<Vec<(TextRef<'a>, u32)>, AllocError>
    requires { length values.now < 2 ^ 32 }
    ensures { IfOk result (λ v. v.items ≡ runs_of text_cmp values.now) }
{
    let mut runs = Vec::new(alloc);
    let Some((first, others)) = values.split_first() else {
        return Ok(runs);
    };
    let mut value = first;
    let mut count = 1u32;
    for next in others {
        if value == next {
            count += 1;
        } else {
            runs.push((value.again(), count))?;
            value = next;
            count = 1;
        }
    }
    runs.push((value.again(), count))?;
    Ok(runs)
}

fn push_runs(out: &mut Vec<u8>, runs: &[(TextRef<'_>, u32)]) -> Result<(), AllocError>
    ensures { OnOk result (out.new.items ≡ out.old.items ++ runs_bytes runs.now) }
{
    for run in runs {
        push_text(out, &run.0)?;
        out.extend_from_slice(&run.1.to_le_bytes())?;
    }
    Ok(())
}

fn run_body(alloc: Global, values: &[TextRef<'_>]) -> Result<Vec<u8>, AllocError>
    requires { length values.now < 2 ^ 32 }
    ensures { IfOk result (λ v. v.items ≡ body values.now Encoding.Run) }
{
    let runs = runs(alloc, values)?;
    let mut out = Vec::new(alloc);
    out.extend_from_slice(&(runs.len() as u32).to_le_bytes())?;
    push_runs(&mut out, &runs)?;
    Ok(out)
}

/// The place of each text among the distinct ones.
fn indexes<'a>(
    alloc: Global,
    entries: &[TextRef<'a>],
    values: &[TextRef<'a>],
) -> Result<Vec<u64>, AllocError>
    requires { entries.now ≡ distinct text_cmp values.now }
    ensures { IfOk result (λ v. v.items ≡ map (index_in text_cmp entries.now) values.now) }
{
    let mut indexes = Vec::with_capacity(alloc, values.len())?;
    for value in values {
        match entries.binary_search(value) {
            Ok(index) => indexes.push(index as u64)?,
            Err(_) => unreachable!(),
        }
    }
    Ok(indexes)
}

fn dictionary_body<'a>(
    alloc: Global,
    values: &[TextRef<'a>],
    entries: &[TextRef<'a>],
) -> Result<Vec<u8>, AllocError>
    requires few { length values.now < 2 ^ 32 }
    requires distinct { entries.now ≡ distinct text_cmp values.now }
    ensures { IfOk result (λ v. v.items ≡ body values.now Encoding.Dictionary) }
{
    let indexes = indexes(alloc, entries, values)?;
    let width = packing::width_of((entries.len() as u64).saturating_sub(1));
    let mut out = Vec::new(alloc);
    out.extend_from_slice(&(entries.len() as u32).to_le_bytes())?;
    push_texts(&mut out, entries)?;
    packing::pack(out, width, &indexes)
}

/// The body of that form. `entries` are the distinct texts where it is a dictionary.
pub fn body_of<'a>(
    alloc: Global,
    values: &[TextRef<'a>],
    entries: &[TextRef<'a>],
    encoding: Encoding,
) -> Result<Vec<u8>, AllocError>
    requires few { length values.now < 2 ^ 32 }
    requires distinct { HasEntries encoding values.now entries.now }
    ensures { IfOk result (λ v. v.items ≡ body values.now encoding) }
{
    match encoding {
        Encoding::Plain => plain_body(alloc, values),
        Encoding::Run => run_body(alloc, values),
        Encoding::Dictionary => dictionary_body(alloc, values, entries),
    }
}
