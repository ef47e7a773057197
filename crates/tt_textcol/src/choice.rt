//! Which of the three bodies of some texts is the shortest.

ghost use Rattle.std.specs.Prelude.{◌≡◌, ◌≢◌, ◌==◌, ◌+◌, ◌-◌, ◌*◌, ◌%◌, ◌^◌, ◌<◌, ◌≤◌, true, false, nat_lt, if◌then◌else◌, length, map, IfOk, MatchOption, List};
ghost use Rattle.std.specs.List.{flat_map};
ghost use Rattle.tt_value.specs.columns.Body.{runs_of, distinct, index_in};
ghost use Rattle.tt_value.specs.columns.Packing.{bytes_for, width_of};
ghost use Rattle.tt_textcol.specs.TextBody.{distinct_count, distinct_bytes, GivesDictionary, IsBestBesideDictionary, HasEntries, is_encoding_of, text_bytes, text_cmp, body, code, encoding_of};
ghost use Rattle.tt_textcol.specs.TextNumber.{text_number, number_in};

use crate::encoding::Encoding;
use crate::parts::packed_size;
use crate::text_ref::TextRef;
use std::alloc::{AllocError, Global};
use tt_value::packing;

/// How many bytes the texts take with their lengths.
fn plain_length(values: &[TextRef<'_>]) -> u128
    ensures size { result ≡ length (flat_map text_bytes values.now) }
    ensures few { result ≤ 65537 * length values.now }
{
    let mut bytes = 0u128;
    for value in values {
        bytes += value.bytes().len() as u128 + 2;
    }
    bytes
}

/// How many bytes the body of runs takes.
fn run_length(values: &[TextRef<'_>]) -> u128
    ensures { result ≡ length (body values.now Encoding.Run) }
{
    let Some((first, others)) = values.split_first() else {
        return 4;
    };
    let mut bytes = 10 + first.bytes().len() as u128;
    let mut last = first;
    for next in others {
        if last != next {
            bytes += next.bytes().len() as u128 + 6;
            last = next;
        }
    }
    bytes
}

/// The distinct texts, ascending.
pub fn distinct_values<'a>(
    alloc: Global,
    values: &[TextRef<'a>],
) -> Result<Vec<TextRef<'a>>, AllocError>
    ensures { IfOk result (λ v. v.items ≡ distinct text_cmp values.now) }
{
    let mut sorted = again(alloc, values)?;
    sorted.sort_unstable();
    sorted.dedup();
    Ok(sorted)
}

fn again<'a>(alloc: Global, values: &[TextRef<'a>]) -> Result<Vec<TextRef<'a>>, AllocError>
    ensures { IfOk result (λ v. v.items ≡ values.now) }
{
    let mut texts = Vec::with_capacity(alloc, values.len())?;
    for value in values {
        texts.push(value.again())?;
    }
    Ok(texts)
}

/// A form of body and how long it is.
#[derive(Clone, Copy)]
struct Length {
    encoding: Encoding,
    bytes: u128,
}

/// The shorter one; of equal ones the first.
fn shorter(first: Length, second: Length) -> Length
    ensures { result ≡ (if nat_lt second.bytes first.bytes then second else first) }
{
    if second.bytes < first.bytes {
        second
    } else {
        first
    }
}

/// The number of a text with these bytes.
fn text_number(bytes: &[u8]) -> u64
    ensures { result ≡ text_number bytes.now }
{
    let mut number = 0u64;
    for byte in bytes {
        number = number
            .wrapping_mul(1_099_511_628_211)
            .wrapping_add(u64::from(*byte));
    }
    number
}

/// The number of a text, below `size`.
fn number_of(text: &TextRef<'_>, size: usize) -> usize
    requires { 0 < size }
    ensures value { result ≡ number_in size text.now }
    ensures below { result < size }
{
    let mixed = text_number(text.bytes()).wrapping_mul(11_400_714_819_323_198_485);
    ((u128::from(mixed) * size as u128) >> 64) as usize
}

/// Texts without one twice: how many, and how many bytes they take with their lengths.
#[derive(Clone, Copy)]
struct Entries {
    count: usize,
    bytes: u128,
}

/// The entries with one more text.
fn one_more(entries: Entries, text: &TextRef<'_>) -> Entries
    requires count { entries.count < 2 ^ 64 - 1 }
    requires bytes { entries.bytes ≤ 65537 * 2 ^ 64 }
    ensures count { result.count ≡ entries.count + 1 }
    ensures bytes { result.bytes ≡ entries.bytes + (length text.now + 2) }
    ensures short { length text.now ≤ 65535 }
{
    Entries {
        count: entries.count + 1,
        bytes: entries.bytes + text.bytes().len() as u128 + 2,
    }
}

/// How many bytes the body of a dictionary of these entries takes.
fn dictionary_length(values: usize, entries: Entries) -> u128
    requires { entries.bytes ≤ 65537 * 2 ^ 64 }
    ensures { result ≡ 4 + entries.bytes + bytes_for (values * width_of (entries.count - 1)) }
{
    let width = packing::width_of((entries.count as u64).saturating_sub(1));
    4 + entries.bytes + packed_size(values, width)
}

/// One text for each number that the texts have: at most the distinct texts. The table has 16 places a
/// text, so that few distinct ones share a number. Counting ends where a dictionary of so many is not
/// shorter than `most` bytes.
fn numbered(alloc: Global, most: u128, values: &[TextRef<'_>]) -> Result<Entries, AllocError>
    ensures count { IfOk result (λ entries. entries.count ≤ distinct_count values.now) }
    ensures bytes { IfOk result (λ entries. entries.bytes ≤ distinct_bytes values.now) }
    ensures few { IfOk result (λ entries. entries.bytes ≤ 65537 * length values.now) }
{
    let size = values.len().saturating_mul(16).saturating_add(1);
    let mut seen = vec![in alloc; false; size]?;
    let mut entries = Entries { count: 0, bytes: 0 };
    for value in values {
        let number = number_of(value, size);
        if seen[number] {
            continue;
        }
        seen[number] = true;
        entries = one_more(entries, value);
        if entries.count % 16 == 0 && dictionary_length(values.len(), entries) >= most {
            return Ok(entries);
        }
    }
    Ok(entries)
}

/// The distinct texts, ascending, where the body of a dictionary is shorter than so many bytes. The texts
/// are sorted only where those of distinct numbers are not already too many.
fn dictionary<'a>(
    alloc: Global,
    bytes: u128,
    values: &[TextRef<'a>],
) -> Result<Option<Vec<TextRef<'a>>>, AllocError>
    ensures { IfOk result (λ entries. GivesDictionary values.now bytes entries) }
{
    let few = numbered(alloc, bytes, values)?;
    if dictionary_length(values.len(), few) >= bytes {
        return Ok(None);
    }
    let distinct = distinct_values(alloc, values)?;
    let entries = Entries {
        count: distinct.len(),
        bytes: plain_length(&distinct),
    };
    if dictionary_length(values.len(), entries) >= bytes {
        return Ok(None);
    }
    Ok(Some(distinct))
}

/// The shortest form but for the dictionary, of equal ones that of the least code.
fn without_dictionary(values: &[TextRef<'_>]) -> Length
    ensures shortest { IsBestBesideDictionary values.now result.bytes result.encoding }
    ensures other { result.encoding ≢ Encoding.Dictionary }
{
    let plain = Length {
        encoding: Encoding::Plain,
        bytes: plain_length(values),
    };
    let run = Length {
        encoding: Encoding::Run,
        bytes: run_length(values),
    };
    shorter(plain, run)
}

/// The encoding with the shortest body, of equal ones that of the least code, and the distinct texts where
/// it is a dictionary.
pub fn encoding_of<'a>(
    alloc: Global,
    values: &[TextRef<'a>],
) -> Result<(Encoding, Vec<TextRef<'a>>), AllocError>
    ensures encoding { IfOk result (λ x. x.0 ≡ encoding_of values.now) }
    ensures entries { IfOk result (λ x. HasEntries x.0 values.now x.1.items) }
{
    let best = without_dictionary(values);
    match dictionary(alloc, best.bytes, values)? {
        Some(entries) => Ok((Encoding::Dictionary, entries)),
        None => Ok((best.encoding, Vec::new(alloc))),
    }
}

/// Whether a form is the one to take, where its body has so many bytes. A dictionary need not be counted.
pub fn is_shortest(
    alloc: Global,
    encoding: Encoding,
    bytes: usize,
    values: &[TextRef<'_>],
) -> Result<bool, AllocError>
    requires { bytes ≡ length (body values.now encoding) }
    ensures { IfOk result (λ shortest. shortest ≡ is_encoding_of values.now encoding) }
{
    if encoding == Encoding::Dictionary {
        return Ok((bytes as u128) < without_dictionary(values).bytes);
    }
    let (shortest, _entries) = encoding_of(alloc, values)?;
    Ok(shortest.code() == encoding.code())
}
