//! Which of the four bodies of some values is the shortest.

ghost use Rattle.std.specs.Prelude.{◌≡◌, ◌≢◌, ◌==◌, ◌+◌, ◌-◌, ◌*◌, ◌%◌, ◌^◌, ◌<◌, ◌≤◌, nat_lt, if◌then◌else◌, length, map, IfOk, List};
ghost use Rattle.std.specs.Ordering.{int_cmp};
ghost use Rattle.std.specs.Int.{int_min, w64, cast_unsigned};
ghost use Rattle.tt_value.specs.columns.Body.{runs_of, distinct, index_in};
ghost use Rattle.tt_value.specs.columns.Packing.{bytes_for, width_of};
ghost use Rattle.tt_intcol.specs.IntNumber.{number_in};
ghost use Rattle.tt_intcol.specs.IntBody.{heights_size, has_shorter_dictionary, IsBestBesideDictionary, is_encoding_of, value_size as size_of, value_bytes, body, code, encoding_of, least_of, height, greatest_of};

use crate::encoding::Encoding;
use crate::reading::packed_size;
use std::alloc::{AllocError, Global};
use tt_value::{Kind, packing};

/// How many bytes a value has.
pub fn value_size(kind: Kind) -> usize
    ensures { result ≡ size_of kind }
{
    match kind {
        Kind::Date => 4,
        _ => 8,
    }
}

/// The least value; 0 of none.
pub fn least(values: &[i64]) -> i64
    ensures { result ≡ least_of values.now }
{
    let Some((first, others)) = values.split_first() else {
        return 0;
    };
    let mut low = *first;
    for value in others {
        low = low.min(*value);
    }
    low
}

/// How far the greatest value stands above `low`.
fn greatest_height(low: i64, values: &[i64]) -> u64
    ensures { result ≡ greatest_of (map (height low) values.now) }
{
    let mut most = 0u64;
    for value in values {
        most = most.max(value.abs_diff(low));
    }
    most
}

/// How many runs there are.
fn run_count(values: &[i64]) -> usize
    ensures { result ≡ length (runs_of int_cmp values.now) }
{
    let Some((first, others)) = values.split_first() else {
        return 0;
    };
    let mut value = *first;
    let mut count = 1;
    for next in others {
        if *next != value {
            count += 1;
            value = *next;
        }
    }
    count
}

/// The distinct values, ascending.
pub fn distinct_values(alloc: Global, values: &[i64]) -> Result<Vec<i64>, AllocError>
    ensures { IfOk result (λ v. v.items ≡ distinct int_cmp values.now) }
{
    let mut sorted = Vec::from_slice(alloc, values)?;
    sorted.sort_unstable();
    sorted.dedup();
    Ok(sorted)
}

/// A form of body and how long it is.
#[derive(Clone, Copy)]
struct Length {
    encoding: Encoding,
    bytes: u128,
}

/// The shorter one; of equal ones the first.
fn shorter(first: Length, second: Length) -> Length
    ensures { result ≡ (if nat_lt second.bytes first.bytes then second else first) }
{
    if second.bytes < first.bytes {
        second
    } else {
        first
    }
}

fn plain_length(size: u128, values: &[i64]) -> u128
    requires { size ≤ 8 }
    ensures { result ≡ length values.now * size }
{
    values.len() as u128 * size
}

/// How many bytes the differences to the least value take.
fn heights_length(values: &[i64]) -> u128
    ensures value { result ≡ heights_size values.now }
    ensures few { result ≤ 64 * 2 ^ 64 }
{
    let width = packing::width_of(greatest_height(least(values), values));
    packed_size(values.len(), width)
}

fn frame_length(kind: Kind, values: &[i64]) -> u128
    ensures { result ≡ length (body kind values.now Encoding.Frame) }
{
    value_size(kind) as u128 + 1 + heights_length(values)
}

fn run_length(size: u128, values: &[i64]) -> u128
    requires { size ≤ 8 }
    ensures { result ≡ 4 + length (runs_of int_cmp values.now) * (size + 4) }
{
    4 + run_count(values) as u128 * (size + 4)
}

/// The number of a value, below `size`.
fn number_of(value: i64, size: usize) -> usize
    requires { 0 < size }
    ensures value { result ≡ number_in size value }
    ensures below { result < size }
{
    let mixed = value
        .cast_unsigned()
        .wrapping_mul(11_400_714_819_323_198_485);
    ((u128::from(mixed) * size as u128) >> 64) as usize
}

/// The length of a dictionary body of so many values with so many distinct ones.
fn dictionary_length(size: u128, values: usize, distinct: usize) -> u128
    requires { size ≤ 8 }
    ensures { result ≡ 4 + distinct * size + bytes_for (values * width_of (distinct - 1)) }
{
    let width = packing::width_of((distinct as u64).saturating_sub(1));
    4 + distinct as u128 * size + packed_size(values, width)
}

/// How many numbers the values have: at most as many as there are distinct values. Counting ends where a
/// dictionary of so many is not shorter than `most` bytes.
fn number_count(alloc: Global, size: u128, most: u128, values: &[i64]) -> Result<usize, AllocError>
    requires { size ≤ 8 }
    ensures { IfOk result (λ count. count ≤ length (distinct int_cmp values.now)) }
{
    let places = values.len().saturating_mul(4).saturating_add(1);
    let mut seen = vec![in alloc; false; places]?;
    let mut count = 0usize;
    for value in values {
        let number = number_of(*value, places);
        if seen[number] {
            continue;
        }
        seen[number] = true;
        count += 1;
        if count % 16 == 0 && dictionary_length(size, values.len(), count) >= most {
            return Ok(count);
        }
    }
    Ok(count)
}

/// Whether the dictionary body is shorter than so many bytes. The values are sorted and counted only where
/// a few distinct ones are not already too many.
fn dictionary_is_shorter(
    alloc: Global,
    kind: Kind,
    bytes: u128,
    values: &[i64],
) -> Result<bool, AllocError>
    ensures { IfOk result (λ shorter. shorter ≡ has_shorter_dictionary kind values.now bytes) }
{
    let size = value_size(kind) as u128;
    let few = number_count(alloc, size, bytes, values)?;
    if dictionary_length(size, values.len(), few) >= bytes {
        return Ok(false);
    }
    let count = distinct_values(alloc, values)?.len();
    Ok(dictionary_length(size, values.len(), count) < bytes)
}

/// The shortest form but for the dictionary, of equal ones that of the least code. `frame` is how long the
/// frame is.
fn without_dictionary(kind: Kind, values: &[i64], frame: u128) -> Length
    requires { frame ≡ length (body kind values.now Encoding.Frame) }
    ensures shortest { IsBestBesideDictionary kind values.now result.bytes result.encoding }
    ensures other { result.encoding ≢ Encoding.Dictionary }
{
    let size = value_size(kind) as u128;
    let mut best = Length {
        encoding: Encoding::Plain,
        bytes: plain_length(size, values),
    };
    if !values.is_empty() {
        best = shorter(
            best,
            Length {
                encoding: Encoding::Frame,
                bytes: frame,
            },
        );
    }
    shorter(
        best,
        Length {
            encoding: Encoding::Run,
            bytes: run_length(size, values),
        },
    )
}

/// The encoding with the shortest body, of equal ones that of the least code. `frame` is how long the frame
/// is.
fn encoding_beside(
    alloc: Global,
    kind: Kind,
    values: &[i64],
    frame: u128,
) -> Result<Encoding, AllocError>
    requires { frame ≡ length (body kind values.now Encoding.Frame) }
    ensures { IfOk result (λ e. e ≡ encoding_of kind values.now) }
{
    let best = without_dictionary(kind, values, frame);
    if dictionary_is_shorter(alloc, kind, best.bytes, values)? {
        return Ok(Encoding::Dictionary);
    }
    Ok(best.encoding)
}

/// The encoding with the shortest body, of equal ones that of the least code.
pub fn encoding_of(alloc: Global, kind: Kind, values: &[i64]) -> Result<Encoding, AllocError>
    ensures { IfOk result (λ e. e ≡ encoding_of kind values.now) }
{
    encoding_beside(alloc, kind, values, frame_length(kind, values))
}

/// Whether a form is the one to take, where its body has so many bytes. A dictionary need not be counted,
/// nor a frame measured.
pub fn is_shortest(
    alloc: Global,
    kind: Kind,
    encoding: Encoding,
    bytes: usize,
    values: &[i64],
) -> Result<bool, AllocError>
    requires { bytes ≡ length (body kind values.now encoding) }
    ensures { IfOk result (λ shortest. shortest ≡ is_encoding_of kind values.now encoding) }
{
    let frame = match encoding {
        Encoding::Frame => bytes as u128,
        _ => frame_length(kind, values),
    };
    if encoding == Encoding::Dictionary {
        return Ok((bytes as u128) < without_dictionary(kind, values, frame).bytes);
    }
    let shortest = encoding_beside(alloc, kind, values, frame)?;
    Ok(shortest.code() == encoding.code())
}
