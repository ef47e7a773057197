//! Numbers of a few bits each, packed into bytes.

ghost use Rattle.std.specs.Prelude.{◌≡◌, ℕ, ◌+◌, ◌-◌, ◌*◌, ◌/◌, ◌%◌, ◌^◌, ◌<◌, ◌≤◌, ◌++◌, ◌==◌, All, IfOk, OnOk, MatchOption, length};
ghost use Rattle.std.specs.List.{list_all};
ghost use Rattle.tt_value.specs.columns.Packing.{joined, digits, bytes_for, packed, width_of};

use std::alloc::{AllocError, Global};

/// How many binary digits a number has; 0 has none.
pub fn width_of(number: u64) -> u32
    ensures value { result ≡ width_of number }
    ensures enough { number < 2 ^ result }
    ensures most { result ≤ 64 }
{
    64 - number.leading_zeros()
}

/// Writes the whole bytes of the bits that wait, and gives the bits that are left.
fn push_whole_bytes(out: &mut Vec<u8>, pending: u128, bits: u32) -> Result<(u128, u32), AllocError>
    requires few { bits < 72 }
    requires fits { pending < 2 ^ bits }
    ensures few { IfOk result (λ left. left.1 < 8) }
    ensures fits { IfOk result (λ left. left.0 < 2 ^ left.1) }
    ensures row { IfOk result (λ left. (more count : ℕ) →
        out.new.items ++ digits 8 (bytes_for (left.1 + count)) (left.0 + 2 ^ left.1 * more)
        ≡ out.old.items ++ digits 8 (bytes_for (bits + count)) (pending + 2 ^ bits * more)) }
{
    let mut waiting = pending;
    let mut left = bits;
    while left >= 8 {
        out.push((waiting % 256) as u8)?;
        waiting /= 256;
        left -= 8;
    }
    Ok((waiting, left))
}

/// Adds numbers of that width behind the bytes.
pub fn pack(out: Vec<u8>, width: u32, numbers: &[u64]) -> Result<Vec<u8>, AllocError>
    requires width { width ≤ 64 }
    requires fit { All (λ number. number < 2 ^ width) numbers.now }
    ensures { IfOk result (λ v. v.items ≡ out.items ++ packed width numbers.now) }
{
    let mut out = out;
    let mut pending: u128 = 0;
    let mut bits: u32 = 0;
    for number in numbers {
        let waiting = pending + ((*number as u128) << bits);
        (pending, bits) = push_whole_bytes(&mut out, waiting, bits + width)?;
    }
    if bits == 0 {
        return Ok(out);
    }
    out.push(pending as u8)?;
    Ok(out)
}

/// Whether no bit is set.
fn is_zero(bytes: &[u8]) -> bool
    ensures { result ≡ list_all (λ byte. byte == 0) bytes.now }
{
    bytes.iter().all(|byte| *byte == 0)
}

/// Fewer than eight bytes as one number.
fn short_word(bytes: &[u8]) -> u64
    requires { length bytes.now < 8 }
    ensures { result ≡ joined 8 bytes.now }
{
    let mut word = 0u64;
    let mut bits = 0u32;
    for byte in bytes {
        word += u64::from(*byte) << bits;
        bits += 8;
    }
    word
}

/// The eight bytes at the front as one number, and those behind them; behind the end stand bits 0.
fn next_word(bytes: &[u8]) -> (u64, &[u8])
    ensures { joined 8 bytes.now ≡ result.0 + 2 ^ 64 * joined 8 result.1.now }
{
    if bytes.len() < 8 {
        return (short_word(bytes), &[]);
    }
    let (front, rest) = bytes.split_at(8);
    let word = u64::from_le_bytes([
        front[0], front[1], front[2], front[3], front[4], front[5], front[6], front[7],
    ]);
    (word, rest)
}

/// The lowest bits of a number, so many.
fn low_bits(number: u64, width: u32) -> u64
    requires { width ≤ 64 }
    ensures { result ≡ number % 2 ^ width }
{
    (u128::from(number) % (1u128 << width)) as u64
}

/// The number at the front of the bits that wait and the bytes behind them, and what is left of both.
fn take_number<'a>(
    bytes: &'a [u8],
    pending: u64,
    bits: u32,
    width: u32,
) -> (u64, &'a [u8], u64, u32)
    requires few { bits < 64 }
    requires narrow { width ≤ 64 }
    requires fits { pending < 2 ^ bits }
    ensures value { result.0 ≡ (pending + 2 ^ bits * joined 8 bytes.now) % 2 ^ width }
    ensures few { result.3 < 64 }
    ensures fits { result.2 < 2 ^ result.3 }
    ensures left { result.2 + 2 ^ result.3 * joined 8 result.1.now ≡ (pending + 2 ^ bits * joined 8 bytes.now) / 2 ^ width }
{
    if width <= bits {
        let number = low_bits(pending, width);
        return (number, bytes, pending >> width, bits - width);
    }
    let (word, rest) = next_word(bytes);
    let missing = width - bits;
    let number = low_bits(pending.wrapping_add(word << bits), width);
    let left = (word >> (missing - 1)) >> 1;
    (number, rest, left, 64 - missing)
}

/// Numbers of that width, as many as asked for, from the front of the bytes; none where a bit behind them is set.
pub fn unpack(
    alloc: Global,
    bytes: &[u8],
    width: u32,
    count: usize,
) -> Result<Option<Vec<u64>>, AllocError>
    requires { width ≤ 64 }
    ensures { IfOk result (λ found. MatchOption found
        (2 ^ (count * width) ≤ joined 8 bytes.now)
        (λ numbers. (joined 8 bytes.now < 2 ^ (count * width)) × (numbers.items ≡ digits width count (joined 8 bytes.now)))) }
{
    let mut numbers = Vec::with_capacity(alloc, count)?;
    let mut rest = bytes;
    let mut pending = 0u64;
    let mut bits = 0u32;
    for _turn in 0..count {
        let (number, after, waiting, left) = take_number(rest, pending, bits, width);
        numbers.push(number)?;
        rest = after;
        pending = waiting;
        bits = left;
    }
    if pending != 0 {
        return Ok(None);
    }
    if !is_zero(rest) {
        return Ok(None);
    }
    Ok(Some(numbers))
}
