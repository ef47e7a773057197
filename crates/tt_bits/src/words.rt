//! The words of a list of bits.
ghost use Rattle.std.specs.Prelude.{◌≡◌, [], ℕ, ◌+◌, ◌*◌, ◌^◌, ◌<◌, ◌≤◌, ◌==◌, ◌&&◌, ◌||◌, not, length, sum_by, count_ones, count_by, false, OnOk, OnErr, IfOk, if◌then◌else◌};
ghost use Rattle.tt_bits.specs.Words.{is_set, bits_of, AreWordsFor, Keeps};

use std::alloc::{AllocError, Global};

/// How many bits a word has.
const WORD: usize = 64;

/// As many words as so many bits take, with each bit as told.
pub fn filled_words(alloc: Global, length: usize, bit: bool) -> Result<Vec<u64>, AllocError>
    ensures size { IfOk result (λ words. AreWordsFor length words.items) }
    ensures bits { IfOk result (λ words.
        (place : ℕ) → place < length → is_set words.items place ≡ bit) }
{
    let word = if bit { u64::MAX } else { 0 };
    let words = vec![in alloc; word; length.div_ceil(WORD)]?;
    Ok(words)
}

/// No word, with room for as many as so many bits take.
pub fn room_for(alloc: Global, length: usize) -> Result<Vec<u64>, AllocError>
    ensures { IfOk result (λ words. words.items ≡ []) }
{
    let words = Vec::with_capacity(alloc, length.div_ceil(WORD))?;
    Ok(words)
}

/// Makes what is left of the last word 0, where the words are those for so many bits.
pub fn clear_unused(words: &mut [u64], length: usize)
    requires { AreWordsFor length words.old }
    ensures kept { (place : ℕ) → place < length → is_set words.new place ≡ is_set words.old place }
    ensures cleared { (place : ℕ) → length ≤ place → is_set words.new place ≡ false }
{
    let used = length % WORD;
    if used != 0 {
        let last = words.len() - 1;
        words[last] &= (1 << used) - 1;
    }
}

/// One more word, where so many bits fill the words.
pub fn make_room(words: &mut Vec<u64>, length: usize) -> Result<(), AllocError>
    requires { AreWordsFor length words.old.items }
    ensures size { OnOk result (AreWordsFor (length + 1) words.new.items) }
    ensures kept { (place : ℕ) → is_set words.new.items place ≡ is_set words.old.items place }
    ensures err { OnErr result (words.new.items ≡ words.old.items) }
{
    if length % WORD == 0 {
        words.push(0)?;
    }
    Ok(())
}

/// Makes the bit at a place what is told, where it is not set.
pub fn put_bit(words: &mut [u64], place: usize, bit: bool)
    requires within { place < 64 * length words.old }
    requires unset { is_set words.old place ≡ false }
    ensures { (other : ℕ) →
        is_set words.new other ≡ (if other == place then bit else is_set words.old other) }
{
    if bit {
        words[place / WORD] |= 1 << (place % WORD);
    }
}

/// Whether the bit at a place is set.
pub fn is_set(words: &[u64], place: usize) -> bool
    requires { place < 64 * length words.now }
    ensures { result ≡ is_set words.now place }
{
    (words[place / WORD] >> (place % WORD)) & 1 == 1
}

/// Leaves a bit set where the other's is set too.
pub fn and_words(words: &mut [u64], others: &[u64])
    requires { length others.now ≡ length words.old }
    ensures { (place : ℕ) →
        is_set words.new place ≡ (is_set words.old place && is_set others.now place) }
{
    for (place, word) in words.iter_mut().enumerate() {
        *word &= others[place];
    }
}

/// Sets a bit where the other's is set.
pub fn or_words(words: &mut [u64], others: &[u64])
    requires { length others.now ≡ length words.old }
    ensures { (place : ℕ) →
        is_set words.new place ≡ (is_set words.old place || is_set others.now place) }
{
    for (place, word) in words.iter_mut().enumerate() {
        *word |= others[place];
    }
}

/// Turns each bit.
pub fn not_words(words: &mut [u64])
    ensures { (place : ℕ) → place < 64 * length words.old →
        is_set words.new place ≡ not (is_set words.old place) }
{
    for word in words.iter_mut() {
        *word = !*word;
    }
}

/// How many of so many bits are set.
pub fn count_set(words: &[u64], length: usize) -> usize
    requires { Keeps length words.now }
    ensures { result ≡ count_by (λ bit. bit) (bits_of length words.now) }
{
    sum_of_ones(words)
}

fn sum_of_ones(words: &[u64]) -> usize
    requires { sum_by count_ones words.now < 2 ^ 64 }
    ensures { result ≡ sum_by count_ones words.now }
{
    words.iter().map(|word| word.count_ones() as usize).sum()
}
