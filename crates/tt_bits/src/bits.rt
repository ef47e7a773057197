//! A list of bits.
ghost use Rattle.std.specs.Prelude.{◌≡◌, ◌++◌, ◌∷◌, [], not, map, length, slice_get, count_by, replicate, OnErr, OnOk, IfOk, All, ◌<◌, ◌^◌, IsTrue, ◌↔◌};
ghost use Rattle.tt_bits.specs.Bits.{both, either};

use crate::words::{
    and_words, clear_unused, count_set, filled_words, is_set, make_room, not_words, or_words,
    put_bit, room_for,
};
use std::alloc::{AllocError, Global};
use std::marker::Model;

/// A list of bits, which contracts see as a list of booleans. It keeps its allocator.
#[derive(Drop)]
pub struct Bits {
    words: Vec<u64>,
    length: usize,
}

impl Model for Bits {
    ghost use Rattle.std.specs.Prelude.{List, Bool};
    ghost use Rattle.tt_bits.specs.Words.{bits_of, Keeps};

    ghost Value = { List Bool };

    ghost view = { λ b. bits_of b.length b.words.items };

    ghost invariant = { λ b. Keeps b.length b.words.items };
}

impl Bits {
    /// So many bits, all set or none.
    pub fn filled(alloc: Global, length: usize, bit: bool) -> Result<Bits, AllocError>
        ensures { IfOk result (λ bits. bits ≡ replicate length bit) }
    {
        let mut words = filled_words(alloc, length, bit)?;
        clear_unused(&mut words, length);
        Ok(Bits { words, length })
    }

    /// No bit, with room for so many.
    pub fn with_room(alloc: Global, count: usize) -> Result<Bits, AllocError>
        ensures { IfOk result (λ bits. bits ≡ []) }
    {
        let words = room_for(alloc, count)?;
        Ok(Bits { words, length: 0 })
    }

    /// Adds a bit at the end. Where no memory is found, or the bits are as many as a `usize` can
    /// count, nothing is changed.
    pub fn push(&mut self, bit: bool) -> Result<(), AllocError>
        ensures ok { OnOk result (self.new ≡ self.old ++ bit ∷ []) }
        ensures err { OnErr result (self.new ≡ self.old) }
    {
        let Some(length) = self.length.checked_add(1) else {
            return Err(AllocError);
        };
        make_room(&mut self.words, self.length)?;
        put_bit(&mut self.words, self.length, bit);
        self.length = length;
        Ok(())
    }

    /// The bit at a place, from 0; none at the length or past it.
    pub fn get(&self, place: usize) -> Option<bool>
        ensures { result ≡ slice_get self.now place }
    {
        if place >= self.length {
            return None;
        }
        Some(is_set(&self.words, place))
    }

    /// How many bits there are.
    pub fn len(&self) -> usize
        ensures { result ≡ length self.now }
    {
        self.length
    }

    /// Whether there is no bit.
    pub fn is_empty(&self) -> bool
        ensures { IsTrue result ↔ (self.now ≡ []) }
    {
        self.length == 0
    }

    /// How many bits are set.
    pub fn count(&self) -> usize
        ensures { result ≡ count_by (λ bit. bit) self.now }
    {
        count_set(&self.words, self.length)
    }

    /// Leaves a bit set where the other's is set too.
    pub fn and(&mut self, other: &Bits)
        requires { length self.old ≡ length other.now }
        ensures { self.new ≡ both self.old other.now }
    {
        and_words(&mut self.words, &other.words);
    }

    /// Sets a bit where the other's is set.
    pub fn or(&mut self, other: &Bits)
        requires { length self.old ≡ length other.now }
        ensures { self.new ≡ either self.old other.now }
    {
        or_words(&mut self.words, &other.words);
    }

    /// Turns each bit.
    pub fn not(&mut self)
        ensures { self.new ≡ map not self.old }
    {
        not_words(&mut self.words);
        clear_unused(&mut self.words, self.length);
    }
}
