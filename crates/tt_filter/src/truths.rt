//! A truth value for each row, held as two lists of bits.

ghost use Rattle.std.specs.Prelude.{◌≡◌, ◌++◌, ◌∷◌, [], List, map, length, IfOk, OnOk};
ghost use Rattle.tt_value.specs.declared.value.Row.{Row};
ghost use Rattle.tt_value.specs.declared.predicate.Truth.{Truth as TruthValue};
ghost use Rattle.tt_value.specs.trees.Truths as truths;
ghost use Rattle.tt_zone.specs.TruthSets.{is_false as is_false_value};
ghost use Rattle.tt_filter.specs.RowTruths.{HasTruths, AreAlike};

use std::alloc::{AllocError, Global};
use tt_bits::Bits;
use tt_value::Truth;

/// The rows on which something is true, and those on which it is false. On the others it is unknown.
#[derive(Drop)]
pub struct Truths {
    pub trues: Bits,
    pub falses: Bits,
}

fn is_true(truth: Truth) -> bool
    ensures { result ≡ truths.is_true truth }
{
    match truth {
        Truth::True => true,
        Truth::False | Truth::Unknown => false,
    }
}

fn is_false(truth: Truth) -> bool
    ensures { result ≡ is_false_value truth }
{
    match truth {
        Truth::False => true,
        Truth::True | Truth::Unknown => false,
    }
}

impl Truths {
    /// The same truth value on so many rows.
    pub fn filled(alloc: Global, count: usize, truth: Truth) -> Result<Truths, AllocError>
        ensures { IfOk result (λ found. (rows : List Row) → length rows ≡ count
            → HasTruths (map (λ row. truth) rows) found) }
    {
        let trues = Bits::filled(alloc, count, is_true(truth))?;
        let falses = Bits::filled(alloc, count, is_false(truth))?;
        Ok(Truths { trues, falses })
    }

    /// Of no row, with room for so many.
    pub fn with_room(alloc: Global, count: usize) -> Result<Truths, AllocError>
        ensures { IfOk result (HasTruths []) }
    {
        let trues = Bits::with_room(alloc, count)?;
        let falses = Bits::with_room(alloc, count)?;
        Ok(Truths { trues, falses })
    }

    /// One more row.
    pub fn push(&mut self, truth: Truth) -> Result<(), AllocError>
        ensures { OnOk result ((before : List TruthValue) → HasTruths before self.old
            → HasTruths (before ++ truth ∷ []) self.new) }
    {
        self.trues.push(is_true(truth))?;
        self.falses.push(is_false(truth))?;
        Ok(())
    }

    /// AND with the other, row by row.
    pub fn and(&mut self, other: &Truths)
        requires { AreAlike self.old other.now }
        ensures { (f g : Row → TruthValue) (rows : List Row)
            → HasTruths (map f rows) self.old → HasTruths (map g rows) other.now
            → HasTruths (map (λ row. truths.and_truth (f row) (g row)) rows) self.new }
    {
        self.trues.and(&other.trues);
        self.falses.or(&other.falses);
    }

    /// OR with the other, row by row.
    pub fn or(&mut self, other: &Truths)
        requires { AreAlike self.old other.now }
        ensures { (f g : Row → TruthValue) (rows : List Row)
            → HasTruths (map f rows) self.old → HasTruths (map g rows) other.now
            → HasTruths (map (λ row. truths.or_truth (f row) (g row)) rows) self.new }
    {
        self.trues.or(&other.trues);
        self.falses.and(&other.falses);
    }

    /// NOT, row by row.
    pub fn negated(self) -> Truths
        ensures { (f : Row → TruthValue) (rows : List Row) → HasTruths (map f rows) self
            → HasTruths (map (λ row. truths.not_truth (f row)) rows) result }
    {
        Truths {
            trues: self.falses,
            falses: self.trues,
        }
    }

    /// NOT, row by row, where it is written.
    pub fn negated_if(self, negated: bool) -> Truths
        ensures { (f : Row → TruthValue) (rows : List Row) → HasTruths (map f rows) self
            → HasTruths (map (λ row. truths.not_if negated (f row)) rows) result }
    {
        if negated { self.negated() } else { self }
    }
}
