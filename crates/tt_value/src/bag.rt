//! Bags: sorted lists of rows, copies kept.

ghost use Rattle.std.specs.Prelude.{◌≡◌, ◌+◌, ◌-◌, ◌++◌, List, IfOk};
ghost use Rattle.tt_value.specs.declared.value.Row.{Row};
ghost use Rattle.tt_value.specs.values.Bags.{IsBag, bag_of, bag_plus, bag_minus, copies_of};

use crate::order::compare_rows;
use crate::value::Row;
use std::alloc::{AllocError, Global};
use std::cmp::Ordering;
use std::marker::Model;

/// A sorted list of rows, copies kept. Contracts see the list. It keeps the allocator of its rows.
#[derive(Clone, Drop)]
pub struct Bag {
    rows: Vec<Row>,
}

impl Model for Bag {
    ghost use Rattle.std.specs.Prelude.{List};
    ghost use Rattle.tt_value.specs.declared.value.Row.{Row};
    ghost use Rattle.tt_value.specs.values.Bags.{IsBag};

    ghost Value = { List Row };

    ghost view = { λ b. b.rows.items };

    ghost invariant = { λ b. IsBag b.rows.items };
}

/// A bag has the copies that were put in, the copies of both, or what is left of them, and is sorted.
pub fn bags_keep_copies()
    ensures of { (row : _) (rows : _) → copies_of row (bag_of rows) ≡ copies_of row rows }
    ensures plus { (row : Row) (a b : List Row) →
        copies_of row (bag_plus a b) ≡ copies_of row a + copies_of row b }
    ensures minus { (row : Row) (a b : List Row) →
        copies_of row (bag_minus a b) ≡ copies_of row a - copies_of row b }
    ensures of_sorted { (rows : List Row) → IsBag (bag_of rows) }
    ensures minus_sorted { (a b : List Row) → IsBag a → IsBag (bag_minus a b) }
{}

/// Two bags with as many copies of each row are one bag.
pub fn bags_are_their_copies()
    ensures { (a b : List Row) → IsBag a → IsBag b
        → ((row : Row) → copies_of row a ≡ copies_of row b) → a ≡ b }
{}

impl Bag {
    /// The bag of these rows.
    pub fn from_rows(_alloc: Global, mut rows: Vec<Row>) -> Result<Bag, AllocError>
        ensures value { IfOk result (λ bag. bag ≡ bag_of rows.items) }
        ensures sorted { IfOk result (λ bag. IsBag bag) }
    {
        rows.sort()?;
        Ok(Bag { rows })
    }

    /// The rows in ascending order.
    pub fn rows(&self) -> &[Row]
        ensures value { result.now ≡ self.now }
        ensures sorted { IsBag self.now }
    {
        self.rows.as_slice()
    }

    /// The bag with the copies of both.
    pub fn plus(&self, other: &Bag) -> Result<Bag, AllocError>
        ensures value { IfOk result (λ bag. bag ≡ bag_plus self.now other.now) }
    {
        let alloc = *self.rows.allocator();
        let rows = merged(alloc, self.rows(), other.rows())?;
        Ok(Bag { rows })
    }

    /// The bag without one copy of a row for each copy in the other, where there is one.
    pub fn minus(&self, other: &Bag) -> Result<Bag, AllocError>
        ensures value { IfOk result (λ bag. bag ≡ bag_minus self.now other.now) }
    {
        let alloc = *self.rows.allocator();
        let rows = remaining(alloc, self.rows(), other.rows())?;
        Ok(Bag { rows })
    }
}

fn merged(alloc: Global, mut left: &[Row], mut right: &[Row]) -> Result<Vec<Row>, AllocError>
    requires left_sorted { IsBag left.now }
    requires right_sorted { IsBag right.now }
    ensures { IfOk result (λ rows. rows.items ≡ bag_plus left.now right.now) }
{
    let mut rows = Vec::new(alloc);
    while let (Some((first, firsts)), Some((second, seconds))) = (
        left.split_first(),
        right.split_first(),
    ) {
        if compare_rows(first, second).is_gt() {
            rows.push(copy_of(second)?)?;
            right = seconds;
        } else {
            rows.push(copy_of(first)?)?;
            left = firsts;
        }
    }
    append_clones(&mut rows, left)?;
    append_clones(&mut rows, right)?;
    Ok(rows)
}

fn remaining(alloc: Global, mut left: &[Row], mut right: &[Row]) -> Result<Vec<Row>, AllocError>
    requires left_sorted { IsBag left.now }
    requires right_sorted { IsBag right.now }
    ensures { IfOk result (λ rows. rows.items ≡ bag_minus left.now right.now) }
{
    let mut rows = Vec::new(alloc);
    while let (Some((row, later)), Some((taken, others))) = (
        left.split_first(),
        right.split_first(),
    ) {
        match compare_rows(row, taken) {
            Ordering::Less => {
                rows.push(copy_of(row)?)?;
                left = later;
            }
            Ordering::Equal => {
                left = later;
                right = others;
            }
            Ordering::Greater => right = others,
        }
    }
    append_clones(&mut rows, left)?;
    Ok(rows)
}

fn copy_of(row: &Row) -> Result<Row, AllocError>
    ensures { IfOk result (λ copy. copy ≡ row.now) }
{
    row.clone()
}

fn append_clones(rows: &mut Vec<Row>, more: &[Row]) -> Result<(), AllocError>
    ensures { IfOk result (λ _. rows.new.items ≡ rows.old.items ++ more.now) }
{
    rows.extend_from_slice(more)?;
    Ok(())
}
