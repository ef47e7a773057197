//! The owner, the class and the bytes of all partitions.
ghost use Rattle.std.specs.Prelude.{◌≡◌, ℕ, ◌<◌, ◌≤◌, ◌^◌, ◌==◌, map, filter, length, OnOk, IfOk};
ghost use Rattle.std.specs.List.{AllWithin};
ghost use Rattle.std.specs.List.Sorted.{IsPermutation, IsNonDecreasing, IsNonDecreasingBy};
ghost use Rattle.tt_layout.specs.declared.facts.Facts.{Facts as FactsValue};
ghost use Rattle.tt_layout.specs.Numbers.{has};
ghost use Rattle.tt_owner.specs.Holders.{least_holder, seen_of, class_seen, origin_stands};
ghost use Rattle.tt_owner.specs.AllHolders.{AreHolders};
ghost use Rattle.tt_owner.specs.Owned.{AreStanding, owned_of};

use crate::holder::{Holder, class_seen, least_with, owner_from, seen_with, unseen};
use crate::holders::{all_holders, holders_of};
use crate::holding::stands;
use crate::runs::middle;
use std::alloc::{AllocError, Global};
use tt_layout::{Class, Facts, PartFacts};
use tt_sweep::numbers::has_number;

/// A partition's owner by its number, its class and its bytes.
#[derive(Clone, Copy, Drop)]
pub struct Owned {
    pub owner: u32,
    pub class: Class,
    pub bytes: u64,
}

/// All partitions, by the number of the owner.
pub fn owned_parts(alloc: Global, facts: &Facts) -> Result<Vec<Owned>, AllocError>
    requires { facts.now.at < 2 ^ 62 }
    ensures parts { IfOk result (λ owned. IsPermutation (map (owned_of facts.now) facts.now.parts) owned.items) }
    ensures order { IfOk result (λ owned. IsNonDecreasingBy (λ part. part.owner) owned.items) }
{
    let mut owned = owned_in_turn(alloc, facts)?;
    sort_by_owner(&mut owned)?;
    Ok(owned)
}

fn owned_in_turn(alloc: Global, facts: &Facts) -> Result<Vec<Owned>, AllocError>
    requires { facts.now.at < 2 ^ 62 }
    ensures { IfOk result (λ owned. owned.items ≡ map (owned_of facts.now) facts.now.parts) }
{
    let holders = all_holders(alloc, facts)?;
    let standing = standing_numbers(alloc, facts)?;
    let mut owned = Vec::new(alloc);
    for part in facts.parts.items() {
        owned.push(owned_part(&holders, &standing, part))?;
    }
    Ok(owned)
}

/// The numbers of the tables that stand, in order.
fn standing_numbers(alloc: Global, facts: &Facts) -> Result<Vec<u64>, AllocError>
    requires { facts.now.at < 2 ^ 62 }
    ensures numbers { IfOk result (λ numbers. AreStanding facts.now numbers.items) }
    ensures order { IfOk result (λ numbers. IsNonDecreasing numbers.items) }
{
    let mut numbers = Vec::new(alloc);
    for table in facts.tables.items() {
        if stands(table, facts.at) {
            numbers.push(u64::from(table.number))?;
        }
    }
    numbers.sort_unstable();
    Ok(numbers)
}

fn owned_part(holders: &[Holder], standing: &[u64], part: &PartFacts) -> Owned
    requires holders { IsNonDecreasingBy (λ holder. holder.part) holders.now }
    requires standing { IsNonDecreasing standing.now }
    ensures { (facts : FactsValue) → AreHolders facts holders.now → AreStanding facts standing.now
        → result ≡ owned_of facts part.now }
{
    let run = holders_of(holders, part.number);
    let origin_stands = has_number(standing, u64::from(part.origin));
    let owner = owner_from(part.origin, origin_stands, least_in(run));
    Owned {
        owner,
        class: class_in(run, owner),
        bytes: part.bytes,
    }
}

fn least_in(run: &[Holder]) -> Option<u32>
    ensures { result ≡ least_holder run.now }
{
    let mut least = None;
    for holder in run {
        least = least_with(least, *holder);
    }
    least
}

fn class_in(run: &[Holder], owner: u32) -> Class
    ensures { result ≡ class_seen (seen_of owner run.now) }
{
    let mut seen = unseen();
    for holder in run {
        seen = seen_with(seen, *holder, owner);
    }
    class_seen(seen)
}

fn sort_by_owner(owned: &mut Vec<Owned>) -> Result<(), AllocError>
    ensures permutation { IsPermutation owned.old.items owned.new.items }
    ensures order { OnOk result (IsNonDecreasingBy (λ part. part.owner) owned.new.items) }
{
    owned.sort_by_key(|part| part.owner)?;
    Ok(())
}

/// The partitions of one owner, found by halving.
pub fn owned_by(owned: &[Owned], owner: u32) -> &[Owned]
    requires { IsNonDecreasingBy (λ part. part.owner) owned.now }
    ensures { result.now ≡ filter (λ part. part.owner == owner) owned.now }
{
    let begin = first_of(owned, owner);
    let end = first_behind(owned, owner);
    middle(owned, begin, end)
}

fn first_of(owned: &[Owned], owner: u32) -> usize
    requires { IsNonDecreasingBy (λ part. part.owner) owned.now }
    ensures bound { result ≤ length owned.now }
    ensures below { AllWithin (λ part. part.owner < owner) owned.now 0 result }
    ensures later { AllWithin (λ part. owner ≤ part.owner) owned.now result (length owned.now) }
{
    owned.partition_point(|part| part.owner < owner)
}

fn first_behind(owned: &[Owned], owner: u32) -> usize
    requires { IsNonDecreasingBy (λ part. part.owner) owned.now }
    ensures bound { result ≤ length owned.now }
    ensures up_to { AllWithin (λ part. part.owner ≤ owner) owned.now 0 result }
    ensures above { AllWithin (λ part. owner < part.owner) owned.now result (length owned.now) }
{
    owned.partition_point(|part| part.owner <= owner)
}
