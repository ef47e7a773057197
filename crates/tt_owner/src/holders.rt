//! All holders of all partitions, in one pass over the layouts.
ghost use Rattle.std.specs.Prelude.{◌≡◌, ℕ, Bool, ◌<◌, ◌≤◌, ◌^◌, ◌==◌, ◌&&◌, ◌||◌, ◌++◌, map, filter, length, OnOk, IfOk};
ghost use Rattle.std.specs.List.{list_any, AllWithin};
ghost use Rattle.std.specs.List.Sorted.{IsPermutation, IsNonDecreasing, IsNonDecreasingBy};
ghost use Rattle.tt_layout.specs.Numbers.{has};
ghost use Rattle.tt_layout.specs.Holds.{is_held, hold_of};
ghost use Rattle.tt_sweep.specs.Claims.{AreClaims, claimed, claimed_numbers};
ghost use Rattle.tt_owner.specs.Holders.{holder_at};
ghost use Rattle.tt_owner.specs.AllHolders.{AreHolders, claimed_holder, is_hold, strongest_claimed};

use crate::holder::Holder;
use crate::holding::stands;
use crate::runs::middle;
use std::alloc::{AllocError, Global};
use tt_layout::{Facts, Hold, TableFacts};
use tt_sweep::Claim;
use tt_sweep::claims::claims_of;
use tt_sweep::numbers::has_number;

/// The holders of all partitions, by the number of the partition. One may stand more than once.
pub fn all_holders(alloc: Global, facts: &Facts) -> Result<Vec<Holder>, AllocError>
    requires { facts.now.at < 2 ^ 62 }
    ensures holders { IfOk result (λ holders. AreHolders facts.now holders.items) }
    ensures order { IfOk result (λ holders. IsNonDecreasingBy (λ holder. holder.part) holders.items) }
{
    let mut holders = Vec::new(alloc);
    for table in facts.tables.items() {
        push_holders(&mut holders, table, facts.at)?;
    }
    sort_by_part(&mut holders)?;
    Ok(holders)
}

fn push_holders(holders: &mut Vec<Holder>, table: &TableFacts, at: u64) -> Result<(), AllocError>
    requires { at < 2 ^ 62 }
    ensures { OnOk result ((part : ℕ) (test : Holder → Bool) →
        list_any (λ holder. (holder.part == part) && test holder) holders.new.items
        ≡ (list_any (λ holder. (holder.part == part) && test holder) holders.old.items
        || (is_held (hold_of at table.now part) && test (holder_at at part table.now)))) }
{
    let alloc = *holders.allocator();
    let claims = claims_of(alloc, table, at)?;
    let active = numbers_held(alloc, &claims, Hold::Active)?;
    let travel = numbers_held(alloc, &claims, Hold::TimeTravel)?;
    let sample = Holder {
        part: 0,
        table: table.number,
        stands: stands(table, at),
        hold: Hold::Nothing,
    };
    push_claimed(holders, sample, &claims, &active, &travel)
}

/// The numbers that are claimed in one way, in order.
fn numbers_held(alloc: Global, claims: &[Claim], hold: Hold) -> Result<Vec<u64>, AllocError>
    ensures numbers { IfOk result (λ numbers. (part : ℕ) → has numbers.items part ≡ claimed (is_hold hold) claims.now part) }
    ensures order { IfOk result (λ numbers. IsNonDecreasing numbers.items) }
{
    let mut numbers = Vec::new(alloc);
    for claim in claims {
        if is_hold(claim.hold, hold) {
            numbers.push(claim.part)?;
        }
    }
    numbers.sort_unstable();
    Ok(numbers)
}

fn is_hold(hold: Hold, wanted: Hold) -> bool
    ensures { result ≡ is_hold wanted hold }
{
    hold == wanted
}

/// A holder for each claim, with its strongest hold, and else as the sample.
fn push_claimed(
    holders: &mut Vec<Holder>,
    sample: Holder,
    claims: &[Claim],
    active: &[u64],
    travel: &[u64],
) -> Result<(), AllocError>
    requires active { IsNonDecreasing active.now }
    requires travel { IsNonDecreasing travel.now }
    ensures { OnOk result (holders.new.items ≡ holders.old.items
        ++ map (claimed_holder sample active.now travel.now) (claimed_numbers claims.now)) }
{
    for claim in claims {
        holders.push(Holder {
            part: claim.part,
            hold: strongest_claimed(active, travel, claim.part),
            ..sample
        })?;
    }
    Ok(())
}

fn strongest_claimed(active: &[u64], travel: &[u64], part: u64) -> Hold
    requires active { IsNonDecreasing active.now }
    requires travel { IsNonDecreasing travel.now }
    ensures { result ≡ strongest_claimed active.now travel.now part }
{
    if has_number(active, part) {
        Hold::Active
    } else if has_number(travel, part) {
        Hold::TimeTravel
    } else {
        Hold::FailSafe
    }
}

fn sort_by_part(holders: &mut Vec<Holder>) -> Result<(), AllocError>
    ensures permutation { IsPermutation holders.old.items holders.new.items }
    ensures order { OnOk result (IsNonDecreasingBy (λ holder. holder.part) holders.new.items) }
{
    holders.sort_by_key(|holder| holder.part)?;
    Ok(())
}

/// The holders of one partition, found by halving.
pub fn holders_of(holders: &[Holder], part: u64) -> &[Holder]
    requires { IsNonDecreasingBy (λ holder. holder.part) holders.now }
    ensures { result.now ≡ filter (λ holder. holder.part == part) holders.now }
{
    let begin = first_of(holders, part);
    let end = first_behind(holders, part);
    middle(holders, begin, end)
}

fn first_of(holders: &[Holder], part: u64) -> usize
    requires { IsNonDecreasingBy (λ holder. holder.part) holders.now }
    ensures bound { result ≤ length holders.now }
    ensures below { AllWithin (λ holder. holder.part < part) holders.now 0 result }
    ensures later { AllWithin (λ holder. part ≤ holder.part) holders.now result (length holders.now) }
{
    holders.partition_point(|holder| holder.part < part)
}

fn first_behind(holders: &[Holder], part: u64) -> usize
    requires { IsNonDecreasingBy (λ holder. holder.part) holders.now }
    ensures bound { result ≤ length holders.now }
    ensures up_to { AllWithin (λ holder. holder.part ≤ part) holders.now 0 result }
    ensures above { AllWithin (λ holder. part < holder.part) holders.now result (length holders.now) }
{
    holders.partition_point(|holder| holder.part <= part)
}
