//! The sweep.
ghost use Rattle.std.specs.Prelude.{◌≡◌, ℕ, ◌<◌, ◌^◌, ◌++◌, OnOk, IfOk};
ghost use Rattle.std.specs.List.Sorted.{IsNonDecreasing};
ghost use Rattle.tt_layout.specs.Holds.{is_named};
ghost use Rattle.tt_layout.specs.Numbers.{has, IsAscending};
ghost use Rattle.tt_sweep.specs.Doomed.{numbers_of, unnamed_parts};
ghost use Rattle.tt_sweep.specs.Claims.{claimed_numbers};

use crate::claim::Claim;
use crate::claims::claims_of;
use crate::list::Doomed;
use crate::numbers::has_number;
use std::alloc::{AllocError, Global};
use tt_layout::Facts;

/// The stored partitions that no table holds and nothing pins at the moment of the facts.
pub fn doomed(alloc: Global, facts: &Facts) -> Result<Doomed, AllocError>
    requires { facts.now.at < 2 ^ 62 }
    ensures at { IfOk result (λ list. list.at ≡ facts.now.at) }
    ensures parts { IfOk result (λ list. list.parts.items ≡ unnamed_parts facts.now) }
    ensures by_number { IsAscending (numbers_of facts.now.parts) → IfOk result (λ list. IsAscending list.parts.items) }
{
    let named = named_numbers(alloc, facts)?;
    let mut parts = Vec::new(alloc);
    for part in facts.parts.items() {
        if !has_number(&named, part.number) {
            parts.push(part.number)?;
        }
    }
    Ok(Doomed {
        at: facts.at,
        parts,
    })
}

/// The numbers that a table holds or that are pinned, in order.
fn named_numbers(alloc: Global, facts: &Facts) -> Result<Vec<u64>, AllocError>
    requires { facts.now.at < 2 ^ 62 }
    ensures numbers { IfOk result (λ named. (part : ℕ) → has named.items part ≡ is_named facts.now part) }
    ensures order { IfOk result (λ named. IsNonDecreasing named.items) }
{
    let mut named = Vec::new(alloc);
    named.extend_from_slice(facts.pins.items())?;
    for table in facts.tables.items() {
        let claims = claims_of(alloc, table, facts.at)?;
        push_numbers(&mut named, &claims)?;
    }
    named.sort_unstable();
    Ok(named)
}

fn push_numbers(named: &mut Vec<u64>, claims: &[Claim]) -> Result<(), AllocError>
    ensures { OnOk result (named.new.items ≡ named.old.items ++ claimed_numbers claims.now) }
{
    for claim in claims {
        named.push(claim.part)?;
    }
    Ok(())
}
