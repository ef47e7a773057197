//! What a table claims of the partitions, read off the pieces of its chain in one pass.
ghost use Rattle.std.specs.Prelude.{◌≡◌, ℕ, ◌<◌, ◌^◌, ◌||◌, ◌&&◌, Some, true, false, Bool, length, ◌++◌, OnOk, IfOk};
ghost use Rattle.tt_layout.specs.Chain.{layout_at, begun_at, numbers_at};
ghost use Rattle.tt_layout.specs.Numbers.{has};
ghost use Rattle.tt_sweep.specs.Claims.{AreClaims, Covers, claimed, end_at, span_hold, numbers_before, hold_in, claims_with};

use crate::claim::Claim;
use std::alloc::{AllocError, Global};
use tt_layout::{Hold, Piece, TableFacts};
use tt_retain::Stage;

/// The numbers of the partitions that a table holds at a moment, each as often as a layout begins to hold it in
/// another way, with what that way is.
pub fn claims_of(alloc: Global, table: &TableFacts, at: u64) -> Result<Vec<Claim>, AllocError>
    requires { at < 2 ^ 62 }
    ensures { IfOk result (λ claims. AreClaims at table.now claims.items) }
{
    let mut claims = Vec::new(alloc);
    let mut before = Hold::Nothing;
    for place in 0..table.layouts.pieces().len() {
        let hold = hold_at(table, place, at);
        if hold != Hold::Nothing {
            claim_layout(&mut claims, table, place, hold, hold == before)?;
        }
        before = hold;
    }
    Ok(claims)
}

/// How the layout at a place, counted from 0, is held at a moment. Takes no memory.
pub fn hold_at(table: &TableFacts, place: usize, at: u64) -> Hold
    requires at { at < 2 ^ 62 }
    requires place { place < length table.now.layouts }
    ensures { result ≡ span_hold at table.now.regimes (end_at table.now.layouts table.now.dropped place) }
{
    match span_end(table, place) {
        None => Hold::Active,
        Some(ended) => hold_of_stage(table.regimes.stage(ended, at)),
    }
}

fn hold_of_stage(stage: Stage) -> Hold
    ensures { result ≡ hold_in stage }
{
    match stage {
        Stage::TimeTravel => Hold::TimeTravel,
        Stage::FailSafe => Hold::FailSafe,
        Stage::Gone => Hold::Nothing,
    }
}

/// The moment at which the span ended that begins at a place; none while it lasts.
fn span_end(table: &TableFacts, place: usize) -> Option<u64>
    requires { place < length table.now.layouts }
    ensures { result ≡ end_at table.now.layouts table.now.dropped place }
{
    let pieces = table.layouts.pieces();
    if place + 1 < pieces.len() {
        Some(pieces[place + 1].0)
    } else {
        table.dropped
    }
}

/// Claims the numbers of the layout at a place. Where those of the layout before it are claimed in the same way,
/// only what a change added is new.
fn claim_layout(
    claims: &mut Vec<Claim>,
    table: &TableFacts,
    place: usize,
    hold: Hold,
    known: bool,
) -> Result<(), AllocError>
    requires place { place < length table.now.layouts }
    requires known { known ≡ true → Covers claims.old.items hold (numbers_before table.now.layouts place) }
    requires fresh { known ≡ false → 0 < place
        → layout_at table.now.layouts (begun_at table.now.layouts place) ≡ Some (numbers_at table.now.layouts place) }
    ensures { OnOk result ((test : Hold → Bool) (part : ℕ) → claimed test claims.new.items part
        ≡ (claimed test claims.old.items part || (has (numbers_at table.now.layouts place) part && test hold))) }
{
    let (begun, piece) = &table.layouts.pieces()[place];
    match piece {
        Piece::Full(numbers) => claim_all(claims, numbers.items(), hold),
        Piece::Change { added, .. } if known => claim_all(claims, added.items(), hold),
        Piece::Change { .. } => {
            let Some(numbers) = table.layouts.at(*begun)? else {
                unreachable!()
            };
            claim_all(claims, &numbers, hold)
        }
    }
}

fn claim_all(claims: &mut Vec<Claim>, numbers: &[u64], hold: Hold) -> Result<(), AllocError>
    ensures { OnOk result (claims.new.items ≡ claims.old.items ++ claims_with hold numbers.now) }
{
    for number in numbers {
        claims.push(Claim {
            part: *number,
            hold,
        })?;
    }
    Ok(())
}
