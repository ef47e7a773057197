//! How a table holds a partition, read off the pieces of its chain without taking memory.
ghost use Rattle.std.specs.Prelude.{◌≡◌, ◌<◌, ◌^◌, if◌then◌else◌, List, ℕ, length};
ghost use Rattle.tt_layout.specs.Numbers.{has};
ghost use Rattle.tt_layout.specs.Chain.{numbers_of};
ghost use Rattle.tt_layout.specs.Holds.{hold_of, stands, is_time_travel};
ghost use Rattle.tt_layout.specs.declared.hold.Hold.TheVariants as hold;
ghost use Rattle.tt_sweep.specs.Claims.{end_at, span_hold};
ghost use Rattle.tt_owner.specs.Holders.{PieceAscends, stronger};

use tt_layout::{Hold, Piece, TableFacts};
use tt_retain::Stage;
use tt_sweep::claims::hold_at;
use tt_sweep::numbers::has_number;

/// The strongest hold of a table on a partition at a moment.
pub fn hold_on(table: &TableFacts, at: u64, number: u64) -> Hold
    requires { at < 2 ^ 62 }
    ensures { result ≡ hold_of at table.now number }
{
    let pieces = table.layouts.pieces();
    let mut strongest = Hold::Nothing;
    let mut inside = false;
    for place in 0..pieces.len() {
        inside = is_in(&pieces[place].1, number, inside);
        strongest = stronger(strongest, hold_if(table, place, at, inside));
    }
    strongest
}

/// How the layout at a place is held, if it has the partition.
fn hold_if(table: &TableFacts, place: usize, at: u64, inside: bool) -> Hold
    requires at { at < 2 ^ 62 }
    requires place { place < length table.now.layouts }
    ensures { result ≡ (if inside then span_hold at table.now.regimes (end_at table.now.layouts table.now.dropped place) else hold.Nothing) }
{
    if inside {
        hold_at(table, place, at)
    } else {
        Hold::Nothing
    }
}

/// Whether a layout has a number, where it is known whether the one before it has it.
fn is_in(piece: &Piece, number: u64, inside: bool) -> bool
    requires { PieceAscends piece.now }
    ensures { (before : List ℕ) → inside ≡ has before number → result ≡ has (numbers_of before piece.now) number }
{
    match piece {
        Piece::Full(numbers) => has_number(numbers.items(), number),
        Piece::Change { gone, added } => {
            if has_number(added.items(), number) {
                return true;
            }
            if has_number(gone.items(), number) {
                return false;
            }
            inside
        }
    }
}

fn stronger(one: Hold, other: Hold) -> Hold
    ensures { result ≡ stronger one other }
{
    match (one, other) {
        (Hold::Active, _) | (_, Hold::Active) => Hold::Active,
        (Hold::TimeTravel, _) | (_, Hold::TimeTravel) => Hold::TimeTravel,
        (Hold::FailSafe, _) | (_, Hold::FailSafe) => Hold::FailSafe,
        (Hold::Nothing, Hold::Nothing) => Hold::Nothing,
    }
}

/// Whether a table is live, or dropped and in Time Travel, at a moment.
pub fn stands(table: &TableFacts, at: u64) -> bool
    requires { at < 2 ^ 62 }
    ensures { result ≡ stands at table.now }
{
    match table.dropped {
        None => true,
        Some(dropped) => is_time_travel(table.regimes.stage(dropped, at)),
    }
}

fn is_time_travel(stage: Stage) -> bool
    ensures { result ≡ is_time_travel stage }
{
    match stage {
        Stage::TimeTravel => true,
        Stage::FailSafe | Stage::Gone => false,
    }
}
