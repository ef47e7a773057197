//! What a change of a layout is worth, as laws of its definition, and rows that were worked by hand.
ghost use Rattle.std.specs.Prelude.{◌≡◌, ℕ, not, ◌&&◌, ◌||◌, true, false, List, [], ◌∷◌, Some, None};
ghost use Rattle.tt_layout.specs.Numbers.{IsAscending, HasAll, HasNone, has, without, changed};
ghost use Rattle.tt_layout.specs.Chain.{current_of, last_begun, layout_at, with_change, without_last, pieces_of};
ghost use Rattle.tt_layout.specs.Holds.{is_named};
ghost use Rattle.tt_layout.specs.Owners.{owner_of, class_of};
ghost use Rattle.tt_layout.specs.WorkedFacts.{part_of_source, with_clone, alone};

use crate::hold::Class;
use crate::piece::Piece;

/// A changed layout has the numbers that were there and are not gone, and those that were added, and it ascends.
pub fn changes_are_of_sets()
    ensures numbers { (ns gone added : List ℕ) (n : ℕ) →
        has (changed ns gone added) n ≡ ((has ns n && not (has gone n)) || has added n) }
    ensures ascends { (ns gone added : List ℕ) → IsAscending ns → IsAscending added
        → IsAscending (changed ns gone added) }
{}

/// Two ascending lists with the same numbers are one list.
pub fn layouts_are_their_numbers()
    ensures { (ns ms : List ℕ) → IsAscending ns → IsAscending ms
        → ((n : ℕ) → has ns n ≡ has ms n) → ns ≡ ms }
{}

/// A change can be read off the layouts in front of it and behind it, and it leads from the one to the other.
pub fn a_change_and_its_layouts()
    ensures gone { (ns gone added : List ℕ) → IsAscending ns → IsAscending gone → IsAscending added
        → HasAll ns gone → HasNone ns added → without (changed ns gone added) ns ≡ gone }
    ensures added { (ns gone added : List ℕ) → IsAscending ns → IsAscending gone → IsAscending added
        → HasAll ns gone → HasNone ns added → without ns (changed ns gone added) ≡ added }
    ensures back { (ns ms : List ℕ) → IsAscending ns → IsAscending ms
        → changed ns (without ms ns) (without ns ms) ≡ ms }
{}

/// The layout behind a push is the changed one, begins at its moment, and is what a `pop` takes back.
pub fn a_push_and_its_layout()
    ensures current { (layouts : List (ℕ × List ℕ)) (begun : ℕ) (gone added : List ℕ) →
        current_of (with_change layouts begun gone added) ≡ changed (current_of layouts) gone added }
    ensures begun { (layouts : List (ℕ × List ℕ)) (begun : ℕ) (gone added : List ℕ) →
        last_begun (with_change layouts begun gone added) ≡ begun }
    ensures back { (layouts : List (ℕ × List ℕ)) (begun : ℕ) (gone added : List ℕ) →
        without_last (with_change layouts begun gone added) ≡ layouts }
{}

/// Layouts of three changes.
pub fn worked_layouts()
    ensures first { layout_at ((5, 1 ∷ 2 ∷ []) ∷ (10, 1 ∷ 4 ∷ []) ∷ []) 4 ≡ None }
    ensures before { layout_at ((5, 1 ∷ 2 ∷ []) ∷ (10, 1 ∷ 4 ∷ []) ∷ []) 9 ≡ Some (1 ∷ 2 ∷ []) }
    ensures then { layout_at ((5, 1 ∷ 2 ∷ []) ∷ (10, 1 ∷ 4 ∷ []) ∷ []) 10 ≡ Some (1 ∷ 4 ∷ []) }
    ensures same_moment { layout_at ((5, 1 ∷ []) ∷ (5, 2 ∷ []) ∷ []) 5 ≡ Some (2 ∷ []) }
    ensures changed { changed (1 ∷ 2 ∷ 9 ∷ []) (2 ∷ []) (4 ∷ 12 ∷ []) ≡ 1 ∷ 4 ∷ 9 ∷ 12 ∷ [] }
    ensures pieces { pieces_of ((5, 1 ∷ 2 ∷ []) ∷ (10, 1 ∷ 4 ∷ []) ∷ [])
        ≡ (5, Piece.Full (1 ∷ 2 ∷ [])) ∷ (10, Piece.Change (2 ∷ []) (4 ∷ [])) ∷ [] }
{}

/// A table whose part a clone still has: first in the table's Time Travel, then kept for the clone, and once the table
/// is gone the clone's own. And a table alone, whose part is in Fail-safe, or pending where there is none.
pub fn worked_owners()
    ensures past { class_of (with_clone None 7) part_of_source ≡ Class.TimeTravel }
    ensures retained { class_of (with_clone None 691200009) part_of_source ≡ Class.RetainedForClone }
    ensures origin { owner_of (with_clone None 691200009) part_of_source ≡ 1 }
    ensures clones { class_of (with_clone (Some 691200010) 777600012) part_of_source ≡ Class.Active }
    ensures clone { owner_of (with_clone (Some 691200010) 777600012) part_of_source ≡ 2 }
    ensures safe { class_of (alone 0 false 6) part_of_source ≡ Class.FailSafe }
    ensures named { is_named (alone 0 false 6) 1 ≡ true }
    ensures pending { class_of (alone 0 true 6) part_of_source ≡ Class.Pending }
    ensures unnamed { is_named (alone 0 true 6) 1 ≡ false }
{}
