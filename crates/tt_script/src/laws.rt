//! Laws of scripts. They compute nothing.

ghost use Rattle.std.specs.Prelude.{◌≡◌, ℕ, List};
ghost use Rattle.std.specs.List.{slice_split};
ghost use Rattle.tt_script.specs.Body.{is_cut, spans_from, statements_in};
ghost use Rattle.tt_script.specs.Pieces.{Piece, ArePieces, IsMadeUp, spelled, kinds_of};
ghost use Rattle.tt_script.specs.Makeup.{SayKinds};

/// Each body is made up of pieces: white space, comments, texts in quotes, semicolons and other bytes. However it is
/// made up of them, they say of each byte what it is, and so where the statements stand.
pub fn a_body_has_one_cut()
    ensures made_up { (body : List ℕ) → IsMadeUp body }
    ensures kinds { (pieces : List Piece) → ArePieces pieces → SayKinds pieces }
    ensures statements { (at : ℕ) (pieces : List Piece) → ArePieces pieces
        → statements_in at (spelled pieces) ≡ spans_from at (slice_split is_cut (kinds_of pieces)) }
{}
