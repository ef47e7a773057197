//! What the refusals of points are for a statement with one clause. It computes nothing.
ghost use Rattle.std.specs.Prelude.{◌≡◌, [], ◌∷◌};
ghost use Rattle.tt_plain.specs.asked.Asked.{Asked};
ghost use Rattle.tt_plain.specs.opening.Point.{Point, points_asked};
ghost use Rattle.tt_travel.specs.Travel.{judged, refusal_in, point_refusal};

/// Of a statement with one clause the refusals of points are the one that `point` gives, or none.
pub fn one_clause_is_judged()
    ensures { (asked : Asked) (p : Point) → points_asked asked ≡ p ∷ []
        → point_refusal asked ≡ refusal_in (judged asked.moment p) }
{}
