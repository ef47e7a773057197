//! Where an expression begins, its kind, and the leftmost place where kinds do not fit in it.

ghost use Rattle.std.specs.Prelude.{◌≡◌};
ghost use Rattle.tt_typer.specs.TableScopes.{scope_in};
ghost use Rattle.tt_plain.specs.Expressions as spec;
ghost use Rattle.tt_typer.specs.FoundParts.{as_found, calculated_found};

use crate::kinds::{fits, kind_of, unless};
use crate::places::{column_begin, earlier};
use crate::scope::{TableScope, column_kind};
use tt_value::{Expr, Factor, Kind, Term};

/// What is known of an expression or of a part of it.
#[derive(Clone, Copy)]
pub struct Part {
    pub place: u32,
    /// None for NULL, and for a name that is no column.
    pub kind: Option<Kind>,
    /// The leftmost place in it where kinds do not fit.
    pub misfit: Option<u32>,
}

/// What does not fit in a part with which is calculated, the part itself included.
fn calculated(part: Part) -> Option<u32>
    ensures { result ≡ calculated_found part }
{
    earlier(
        unless(fits(Some(Kind::Int), part.kind), part.place),
        part.misfit,
    )
}

/// A sum, a product and what has a minus in front are INT, and no part of them may have another kind.
#[cycle(parts)]
pub fn part_of(scope: &TableScope<'_>, expr: &Expr) -> Part
    ensures { result ≡ as_found (spec.part_of (scope_in scope.now) expr.now) }
{
    let first = part_of_term(scope, &expr.first);
    if expr.others.is_empty() {
        return first;
    }
    let mut misfit = calculated(first);
    for addend in expr.others.as_slice() {
        misfit = earlier(misfit, calculated(part_of_term(scope, &addend.term)));
    }
    Part {
        place: first.place,
        kind: Some(Kind::Int),
        misfit,
    }
}

#[cycle(parts)]
fn part_of_term(scope: &TableScope<'_>, term: &Term) -> Part
    ensures { result ≡ as_found (spec.part_of_term (scope_in scope.now) term.now) }
{
    let first = part_of_factor(scope, &term.first);
    if term.others.is_empty() {
        return first;
    }
    let mut misfit = calculated(first);
    for factor in term.others.as_slice() {
        misfit = earlier(misfit, calculated(part_of_factor(scope, factor)));
    }
    Part {
        place: first.place,
        kind: Some(Kind::Int),
        misfit,
    }
}

#[cycle(parts)]
fn part_of_factor(scope: &TableScope<'_>, factor: &Factor) -> Part
    ensures { result ≡ as_found (spec.part_of_factor (scope_in scope.now) factor.now) }
{
    match factor {
        Factor::Literal(literal) => Part {
            place: literal.place,
            kind: kind_of(&literal.value),
            misfit: None,
        },
        Factor::Column(column) => Part {
            place: column_begin(column),
            kind: column_kind(scope, column),
            misfit: None,
        },
        Factor::Bracket(place, expr) => {
            let inside = part_of(scope, expr.get());
            Part {
                place: *place,
                kind: inside.kind,
                misfit: inside.misfit,
            }
        }
        Factor::Negated(place, factor) => Part {
            place: *place,
            kind: Some(Kind::Int),
            misfit: calculated(part_of_factor(scope, factor.get())),
        },
    }
}
