//! What an expression is where it is one value alone.

ghost use Rattle.std.specs.Prelude.{◌≡◌};
ghost use Rattle.std.specs.Option.{option_copied};
ghost use Rattle.tt_plain.specs.Expressions as spec;

use tt_value::{Expr, Factor, Literal};

/// The value that an expression is, where it is written alone and without brackets.
pub fn lone_literal(expr: &Expr) -> Option<&Literal>
    ensures { option_copied result ≡ spec.lone_literal expr.now }
{
    if !expr.others.is_empty() || !expr.first.others.is_empty() {
        return None;
    }
    match &expr.first.first {
        Factor::Literal(literal) => Some(literal),
        _ => None,
    }
}
