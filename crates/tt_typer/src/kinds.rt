//! When kinds fit.

ghost use Rattle.std.specs.Prelude.{◌≡◌, is_some};
ghost use Rattle.tt_value.specs.trees.Scope as scope;
ghost use Rattle.tt_value.specs.calendar.Reading.{day_of};
ghost use Rattle.tt_plain.specs.Places.{leftmost};
ghost use Rattle.tt_plain.specs.Kinds as spec;

use tt_time::read_date;
use tt_value::{Kind, Literal, Text, Value};

fn is_same_kind(a: Kind, b: Kind) -> bool
    ensures { result ≡ spec.is_same_kind a b }
{
    match (a, b) {
        (Kind::Int, Kind::Int) => true,
        (Kind::Date, Kind::Date) => true,
        (Kind::Varchar, Kind::Varchar) => true,
        _ => false,
    }
}

/// What has no kind fits every kind.
pub fn fits(a: Option<Kind>, b: Option<Kind>) -> bool
    ensures { result ≡ spec.fits a b }
{
    match (a, b) {
        (Some(a), Some(b)) => is_same_kind(a, b),
        _ => true,
    }
}

/// NULL has none.
pub fn kind_of(value: &Value) -> Option<Kind>
    ensures { result ≡ scope.kind_of value.now }
{
    match value {
        Value::Null => None,
        Value::Int(_) => Some(Kind::Int),
        Value::Date(_) => Some(Kind::Date),
        Value::Text(_) => Some(Kind::Varchar),
    }
}

fn is_date_text(text: &Text) -> bool
    ensures { result ≡ is_some (day_of text.now) }
{
    match read_date(text.as_str()) {
        Ok(_) => true,
        Err(_) => false,
    }
}

/// Whether a written value fits what stands on the other side. Beside a DATE a text in quotes is read as
/// a date.
pub fn literal_fits(other: Option<Kind>, value: &Value) -> bool
    ensures { result ≡ spec.literal_fits other value.now }
{
    match (other, value) {
        (Some(Kind::Date), Value::Text(text)) => is_date_text(text),
        _ => fits(other, kind_of(value)),
    }
}

/// The place, if something is wrong there.
pub fn unless(is_fine: bool, place: u32) -> Option<u32>
    ensures { result ≡ leftmost (spec.unless is_fine place) }
{
    if is_fine { None } else { Some(place) }
}

/// The place of a literal that does not fit what stands on the other side.
pub fn misfit_literal(other: Option<Kind>, literal: &Literal) -> Option<u32>
    ensures { result ≡ leftmost (spec.misfit_literal other literal.now) }
{
    unless(literal_fits(other, &literal.value), literal.place)
}

/// Whether it is DATE. What has no kind is not.
pub fn is_date(kind: Option<Kind>) -> bool
    ensures { result ≡ spec.is_date_kind kind }
{
    matches!(kind, Some(Kind::Date))
}
