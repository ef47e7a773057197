//! The truth values of one condition, by what its operands may be.

ghost use Rattle.std.specs.Prelude.{◌≡◌};
ghost use Rattle.tt_zone.specs.Possible as spec;
ghost use Rattle.tt_zone.specs.Sides.{span_of, sides_compared};

use crate::sides::{Side, Span, read_beside, side_kind, span_of_side};
use crate::truth_set::TruthSet;
use tt_value::{Comparison, Text, Value, compare};

#[inline(always)]
fn is_below(a: &Value, b: &Value) -> bool
    ensures { result ≡ spec.is_below a.now b.now }
{
    compare(a, b).is_lt()
}

#[inline(always)]
fn is_at_most(a: &Value, b: &Value) -> bool
    ensures { result ≡ spec.is_at_most a.now b.now }
{
    compare(a, b).is_le()
}

#[inline(always)]
fn is_same(a: &Value, b: &Value) -> bool
    ensures { result ≡ spec.is_same a.now b.now }
{
    compare(a, b).is_eq()
}

/// True and false are left out where an operand has no values.
#[inline(always)]
fn without_values(unknown: bool) -> TruthSet
    ensures { result ≡ spec.truths_in None unknown }
{
    TruthSet {
        has_true: false,
        has_false: false,
        has_unknown: unknown,
    }
}

#[inline(always)]
fn equal(left: &Span<'_>, right: &Span<'_>) -> TruthSet
    ensures { result ≡ spec.ranges_in spec.equal_in (span_of left.now) (span_of right.now) }
{
    let unknown = left.has_null || right.has_null;
    let Some(a) = left.range else {
        return without_values(unknown);
    };
    let Some(b) = right.range else {
        return without_values(unknown);
    };
    TruthSet {
        has_true: is_at_most(a.least, b.greatest) && is_at_most(b.least, a.greatest),
        has_false: !(is_same(a.least, a.greatest)
            && is_same(a.greatest, b.least)
            && is_same(b.least, b.greatest)),
        has_unknown: unknown,
    }
}

#[inline(always)]
fn less(left: &Span<'_>, right: &Span<'_>) -> TruthSet
    ensures { result ≡ spec.ranges_in spec.less_in (span_of left.now) (span_of right.now) }
{
    let unknown = left.has_null || right.has_null;
    let Some(a) = left.range else {
        return without_values(unknown);
    };
    let Some(b) = right.range else {
        return without_values(unknown);
    };
    TruthSet {
        has_true: is_below(a.least, b.greatest),
        has_false: is_at_most(b.least, a.greatest),
        has_unknown: unknown,
    }
}

#[inline(always)]
fn at_most(left: &Span<'_>, right: &Span<'_>) -> TruthSet
    ensures { result ≡ spec.ranges_in spec.at_most_in (span_of left.now) (span_of right.now) }
{
    let unknown = left.has_null || right.has_null;
    let Some(a) = left.range else {
        return without_values(unknown);
    };
    let Some(b) = right.range else {
        return without_values(unknown);
    };
    TruthSet {
        has_true: is_at_most(a.least, b.greatest),
        has_false: is_below(b.least, a.greatest),
        has_unknown: unknown,
    }
}

#[inline(always)]
fn compared(sign: Comparison, left: &Span<'_>, right: &Span<'_>) -> TruthSet
    ensures { result ≡ spec.compared_in sign (span_of left.now) (span_of right.now) }
{
    match sign {
        Comparison::Equal => equal(left, right),
        Comparison::NotEqual => equal(left, right).negated(),
        Comparison::Less => less(left, right),
        Comparison::LessOrEqual => at_most(left, right),
        Comparison::Greater => less(right, left),
        Comparison::GreaterOrEqual => at_most(right, left),
    }
}

/// The truth values of a comparison. Each side is read beside the kind of the other.
#[inline(always)]
pub fn comparison(left: &Side<'_>, sign: Comparison, right: &Side<'_>) -> TruthSet
    ensures { result ≡ sides_compared left.now sign right.now }
{
    let left_read = read_beside(side_kind(right), left);
    let right_read = read_beside(side_kind(left), right);
    let left_span = span_of_side(left, &left_read);
    let right_span = span_of_side(right, &right_read);
    compared(sign, &left_span, &right_span)
}

/// The truth values of IS NULL.
#[inline(always)]
pub fn null(span: &Span<'_>) -> TruthSet
    ensures { result ≡ spec.null_in (span_of span.now) }
{
    TruthSet {
        has_true: span.has_null,
        has_false: span.range.is_some(),
        has_unknown: false,
    }
}

fn is_text(value: &Value) -> bool
    ensures { result ≡ spec.is_text value.now }
{
    matches!(value, Value::Text(_))
}

fn is_text_with(front: &[u8], value: &Value) -> bool
    ensures { result ≡ spec.is_text_with front.now value.now }
{
    match value {
        Value::Text(text) => text.as_str().as_bytes().starts_with(front),
        _ => false,
    }
}

/// Whether a text is at most a value. NULL stands above it, and numbers and dates below.
#[tactic(auto, unfolding(tt_value::specs::values::Order::value_cmp))]
fn is_text_at_most(front: &[u8], value: &Value) -> bool
    ensures { result ≡ spec.is_at_most (spec.text_of front.now) value.now }
{
    match value {
        Value::Text(text) => front.cmp(&text.as_str().as_bytes()).is_le(),
        Value::Null => true,
        _ => false,
    }
}

/// Whether a value is at most a text.
#[tactic(auto, unfolding(tt_value::specs::values::Order::value_cmp))]
fn is_at_most_text(value: &Value, front: &[u8]) -> bool
    ensures { result ≡ spec.is_at_most value.now (spec.text_of front.now) }
{
    match value {
        Value::Text(text) => text.as_str().as_bytes().cmp(&front).is_le(),
        Value::Null => false,
        _ => true,
    }
}

/// The truth values of STARTSWITH.
pub fn begins(span: &Span<'_>, front: &Text) -> TruthSet
    ensures { result ≡ spec.begins_in front.now (span_of span.now) }
{
    let front = front.as_str().as_bytes();
    let Some(range) = span.range else {
        return without_values(span.has_null);
    };
    let least_begins = is_text_with(front, range.least);
    TruthSet {
        has_true: is_text_at_most(front, range.greatest)
            && (is_at_most_text(range.least, front) || least_begins),
        has_false: !(least_begins && is_text_with(front, range.greatest)),
        has_unknown: span.has_null || !is_text(range.least),
    }
}
