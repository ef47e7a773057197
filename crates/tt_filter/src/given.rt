//! Values that are lent: those of a column, and those that are written.

ghost use Rattle.std.specs.Prelude.{◌≡◌};
ghost use Rattle.tt_value.specs.calendar.Reading.{day_of};
ghost use Rattle.tt_value.specs.trees.Predicates as spec;
ghost use Rattle.tt_value.specs.trees.Scope.{beside as value_beside, date_or_null as value_or_date, kind_of as kind_of_value};
ghost use Rattle.tt_value.specs.trees.Truths as truths;
ghost use Rattle.tt_value.specs.values.Order.{value_cmp, kind_rank as rank, number_of, bytes_of};
ghost use Rattle.tt_filter.specs.Givens.{given_in};

use std::cmp::Ordering;
use tt_time::read_date;
use tt_value::{Comparison, Kind, Text, Truth, Value};

/// A value, of which a text is lent. A date is a day number, day 0 being 1970-01-01.
#[derive(Clone, Copy)]
pub enum Given<'a> {
    Null,
    Int(i64),
    Date(i64),
    Text(&'a [u8]),
}

fn lent(value: &Value) -> Given<'_>
    ensures { given_in result ≡ value.now }
{
    match value {
        Value::Null => Given::Null,
        Value::Int(number) => Given::Int(*number),
        Value::Date(day) => Given::Date(i64::from(*day)),
        Value::Text(text) => Given::Text(text.as_str().as_bytes()),
    }
}

fn date_or_null(text: &Text) -> Given<'_>
    ensures { given_in result ≡ value_or_date (day_of text.now) }
{
    match read_date(text.as_str()) {
        Ok(day) => Given::Date(i64::from(day)),
        Err(_) => Given::Null,
    }
}

/// A written value beside one of a kind: beside a DATE a text in quotes is read as a date.
pub fn beside(kind: Option<Kind>, value: &Value) -> Given<'_>
    ensures { given_in result ≡ value_beside kind value.now }
{
    match (kind, value) {
        (Some(Kind::Date), Value::Text(text)) => date_or_null(text),
        (_, value) => lent(value),
    }
}

/// The kind of a written value; NULL is of none.
pub fn kind_of(value: &Value) -> Option<Kind>
    ensures { result ≡ kind_of_value value.now }
{
    match value {
        Value::Null => None,
        Value::Int(_) => Some(Kind::Int),
        Value::Date(_) => Some(Kind::Date),
        Value::Text(_) => Some(Kind::Varchar),
    }
}

fn is_null(value: Given<'_>) -> bool
    ensures { result ≡ spec.is_null (given_in value.entry) }
{
    match value {
        Given::Null => true,
        Given::Int(_) | Given::Date(_) | Given::Text(_) => false,
    }
}

fn truth_of_bool(test: bool) -> Truth
    ensures { result ≡ truths.truth_of_bool test }
{
    if test { Truth::True } else { Truth::False }
}

/// Whether the value is NULL.
pub fn null(value: Given<'_>) -> Truth
    ensures { result ≡ truths.truth_of_bool (spec.is_null (given_in value.entry)) }
{
    truth_of_bool(is_null(value))
}

fn kind_rank(value: Given<'_>) -> u8
    ensures { result ≡ rank (given_in value.entry) }
{
    match value {
        Given::Int(_) => 0,
        Given::Date(_) => 1,
        Given::Text(_) => 2,
        Given::Null => 3,
    }
}

fn number(value: Given<'_>) -> i64
    ensures { result ≡ number_of (given_in value.entry) }
{
    match value {
        Given::Int(number) | Given::Date(number) => number,
        Given::Text(_) | Given::Null => 0,
    }
}

fn bytes(value: Given<'_>) -> &[u8]
    ensures { result.now ≡ bytes_of (given_in value.entry) }
{
    match value {
        Given::Text(text) => text,
        Given::Int(_) | Given::Date(_) | Given::Null => &[],
    }
}

#[tactic(auto, unfolding(tt_value::specs::values::Order::value_cmp))]
fn compare(a: Given<'_>, b: Given<'_>) -> Ordering
    ensures { result ≡ value_cmp (given_in a.entry) (given_in b.entry) }
{
    let kinds = kind_rank(a).cmp(&kind_rank(b));
    let numbers = number(a).cmp(&number(b));
    kinds.then(numbers.then(bytes(a).cmp(&bytes(b))))
}

fn holds(sign: Comparison, order: Ordering) -> bool
    ensures { result ≡ spec.holds sign order }
{
    match sign {
        Comparison::Equal => order.is_eq(),
        Comparison::NotEqual => order.is_ne(),
        Comparison::Less => order.is_lt(),
        Comparison::LessOrEqual => order.is_le(),
        Comparison::Greater => order.is_gt(),
        Comparison::GreaterOrEqual => order.is_ge(),
    }
}

/// What a sign says of two values. Of NULL nothing is known.
pub fn compared(sign: Comparison, a: Given<'_>, b: Given<'_>) -> Truth
    ensures { result ≡ spec.compared sign (given_in a.entry) (given_in b.entry) }
{
    if is_null(a) || is_null(b) {
        Truth::Unknown
    } else {
        truth_of_bool(holds(sign, compare(a, b)))
    }
}

/// Whether a text begins with these bytes. Of what is no text nothing is known.
pub fn begins(value: Given<'_>, front: &[u8]) -> Truth
    ensures { result ≡ spec.begins (given_in value.entry) front.now }
{
    match value {
        Given::Text(text) => truth_of_bool(text.starts_with(front)),
        Given::Null | Given::Int(_) | Given::Date(_) => Truth::Unknown,
    }
}
