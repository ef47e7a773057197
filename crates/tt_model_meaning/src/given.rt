//! Values that are lent or calculated, and their order.

ghost use Rattle.std.specs.Prelude.{◌≡◌, IfOk};
ghost use Rattle.tt_value.specs.calendar.Reading.{day_of};
ghost use Rattle.tt_value.specs.trees.Predicates.{is_null as is_null_value};
ghost use Rattle.tt_value.specs.trees.Scope.{kind_of as kind_of_value, beside as value_beside, date_or_null as date_or_null_value};
ghost use Rattle.tt_value.specs.values.Order.{value_cmp, kind_rank as rank, number_of, bytes_of};
ghost use Rattle.tt_model_meaning.specs.Givens.{given_in};

use std::alloc::AllocError;
use std::cmp::Ordering;
use tt_time::read_date;
use tt_value::{Kind, Text, Value};

/// A value, of which a text is lent.
#[derive(Clone, Copy)]
pub enum Given<'a> {
    Null,
    Int(i64),
    Date(i32),
    Text(&'a Text),
}

/// The value, lent.
pub fn lent(value: &Value) -> Given<'_>
    ensures { given_in result ≡ value.now }
{
    match value {
        Value::Null => Given::Null,
        Value::Int(number) => Given::Int(*number),
        Value::Date(day) => Given::Date(*day),
        Value::Text(text) => Given::Text(text),
    }
}

/// The value, with a text of its own.
pub fn owned(value: Given<'_>) -> Result<Value, AllocError>
    ensures { IfOk result (λ made. made ≡ given_in value.entry) }
{
    match value {
        Given::Null => Ok(Value::Null),
        Given::Int(number) => Ok(Value::Int(number)),
        Given::Date(day) => Ok(Value::Date(day)),
        Given::Text(text) => Ok(Value::Text(text.clone()?)),
    }
}

/// Whether the value is NULL.
pub fn is_null(value: Given<'_>) -> bool
    ensures { result ≡ is_null_value (given_in value.entry) }
{
    match value {
        Given::Null => true,
        Given::Int(_) | Given::Date(_) | Given::Text(_) => false,
    }
}

/// The kind of the value; NULL is of none.
pub fn kind_of(value: Given<'_>) -> Option<Kind>
    ensures { result ≡ kind_of_value (given_in value.entry) }
{
    match value {
        Given::Null => None,
        Given::Int(_) => Some(Kind::Int),
        Given::Date(_) => Some(Kind::Date),
        Given::Text(_) => Some(Kind::Varchar),
    }
}

fn date_or_null(text: &Text) -> Given<'_>
    ensures { given_in result ≡ date_or_null_value (day_of text.now) }
{
    match read_date(text.as_str()) {
        Ok(day) => Given::Date(day),
        Err(_) => Given::Null,
    }
}

/// A written value beside one of a kind: beside a DATE a text is read as a date.
pub fn beside(kind: Option<Kind>, value: Given<'_>) -> Given<'_>
    ensures { given_in result ≡ value_beside kind (given_in value.entry) }
{
    match (kind, value) {
        (Some(Kind::Date), Given::Text(text)) => date_or_null(text),
        (_, value) => value,
    }
}

fn kind_rank(value: Given<'_>) -> u8
    ensures { result ≡ rank (given_in value.entry) }
{
    match value {
        Given::Int(_) => 0,
        Given::Date(_) => 1,
        Given::Text(_) => 2,
        Given::Null => 3,
    }
}

fn number(value: Given<'_>) -> i64
    ensures { result ≡ number_of (given_in value.entry) }
{
    match value {
        Given::Int(number) => number,
        Given::Date(day) => i64::from(day),
        Given::Text(_) | Given::Null => 0,
    }
}

fn bytes(value: Given<'_>) -> &[u8]
    ensures { result.now ≡ bytes_of (given_in value.entry) }
{
    match value {
        Given::Text(text) => text.as_str().as_bytes(),
        Given::Int(_) | Given::Date(_) | Given::Null => &[],
    }
}

/// The order of values: integers, dates, texts by their bytes, and NULL above all.
#[tactic(auto, unfolding(tt_value::specs::values::Order::value_cmp))]
pub fn compare(a: Given<'_>, b: Given<'_>) -> Ordering
    ensures { result ≡ value_cmp (given_in a.entry) (given_in b.entry) }
{
    let kinds = kind_rank(a).cmp(&kind_rank(b));
    let numbers = number(a).cmp(&number(b));
    kinds.then(numbers.then(bytes(a).cmp(bytes(b))))
}
