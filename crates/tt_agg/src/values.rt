//! Aggregates over the values of a column that are not NULL.

ghost use Rattle.std.specs.Prelude.{◌≡◌, ◌+ℤ◌, fold, IfOk};
ghost use Rattle.std.specs.Option.{option_copied};
ghost use Rattle.tt_value.specs.trees.Scope.{value_or_null};
ghost use Rattle.tt_sql.specs.meaning.Queries.{int_of, sum_of as sum_in, best_of, lesser, greater};
ghost use Rattle.tt_agg.specs.Lent.{lent};

use std::alloc::AllocError;
use tt_eval::in_range;
use tt_value::{Value, compare};

/// The sum of numbers, NULL of none. Only the whole has to have 64 bits; none where it has not.
pub fn sum_of(values: &[&Value]) -> Option<Value>
    ensures { result ≡ sum_in (lent values.now) }
{
    match values.split_first() {
        None => Some(Value::Null),
        Some((first, others)) => in_range(total(first, others)),
    }
}

fn total(first: &Value, others: &[&Value]) -> i128
    ensures { result ≡ fold (λ sum next. sum +ℤ int_of next) (int_of first.now) (lent others.now) }
{
    let mut sum = i128::from(number(first));
    for value in others {
        sum += i128::from(number(value));
    }
    sum
}

fn number(value: &Value) -> i64
    ensures { result ≡ int_of value.now }
{
    match value {
        Value::Int(number) => *number,
        _ => 0,
    }
}

/// The least value, none of none.
pub fn least<'a>(values: &[&'a Value]) -> Option<&'a Value>
    ensures { value_or_null (option_copied result) ≡ best_of lesser (lent values.now) }
{
    let Some((first, others)) = values.split_first() else {
        return None;
    };
    let mut best = *first;
    for value in others {
        if compare(value, best).is_lt() {
            best = *value;
        }
    }
    Some(best)
}

/// The greatest value, none of none.
pub fn greatest<'a>(values: &[&'a Value]) -> Option<&'a Value>
    ensures { value_or_null (option_copied result) ≡ best_of greater (lent values.now) }
{
    let Some((first, others)) = values.split_first() else {
        return None;
    };
    let mut best = *first;
    for value in others {
        if compare(value, best).is_gt() {
            best = *value;
        }
    }
    Some(best)
}

/// A copy of the value, NULL where there is none.
pub fn copy_or_null(found: Option<&Value>) -> Result<Value, AllocError>
    ensures { IfOk result (λ v. v ≡ value_or_null (option_copied found.entry)) }
{
    match found {
        None => Ok(Value::Null),
        Some(value) => value.clone(),
    }
}
