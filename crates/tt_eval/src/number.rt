//! Arithmetic with numbers of 64 bits and NULL. None is out of range, and stays so.

ghost use Rattle.std.specs.Prelude.{◌≡◌, ◌+ℤ◌, ◌-ℤ◌, ◌*ℤ◌, option_and_then};
ghost use Rattle.tt_value.specs.trees.Expressions.{then_both, add_signed, on_numbers, negated as negative, in_range as number_of};

use tt_value::{Sign, Value};

/// The number, if it has 64 bits.
pub fn in_range(number: i128) -> Option<Value>
    ensures { result ≡ number_of number }
{
    if i128::from(i64::MIN) <= number && number <= i128::from(i64::MAX) {
        Some(Value::Int(number as i64))
    } else {
        None
    }
}

/// A sum or a difference, as the sign says. With NULL it is NULL.
pub fn signed_sum(sign: Sign, a: &Option<Value>, b: &Option<Value>) -> Option<Value>
    ensures { result ≡ then_both (add_signed sign) a.now b.now }
{
    let (Some(a), Some(b)) = (a, b) else {
        return None;
    };
    sum_of_two(sign, a, b)
}

fn sum_of_two(sign: Sign, a: &Value, b: &Value) -> Option<Value>
    ensures { result ≡ add_signed sign a.now b.now }
{
    match sign {
        Sign::Plus => added(a, b),
        Sign::Minus => taken_away(a, b),
    }
}

fn added(a: &Value, b: &Value) -> Option<Value>
    ensures { result ≡ on_numbers (λ x y. x +ℤ y) a.now b.now }
{
    let (Value::Int(a), Value::Int(b)) = (a, b) else {
        return Some(Value::Null);
    };
    match a.checked_add(*b) {
        None => None,
        Some(sum) => Some(Value::Int(sum)),
    }
}

fn taken_away(a: &Value, b: &Value) -> Option<Value>
    ensures { result ≡ on_numbers (λ x y. x -ℤ y) a.now b.now }
{
    let (Value::Int(a), Value::Int(b)) = (a, b) else {
        return Some(Value::Null);
    };
    match a.checked_sub(*b) {
        None => None,
        Some(difference) => Some(Value::Int(difference)),
    }
}

/// A product. With NULL it is NULL.
pub fn product(a: &Option<Value>, b: &Option<Value>) -> Option<Value>
    ensures { result ≡ then_both (on_numbers (λ x y. x *ℤ y)) a.now b.now }
{
    let (Some(a), Some(b)) = (a, b) else {
        return None;
    };
    product_of_two(a, b)
}

fn product_of_two(a: &Value, b: &Value) -> Option<Value>
    ensures { result ≡ on_numbers (λ x y. x *ℤ y) a.now b.now }
{
    let (Value::Int(a), Value::Int(b)) = (a, b) else {
        return Some(Value::Null);
    };
    match a.checked_mul(*b) {
        None => None,
        Some(product) => Some(Value::Int(product)),
    }
}

/// A number with its sign turned. Of NULL it is NULL.
pub fn negated(value: &Option<Value>) -> Option<Value>
    ensures { result ≡ option_and_then negative value.now }
{
    match value {
        None => None,
        Some(value) => negative_of(value),
    }
}

fn negative_of(value: &Value) -> Option<Value>
    ensures { result ≡ negative value.now }
{
    match value {
        Value::Int(number) => in_range(-i128::from(*number)),
        _ => Some(Value::Null),
    }
}
