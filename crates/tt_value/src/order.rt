//! The order of values and of rows.

ghost use Rattle.std.specs.Prelude.{◌≡◌};
ghost use Rattle.std.specs.Cmp.{IsTotalOrder, partial_order_from_own_ties};
ghost use Rattle.std.specs.Ordering.{as_partial_cmp, eq_by_cmp};
ghost use Rattle.std.specs.Cmp.Rules.{comparing};
ghost use Rattle.std.proofs.Common.{rules};
ghost use Rattle.tt_value.specs.values.Order.{value_cmp, row_cmp, TiesAreSame, kind_rank as rank, number_of, bytes_of};
ghost use Rattle.tt_value.specs.values.TotalOrder.{value_total, row_total};

use crate::value::{Row, Value};
use std::cmp::Ordering;

/// The order of values: integers, dates, texts by their bytes, and NULL above all.
#[tactic(auto, unfolding(crate::specs::values::Order::value_cmp))]
pub fn compare(a: &Value, b: &Value) -> Ordering
    ensures { result ≡ value_cmp a.now b.now }
{
    let kinds = kind_rank(a).cmp(&kind_rank(b));
    let numbers = number(a).cmp(&number(b));
    kinds.then(numbers.then(bytes(a).cmp(&bytes(b))))
}

fn kind_rank(value: &Value) -> u8
    ensures { result ≡ rank value.now }
{
    match value {
        Value::Int(_) => 0,
        Value::Date(_) => 1,
        Value::Text(_) => 2,
        Value::Null => 3,
    }
}

fn number(value: &Value) -> i64
    ensures { result ≡ number_of value.now }
{
    match value {
        Value::Int(number) => *number,
        Value::Date(day) => i64::from(*day),
        _ => 0,
    }
}

fn bytes(value: &Value) -> &[u8]
    ensures { result.now ≡ bytes_of value.now }
{
    match value {
        Value::Text(text) => text.as_str().as_bytes(),
        _ => &[],
    }
}

/// The order of rows: value by value, and a row before what extends it.
#[tactic(auto, unfolding(crate::specs::values::Order::row_cmp))]
pub fn compare_rows(a: &Row, b: &Row) -> Ordering
    ensures { result ≡ row_cmp a.now b.now }
{
    a.values.items().cmp(&b.values.items())
}

impl PartialEq for Value {
    ghost eq = { eq_by_cmp value_cmp };

    ghost laws = { Prim.search (comparing, value_total, rules) };

    fn eq(&self, other: &Value) -> bool {
        compare(self, other).is_eq()
    }
}

impl Eq for Value {
    ghost laws = { Prim.search (comparing, value_total, rules) };
}

impl PartialOrd for Value {
    ghost partial_cmp = { as_partial_cmp value_cmp };

    ghost laws = { Prim.search (comparing, value_total, rules) };

    fn partial_cmp(&self, other: &Value) -> Option<Ordering> {
        Some(compare(self, other))
    }
}

impl Ord for Value {
    ghost cmp = { value_cmp };

    ghost total = { value_total };

    ghost matches_partial_cmp = { Prim.search (comparing, rules) };

    ghost matches_eq = { Prim.search (comparing, rules) };

    fn cmp(&self, other: &Value) -> Ordering {
        compare(self, other)
    }
}

impl PartialEq for Row {
    ghost eq = { eq_by_cmp row_cmp };

    ghost laws = { Prim.search (comparing, row_total, rules) };

    fn eq(&self, other: &Row) -> bool {
        compare_rows(self, other).is_eq()
    }
}

impl Eq for Row {
    ghost laws = { Prim.search (comparing, row_total, rules) };
}

impl PartialOrd for Row {
    ghost partial_cmp = { as_partial_cmp row_cmp };

    ghost laws = { Prim.search (comparing, row_total, rules) };

    fn partial_cmp(&self, other: &Row) -> Option<Ordering> {
        Some(compare_rows(self, other))
    }
}

impl Ord for Row {
    ghost cmp = { row_cmp };

    ghost total = { row_total };

    ghost matches_partial_cmp = { Prim.search (comparing, rules) };

    ghost matches_eq = { Prim.search (comparing, rules) };

    fn cmp(&self, other: &Row) -> Ordering {
        compare_rows(self, other)
    }
}

/// The order of values is total, and values that tie are one value.
pub fn values_are_ordered()
    ensures total { IsTotalOrder value_cmp }
    ensures ties { TiesAreSame value_cmp }
{}

/// The order of rows is total, and rows that tie are one row.
pub fn rows_are_ordered()
    ensures total { IsTotalOrder row_cmp }
    ensures ties { TiesAreSame row_cmp }
{}
