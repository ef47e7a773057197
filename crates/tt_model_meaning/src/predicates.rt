//! Whether a row meets a predicate.

ghost use Rattle.std.specs.Prelude.{◌≡◌, map, fold, drop};
ghost use Rattle.tt_value.specs.trees.Truths as truths;
ghost use Rattle.tt_value.specs.trees.Predicates as spec;
ghost use Rattle.tt_model_meaning.specs.Givens.{given_in};
ghost use Rattle.tt_model_meaning.specs.Scopes.{scope_in};
ghost use Rattle.tt_model_meaning.specs.Values.{conjunction_truth, unit_truth_of};

use crate::given::{Given, beside, compare, is_null, kind_of, lent};
use crate::scope::{TableScope, column_kind, column_value};
use std::cmp::Ordering;
use tt_value::{
    Comparison, Conjunction, Kind, Literal, Operand, Predicate, Row, Text, Truth, Unit,
};

fn truth_of_bool(test: bool) -> Truth
    ensures { result ≡ truths.truth_of_bool test }
{
    if test { Truth::True } else { Truth::False }
}

fn not(truth: Truth) -> Truth
    ensures { result ≡ truths.not_truth truth }
{
    match truth {
        Truth::True => Truth::False,
        Truth::False => Truth::True,
        Truth::Unknown => Truth::Unknown,
    }
}

fn not_if(negated: bool, truth: Truth) -> Truth
    ensures { result ≡ truths.not_if negated truth }
{
    if negated { not(truth) } else { truth }
}

fn both(a: Truth, b: Truth) -> Truth
    ensures { result ≡ truths.and_truth a b }
{
    match (a, b) {
        (Truth::False, _) | (Truth::Unknown, Truth::False) => Truth::False,
        (Truth::True, b) => b,
        (Truth::Unknown, Truth::True | Truth::Unknown) => Truth::Unknown,
    }
}

fn either(a: Truth, b: Truth) -> Truth
    ensures { result ≡ truths.or_truth a b }
{
    match (a, b) {
        (Truth::True, _) | (Truth::Unknown, Truth::True) => Truth::True,
        (Truth::False, b) => b,
        (Truth::Unknown, Truth::False | Truth::Unknown) => Truth::Unknown,
    }
}

fn holds(comparison: Comparison, order: Ordering) -> bool
    ensures { result ≡ spec.holds comparison order }
{
    match comparison {
        Comparison::Equal => order.is_eq(),
        Comparison::NotEqual => order.is_ne(),
        Comparison::Less => order.is_lt(),
        Comparison::LessOrEqual => order.is_le(),
        Comparison::Greater => order.is_gt(),
        Comparison::GreaterOrEqual => order.is_ge(),
    }
}

fn compared(comparison: Comparison, a: Given<'_>, b: Given<'_>) -> Truth
    ensures { result ≡ spec.compared comparison (given_in a.entry) (given_in b.entry) }
{
    if is_null(a) || is_null(b) {
        Truth::Unknown
    } else {
        truth_of_bool(holds(comparison, compare(a, b)))
    }
}

fn begins(value: Given<'_>, front: &Text) -> Truth
    ensures { result ≡ spec.begins (given_in value.entry) front.now }
{
    match value {
        Given::Text(text) => {
            let bytes = text.as_str().as_bytes();
            truth_of_bool(bytes.starts_with(front.as_str().as_bytes()))
        }
        Given::Null | Given::Int(_) | Given::Date(_) => Truth::Unknown,
    }
}

fn operand_kind(scope: &TableScope<'_>, operand: &Operand) -> Option<Kind>
    ensures { result ≡ spec.operand_kind (scope_in scope.now) operand.now }
{
    match operand {
        Operand::Column(column) => column_kind(scope, column),
        Operand::Literal(literal) => kind_of(lent(&literal.value)),
    }
}

fn operand_value<'a>(
    scope: &TableScope<'_>,
    row: &'a Row,
    other: Option<Kind>,
    operand: &'a Operand,
) -> Given<'a>
    ensures { given_in result ≡ spec.operand_value (scope_in scope.now) row.now other operand.now }
{
    match operand {
        Operand::Column(column) => column_value(scope, row, column),
        Operand::Literal(literal) => beside(other, lent(&literal.value)),
    }
}

fn comparison_truth(
    scope: &TableScope<'_>,
    row: &Row,
    left: &Operand,
    comparison: Comparison,
    right: &Operand,
) -> Truth
    ensures { result ≡ spec.comparison_truth (scope_in scope.now) row.now left.now comparison
        right.now }
{
    let left_value = operand_value(scope, row, operand_kind(scope, right), left);
    let right_value = operand_value(scope, row, operand_kind(scope, left), right);
    compared(comparison, left_value, right_value)
}

// A comparison with a written value.
fn literal_truth(
    scope: &TableScope<'_>,
    row: &Row,
    operand: &Operand,
    comparison: Comparison,
    literal: &Literal,
) -> Truth
    ensures { result ≡ spec.comparison_truth (scope_in scope.now) row.now operand.now comparison
        (Operand.Literal literal.now) }
{
    let value = lent(&literal.value);
    let left = operand_value(scope, row, kind_of(value), operand);
    let right = beside(operand_kind(scope, operand), value);
    compared(comparison, left, right)
}

fn in_truth(scope: &TableScope<'_>, row: &Row, operand: &Operand, literals: &[Literal]) -> Truth
    ensures { result ≡ spec.in_truth (scope_in scope.now) row.now operand.now literals.now }
{
    let mut truth = Truth::False;
    for literal in literals {
        let same = literal_truth(scope, row, operand, Comparison::Equal, literal);
        truth = either(truth, same);
    }
    truth
}

fn between_truth(
    scope: &TableScope<'_>,
    row: &Row,
    operand: &Operand,
    least: &Literal,
    greatest: &Literal,
) -> Truth
    ensures { result ≡ spec.between_truth (scope_in scope.now) row.now operand.now least.now
        greatest.now }
{
    let above = literal_truth(scope, row, operand, Comparison::GreaterOrEqual, least);
    let below = literal_truth(scope, row, operand, Comparison::LessOrEqual, greatest);
    both(above, below)
}

/// What a predicate says of a row.
#[cycle(truths)]
pub fn truth_of(scope: &TableScope<'_>, row: &Row, predicate: &Predicate) -> Truth
    ensures { result ≡ spec.truth_of (scope_in scope.now) row.now predicate.now }
{
    let mut truth = truth_of_conjunction(scope, row, &predicate.first);
    for conjunction in predicate.others.as_slice() {
        truth = either(truth, truth_of_conjunction(scope, row, conjunction));
    }
    truth
}

#[cycle(truths)]
fn truth_of_conjunction(scope: &TableScope<'_>, row: &Row, conjunction: &Conjunction) -> Truth
    ensures { result ≡ conjunction_truth (scope_in scope.now) row.now conjunction.now }
{
    let mut truth = truth_of_unit(scope, row, &conjunction.first);
    for unit in conjunction.others.as_slice() {
        truth = both(truth, truth_of_unit(scope, row, unit));
    }
    truth
}

#[cycle(truths)]
fn truth_of_unit(scope: &TableScope<'_>, row: &Row, unit: &Unit) -> Truth
    ensures { result ≡ unit_truth_of (scope_in scope.now) row.now unit.now }
{
    match unit {
        Unit::Not(unit) => not(truth_of_unit(scope, row, unit.get())),
        Unit::Bracket(predicate) => truth_of(scope, row, predicate.get()),
        Unit::Compare(left, comparison, right) => {
            comparison_truth(scope, row, left, *comparison, right)
        }
        Unit::IsNull(operand, negated) => {
            let value = operand_value(scope, row, None, operand);
            not_if(*negated, truth_of_bool(is_null(value)))
        }
        Unit::In(operand, negated, literals) => {
            not_if(*negated, in_truth(scope, row, operand, literals.as_slice()))
        }
        Unit::Between(operand, negated, least, greatest) => {
            not_if(
                *negated,
                between_truth(scope, row, operand, least, greatest),
            )
        }
        Unit::StartsWith(column, front) => { begins(column_value(scope, row, column), &front.text) }
    }
}

fn is_true(truth: Truth) -> bool
    ensures { result ≡ truths.is_true truth }
{
    match truth {
        Truth::True => true,
        Truth::False | Truth::Unknown => false,
    }
}

/// Whether a row is taken: where the predicate is true, and each row where there is none.
pub fn takes(scope: &TableScope<'_>, filter: &Option<Predicate>, row: &Row) -> bool
    ensures { result ≡ spec.takes (scope_in scope.now) filter.now row.now }
{
    match filter {
        None => true,
        Some(predicate) => is_true(truth_of(scope, row, predicate)),
    }
}
