//! The value of an expression, from its parts.

ghost use Rattle.std.specs.Prelude.{◌≡◌, IfOk, Some};
ghost use Rattle.tt_value.specs.trees.Scope.{column_value as value_in};
ghost use Rattle.tt_value.specs.trees.Expressions.{value_of};
ghost use Rattle.tt_scope.specs.Places.{IsCounted, scope_in};
ghost use Rattle.tt_eval.specs.Parts.{term_value_of, factor_value_of};

use crate::number::{negated, product, signed_sum};
use std::alloc::AllocError;
use tt_scope::{Tables, place_in};
use tt_value::{ColumnName, Expr, Factor, Row, Term, Value};

/// The value of an expression on a row of these tables. None where a number leaves 64 bits, also on the
/// way. A name that means no column is as NULL. Memory is taken for a copy of a text.
#[cycle(values)]
pub fn evaluate(tables: &Tables<'_>, row: &Row, expr: &Expr) -> Result<Option<Value>, AllocError>
    requires { IsCounted (scope_in tables.now) }
    ensures { IfOk result (λ v. v ≡ value_of (scope_in tables.now) row.now expr.now) }
{
    let mut sum = term_value(tables, row, &expr.first)?;
    for addend in expr.others.as_slice() {
        let next = term_value(tables, row, &addend.term)?;
        sum = signed_sum(addend.sign, &sum, &next);
    }
    Ok(sum)
}

#[cycle(values)]
fn term_value(tables: &Tables<'_>, row: &Row, term: &Term) -> Result<Option<Value>, AllocError>
    requires { IsCounted (scope_in tables.now) }
    ensures { IfOk result (λ v. v ≡ term_value_of (scope_in tables.now) row.now term.now) }
{
    let mut so_far = factor_value(tables, row, &term.first)?;
    for factor in term.others.as_slice() {
        let next = factor_value(tables, row, factor)?;
        so_far = product(&so_far, &next);
    }
    Ok(so_far)
}

#[cycle(values)]
fn factor_value(
    tables: &Tables<'_>,
    row: &Row,
    factor: &Factor,
) -> Result<Option<Value>, AllocError>
    requires { IsCounted (scope_in tables.now) }
    ensures { IfOk result (λ v. v ≡ factor_value_of (scope_in tables.now) row.now factor.now) }
{
    match factor {
        Factor::Literal(literal) => Ok(Some(copy_of(&literal.value)?)),
        Factor::Column(column) => Ok(Some(column_value(tables, row, column)?)),
        Factor::Bracket(_, expr) => evaluate(tables, row, expr.get()),
        Factor::Negated(_, factor) => Ok(negated(&factor_value(tables, row, factor.get())?)),
    }
}

fn column_value(tables: &Tables<'_>, row: &Row, column: &ColumnName) -> Result<Value, AllocError>
    requires { IsCounted (scope_in tables.now) }
    ensures { IfOk result (λ v. v ≡ value_in (scope_in tables.now) row.now column.now) }
{
    let found = match place_in(tables, column) {
        None => None,
        Some(place) => row.values.get(place),
    };
    match found {
        None => Ok(Value::Null),
        Some(value) => copy_of(value),
    }
}

fn copy_of(value: &Value) -> Result<Value, AllocError>
    ensures { IfOk result (λ copy. copy ≡ value.now) }
{
    value.clone()
}
