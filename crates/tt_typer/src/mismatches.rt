//! Kinds that do not fit, and items that are neither aggregates nor group columns.

ghost use Rattle.std.specs.Prelude.{◌≡◌, ◌++◌, [], if◌then◌else◌};
ghost use Rattle.tt_typer.specs.TableScopes.{scope_in};
ghost use Rattle.tt_value.specs.trees.Predicates.{operand_kind as kind_of_operand};
ghost use Rattle.tt_plain.specs.Places.{each, if_there, leftmost};
ghost use Rattle.std.specs.List.{list_any};
ghost use Rattle.tt_sql.specs.meaning.Queries.{is_aggregate as is_aggregate_of, has_aggregate as has_aggregate_of};
ghost use Rattle.tt_plain.specs.TypeMismatches as spec;

use crate::kinds::{fits, is_date, kind_of, misfit_literal, unless};
use crate::parts::part_of;
use crate::places::{column_begin, earlier};
use crate::scope::{TableScope, column_kind, is_item_of};
use tt_sql::{Item, Query, Selection};
use tt_value::{ColumnName, Conjunction, Kind, Literal, Operand, Predicate, Unit, Value};

fn operand_kind(scope: &TableScope<'_>, operand: &Operand) -> Option<Kind>
    ensures { result ≡ kind_of_operand (scope_in scope.now) operand.now }
{
    match operand {
        Operand::Column(column) => column_kind(scope, column),
        Operand::Literal(literal) => kind_of(&literal.value),
    }
}

fn is_quoted(operand: &Operand) -> bool
    ensures { result ≡ spec.is_quoted operand.now }
{
    match operand {
        Operand::Column(_) => false,
        Operand::Literal(literal) => matches!(literal.value, Value::Text(_)),
    }
}

fn misfit_operand(scope: &TableScope<'_>, other: Option<Kind>, operand: &Operand) -> Option<u32>
    ensures { result
        ≡ leftmost (spec.misfit_operand (scope_in scope.now) other operand.now) }
{
    match operand {
        Operand::Column(column) => unless(
            fits(other, column_kind(scope, column)),
            column_begin(column),
        ),
        Operand::Literal(literal) => misfit_literal(other, literal),
    }
}

/// A text in quotes beside a DATE is at fault itself; else it is the right side.
fn misfit_comparison(scope: &TableScope<'_>, left: &Operand, right: &Operand) -> Option<u32>
    ensures { result
        ≡ leftmost (spec.misfit_comparison (scope_in scope.now) left.now right.now) }
{
    let left_kind = operand_kind(scope, left);
    let right_kind = operand_kind(scope, right);
    if is_quoted(left) && is_date(right_kind) {
        misfit_operand(scope, right_kind, left)
    } else {
        misfit_operand(scope, left_kind, right)
    }
}

/// The same with a literal on the right.
fn misfit_beside(scope: &TableScope<'_>, left: &Operand, right: &Literal) -> Option<u32>
    ensures { result ≡ leftmost (spec.misfit_beside (scope_in scope.now) left.now right.now) }
{
    let left_kind = operand_kind(scope, left);
    let right_kind = kind_of(&right.value);
    if is_quoted(left) && is_date(right_kind) {
        misfit_operand(scope, right_kind, left)
    } else {
        misfit_literal(left_kind, right)
    }
}

fn misfit_in_list(scope: &TableScope<'_>, left: &Operand, literals: &[Literal]) -> Option<u32>
    ensures { result ≡ leftmost (each (spec.misfit_beside (scope_in scope.now) left.now) literals.now) }
{
    let mut found = None;
    for literal in literals {
        found = earlier(found, misfit_beside(scope, left, literal));
    }
    found
}

#[cycle(misfit_predicates)]
fn misfit_in_predicate(scope: &TableScope<'_>, predicate: &Predicate) -> Option<u32>
    ensures { result ≡ leftmost (spec.misfit_in_predicate (scope_in scope.now) predicate.now) }
{
    let mut found = misfit_in_conjunction(scope, &predicate.first);
    for conjunction in predicate.others.as_slice() {
        found = earlier(found, misfit_in_conjunction(scope, conjunction));
    }
    found
}

#[cycle(misfit_predicates)]
fn misfit_in_conjunction(scope: &TableScope<'_>, conjunction: &Conjunction) -> Option<u32>
    ensures { result
        ≡ leftmost (spec.misfit_in_conjunction (scope_in scope.now) conjunction.now) }
{
    let mut found = misfit_in_unit(scope, &conjunction.first);
    for unit in conjunction.others.as_slice() {
        found = earlier(found, misfit_in_unit(scope, unit));
    }
    found
}

#[cycle(misfit_predicates)]
fn misfit_in_unit(scope: &TableScope<'_>, unit: &Unit) -> Option<u32>
    ensures { result ≡ leftmost (spec.misfit_in_unit (scope_in scope.now) unit.now) }
{
    match unit {
        Unit::Not(unit) => misfit_in_unit(scope, unit.get()),
        Unit::Bracket(predicate) => misfit_in_predicate(scope, predicate.get()),
        Unit::Compare(left, _, right) => misfit_comparison(scope, left, right),
        Unit::IsNull(_, _) => None,
        Unit::In(operand, _, literals) => misfit_in_list(scope, operand, literals.as_slice()),
        Unit::Between(operand, _, least, greatest) => earlier(
            misfit_beside(scope, operand, least),
            misfit_beside(scope, operand, greatest),
        ),
        Unit::StartsWith(column, _) => unless(
            fits(Some(Kind::Varchar), column_kind(scope, column)),
            column_begin(column),
        ),
    }
}

/// The leftmost place in a WHERE where kinds do not fit; none where there is no WHERE.
pub fn misfit_in_filter(scope: &TableScope<'_>, filter: &Option<Predicate>) -> Option<u32>
    ensures { result
        ≡ leftmost (if_there (spec.misfit_in_predicate (scope_in scope.now)) filter.now) }
{
    match filter {
        None => None,
        Some(predicate) => misfit_in_predicate(scope, predicate),
    }
}

fn misfit_in_item(scope: &TableScope<'_>, item: &Item) -> Option<u32>
    ensures { result ≡ leftmost (spec.misfit_in_item (scope_in scope.now) item.now) }
{
    match item {
        Item::Expr(expr) => part_of(scope, expr).misfit,
        Item::Sum(_, column) => unless(
            fits(Some(Kind::Int), column_kind(scope, column)),
            column_begin(column),
        ),
        _ => None,
    }
}

fn misfit_in_selection(scope: &TableScope<'_>, selection: &Selection) -> Option<u32>
    ensures { result ≡ leftmost (spec.misfit_in_selection (scope_in scope.now) selection.now) }
{
    match selection {
        Selection::All(_) => None,
        Selection::Listed(items) => misfit_in_items(scope, items.as_slice()),
    }
}

fn misfit_in_items(scope: &TableScope<'_>, items: &[Item]) -> Option<u32>
    ensures { result ≡ leftmost (each (spec.misfit_in_item (scope_in scope.now)) items.now) }
{
    let mut found = None;
    for item in items {
        found = earlier(found, misfit_in_item(scope, item));
    }
    found
}

fn is_group_item(scope: &TableScope<'_>, group: &[ColumnName], item: &Item) -> bool
    ensures { result ≡ spec.is_group_item (scope_in scope.now) group.now item.now }
{
    group.iter().any(|column| is_item_of(scope, column, item))
}

fn ungrouped_item(scope: &TableScope<'_>, group: &[ColumnName], item: &Item) -> Option<u32>
    ensures { result
        ≡ leftmost (spec.ungrouped_item (scope_in scope.now) group.now item.now) }
{
    match item {
        Item::Expr(expr) => unless(
            is_group_item(scope, group, item),
            part_of(scope, expr).place,
        ),
        _ => None,
    }
}

fn ungrouped_selection(
    scope: &TableScope<'_>,
    group: &[ColumnName],
    selection: &Selection,
) -> Option<u32>
    ensures { result
        ≡ leftmost (spec.ungrouped_selection (scope_in scope.now) group.now selection.now) }
{
    match selection {
        Selection::All(place) => Some(*place),
        Selection::Listed(items) => ungrouped_items(scope, group, items.as_slice()),
    }
}

fn ungrouped_items(scope: &TableScope<'_>, group: &[ColumnName], items: &[Item]) -> Option<u32>
    ensures { result
        ≡ leftmost (each (spec.ungrouped_item (scope_in scope.now) group.now) items.now) }
{
    let mut found = None;
    for item in items {
        found = earlier(found, ungrouped_item(scope, group, item));
    }
    found
}

fn is_aggregate(item: &Item) -> bool
    ensures { result ≡ is_aggregate_of item.now }
{
    !matches!(item, Item::Expr(_))
}

fn has_aggregate(selection: &Selection) -> bool
    ensures { result ≡ has_aggregate_of selection.now }
{
    match selection {
        Selection::All(_) => false,
        Selection::Listed(items) => is_any_aggregate(items.as_slice()),
    }
}

fn is_any_aggregate(items: &[Item]) -> bool
    ensures { result ≡ list_any is_aggregate_of items.now }
{
    items.iter().any(|item| is_aggregate(item))
}

fn is_grouped(selection: &Selection, group: &[ColumnName]) -> bool
    ensures { result ≡ spec.is_grouped selection.now group.now }
{
    !group.is_empty() || has_aggregate(selection)
}

fn ungrouped_in_query(scope: &TableScope<'_>, query: &Query) -> Option<u32>
    ensures { result ≡ leftmost (spec.ungrouped_in_query (scope_in scope.now) query.now) }
{
    let group = query.group.as_slice();
    if is_grouped(&query.selection, group) {
        ungrouped_selection(scope, group, &query.selection)
    } else {
        None
    }
}

/// The leftmost place where kinds do not fit in the items or in WHERE, or of an item that is neither an aggregate
/// nor a group column, in a query that has aggregates or groups.
#[tactic(auto, using(crate::proofs::Leftmost::leftmost_append), unfolding(tt_plain::specs::TypeMismatches::misfit_in_query))]
pub fn misfit_in_query(scope: &TableScope<'_>, query: &Query) -> Option<u32>
    ensures { result ≡ leftmost (spec.misfit_in_query (scope_in scope.now) query.now) }
{
    let ungrouped = ungrouped_in_query(scope, query);
    let items = misfit_in_selection(scope, &query.selection);
    let filter = misfit_in_filter(scope, &query.filter);
    earlier(ungrouped, earlier(items, filter))
}
