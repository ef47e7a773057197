//! Names that are no columns, and positions that are no items.

ghost use Rattle.std.specs.Prelude.{◌≡◌};
ghost use Rattle.std.specs.List.{list_any};
ghost use Rattle.tt_typer.specs.TableScopes.{scope_in};
ghost use Rattle.tt_sql.specs.meaning.Queries.{is_item_of as is_item_at};
ghost use Rattle.tt_plain.specs.Places.{each, if_there, leftmost};
ghost use Rattle.tt_plain.specs.UnknownColumns as spec;

use crate::columns::column_named;
use crate::places::{column_begin, earlier};
use crate::scope::{TableScope, column_in, columns_in, is_item_of};
use sqlite_items::Items;
use tt_sql::{Change, ColumnDefinition, CreatedTable, Item, Key, KeyColumn, Query, Selection, Set};
use tt_value::{
    ColumnName, Conjunction, Expr, Factor, Name, Operand, Predicate, Schema, Term, Unit,
};

fn unknown_name(scope: &TableScope<'_>, column: &ColumnName) -> Option<u32>
    ensures { result ≡ leftmost (spec.unknown_name (scope_in scope.now) column.now) }
{
    match column_in(scope, column) {
        None => Some(column_begin(column)),
        Some(_) => None,
    }
}

#[cycle(unknown_exprs)]
fn unknown_in_expr(scope: &TableScope<'_>, expr: &Expr) -> Option<u32>
    ensures { result ≡ leftmost (spec.unknown_in_expr (scope_in scope.now) expr.now) }
{
    let mut found = unknown_in_term(scope, &expr.first);
    for addend in expr.others.as_slice() {
        found = earlier(found, unknown_in_term(scope, &addend.term));
    }
    found
}

#[cycle(unknown_exprs)]
fn unknown_in_term(scope: &TableScope<'_>, term: &Term) -> Option<u32>
    ensures { result ≡ leftmost (spec.unknown_in_term (scope_in scope.now) term.now) }
{
    let mut found = unknown_in_factor(scope, &term.first);
    for factor in term.others.as_slice() {
        found = earlier(found, unknown_in_factor(scope, factor));
    }
    found
}

#[cycle(unknown_exprs)]
fn unknown_in_factor(scope: &TableScope<'_>, factor: &Factor) -> Option<u32>
    ensures { result ≡ leftmost (spec.unknown_in_factor (scope_in scope.now) factor.now) }
{
    match factor {
        Factor::Literal(_) => None,
        Factor::Column(column) => unknown_name(scope, column),
        Factor::Bracket(_, expr) => unknown_in_expr(scope, expr.get()),
        Factor::Negated(_, factor) => unknown_in_factor(scope, factor.get()),
    }
}

fn unknown_in_operand(scope: &TableScope<'_>, operand: &Operand) -> Option<u32>
    ensures { result ≡ leftmost (spec.unknown_in_operand (scope_in scope.now) operand.now) }
{
    match operand {
        Operand::Column(column) => unknown_name(scope, column),
        Operand::Literal(_) => None,
    }
}

#[cycle(unknown_predicates)]
fn unknown_in_predicate(scope: &TableScope<'_>, predicate: &Predicate) -> Option<u32>
    ensures { result ≡ leftmost (spec.unknown_in_predicate (scope_in scope.now) predicate.now) }
{
    let mut found = unknown_in_conjunction(scope, &predicate.first);
    for conjunction in predicate.others.as_slice() {
        found = earlier(found, unknown_in_conjunction(scope, conjunction));
    }
    found
}

#[cycle(unknown_predicates)]
fn unknown_in_conjunction(scope: &TableScope<'_>, conjunction: &Conjunction) -> Option<u32>
    ensures { result
        ≡ leftmost (spec.unknown_in_conjunction (scope_in scope.now) conjunction.now) }
{
    let mut found = unknown_in_unit(scope, &conjunction.first);
    for unit in conjunction.others.as_slice() {
        found = earlier(found, unknown_in_unit(scope, unit));
    }
    found
}

#[cycle(unknown_predicates)]
fn unknown_in_unit(scope: &TableScope<'_>, unit: &Unit) -> Option<u32>
    ensures { result ≡ leftmost (spec.unknown_in_unit (scope_in scope.now) unit.now) }
{
    match unit {
        Unit::Not(unit) => unknown_in_unit(scope, unit.get()),
        Unit::Bracket(predicate) => unknown_in_predicate(scope, predicate.get()),
        Unit::Compare(left, _, right) => earlier(
            unknown_in_operand(scope, left),
            unknown_in_operand(scope, right),
        ),
        Unit::IsNull(operand, _) => unknown_in_operand(scope, operand),
        Unit::In(operand, _, _) => unknown_in_operand(scope, operand),
        Unit::Between(operand, _, _, _) => unknown_in_operand(scope, operand),
        Unit::StartsWith(column, _) => unknown_name(scope, column),
    }
}

/// The leftmost name in a WHERE that is no column; none where there is no WHERE.
pub fn unknown_in_filter(scope: &TableScope<'_>, filter: &Option<Predicate>) -> Option<u32>
    ensures { result
        ≡ leftmost (if_there (spec.unknown_in_predicate (scope_in scope.now)) filter.now) }
{
    match filter {
        None => None,
        Some(predicate) => unknown_in_predicate(scope, predicate),
    }
}

fn unknown_in_item(scope: &TableScope<'_>, item: &Item) -> Option<u32>
    ensures { result ≡ leftmost (spec.unknown_in_item (scope_in scope.now) item.now) }
{
    match item {
        Item::Expr(expr) => unknown_in_expr(scope, expr),
        Item::CountAll(_) => None,
        Item::Count(_, column) => unknown_name(scope, column),
        Item::Sum(_, column) => unknown_name(scope, column),
        Item::Min(_, column) => unknown_name(scope, column),
        Item::Max(_, column) => unknown_name(scope, column),
    }
}

fn unknown_in_selection(scope: &TableScope<'_>, selection: &Selection) -> Option<u32>
    ensures { result ≡ leftmost (spec.unknown_in_selection (scope_in scope.now) selection.now) }
{
    match selection {
        Selection::All(_) => None,
        Selection::Listed(items) => unknown_in_items(scope, items.as_slice()),
    }
}

fn unknown_in_items(scope: &TableScope<'_>, items: &[Item]) -> Option<u32>
    ensures { result ≡ leftmost (each (spec.unknown_in_item (scope_in scope.now)) items.now) }
{
    let mut found = None;
    for item in items {
        found = earlier(found, unknown_in_item(scope, item));
    }
    found
}

fn unknown_in_names(scope: &TableScope<'_>, names: &[ColumnName]) -> Option<u32>
    ensures { result ≡ leftmost (each (spec.unknown_name (scope_in scope.now)) names.now) }
{
    let mut found = None;
    for name in names {
        found = earlier(found, unknown_name(scope, name));
    }
    found
}

fn is_item(scope: &TableScope<'_>, column: &ColumnName, items: &[Item]) -> bool
    ensures { result
        ≡ list_any (is_item_at (scope_in scope.now) column.now) items.now }
{
    items.iter().any(|item| is_item_of(scope, column, item))
}

fn stands_as_item(scope: &TableScope<'_>, selection: &Selection, column: &ColumnName) -> bool
    ensures { result
        ≡ spec.stands_as_item (scope_in scope.now) selection.now column.now }
{
    match selection {
        Selection::All(_) => column_in(scope, column).is_some(),
        Selection::Listed(items) => is_item(scope, column, items.as_slice()),
    }
}

/// How many values a row of the answer has. A star stands for all columns.
pub fn item_count(scope: &TableScope<'_>, selection: &Selection) -> usize
    ensures { result ≡ spec.item_count (scope_in scope.now) selection.now }
{
    match selection {
        Selection::All(_) => columns_in(scope).len(),
        Selection::Listed(items) => items.len(),
    }
}

fn unknown_in_key(scope: &TableScope<'_>, selection: &Selection, key: &Key) -> Option<u32>
    ensures { result
        ≡ leftmost (spec.unknown_in_key (scope_in scope.now) selection.now key.now) }
{
    match &key.by {
        KeyColumn::Column(column) => {
            if stands_as_item(scope, selection, column) {
                None
            } else {
                Some(column_begin(column))
            }
        }
        KeyColumn::Position(number) => {
            if 1 <= number.value && number.value <= item_count(scope, selection) as u64 {
                None
            } else {
                Some(number.place)
            }
        }
    }
}

fn unknown_in_keys(scope: &TableScope<'_>, selection: &Selection, keys: &[Key]) -> Option<u32>
    ensures { result
        ≡ leftmost (each (spec.unknown_in_key (scope_in scope.now) selection.now) keys.now) }
{
    let mut found = None;
    for key in keys {
        found = earlier(found, unknown_in_key(scope, selection, key));
    }
    found
}

/// The leftmost name that is no column, or key of ORDER BY that is no item.
#[tactic(auto, using(crate::proofs::Leftmost::leftmost_append), unfolding(tt_plain::specs::UnknownColumns::unknown_in_query))]
pub fn unknown_in_query(scope: &TableScope<'_>, query: &Query) -> Option<u32>
    ensures { result ≡ leftmost (spec.unknown_in_query (scope_in scope.now) query.now) }
{
    let items = unknown_in_selection(scope, &query.selection);
    let filter = unknown_in_filter(scope, &query.filter);
    let group = unknown_in_names(scope, query.group.as_slice());
    let order = unknown_in_keys(scope, &query.selection, query.order.as_slice());
    earlier(items, earlier(filter, earlier(group, order)))
}

fn unknown_among(schema: &Schema, name: &Name) -> Option<u32>
    ensures { result ≡ leftmost (spec.unknown_among schema.now name.now) }
{
    match column_named(schema, name) {
        None => Some(name.place),
        Some(_) => None,
    }
}

/// The leftmost name in the column list of an INSERT that is no column; none where there is no list.
pub fn unknown_in_list(schema: &Schema, names: &Option<Items<Name>>) -> Option<u32>
    ensures { result ≡ leftmost (if_there (each (spec.unknown_among schema.now)) names.now) }
{
    match names {
        None => None,
        Some(names) => unknown_listed(schema, names.as_slice()),
    }
}

fn unknown_listed(schema: &Schema, names: &[Name]) -> Option<u32>
    ensures { result ≡ leftmost (each (spec.unknown_among schema.now) names.now) }
{
    let mut found = None;
    for name in names {
        found = earlier(found, unknown_among(schema, name));
    }
    found
}

fn unknown_in_set(scope: &TableScope<'_>, set: &Set) -> Option<u32>
    ensures { result
        ≡ leftmost (spec.unknown_in_set scope.now.table.now scope.now.schema.now set.now) }
{
    earlier(
        unknown_among(scope.schema, &set.column),
        unknown_in_expr(scope, &set.value),
    )
}

/// The leftmost name that is no column: one that is set, or one in a new value.
pub fn unknown_in_sets(scope: &TableScope<'_>, sets: &[Set]) -> Option<u32>
    ensures { result
        ≡ leftmost (each (spec.unknown_in_set scope.now.table.now scope.now.schema.now) sets.now) }
{
    let mut found = None;
    for set in sets {
        found = earlier(found, unknown_in_set(scope, set));
    }
    found
}

/// A clustering key that is none of the columns that are defined.
pub fn unknown_in_create(create: &CreatedTable) -> Option<u32>
    ensures { result ≡ leftmost (spec.unknown_in_create create.now) }
{
    match &create.options.cluster_by {
        None => None,
        Some(name) => {
            if is_defined(create.columns.as_slice(), name) {
                None
            } else {
                Some(name.place)
            }
        }
    }
}

fn is_defined(columns: &[ColumnDefinition], name: &Name) -> bool
    ensures { result ≡ spec.is_defined columns.now name.now }
{
    columns.iter().any(|column| column.name.text == name.text)
}

/// The name in CLUSTER BY, if it is no column. No other change names one.
pub fn unknown_in_change(schema: &Schema, change: &Change) -> Option<u32>
    ensures { result ≡ leftmost (spec.unknown_in_change schema.now change.now) }
{
    match change {
        Change::ClusterBy(name) => unknown_among(schema, name),
        _ => None,
    }
}
