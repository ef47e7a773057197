//! Kinds of values that go into columns.

ghost use Rattle.std.specs.Prelude.{◌≡◌, ◌++◌, [], if◌then◌else◌};
ghost use Rattle.std.specs.Option.{option_copied};
ghost use Rattle.tt_typer.specs.TableScopes.{scope_in};
ghost use Rattle.tt_plain.specs.Places.{each, each_at, if_there, leftmost};
ghost use Rattle.tt_plain.specs.TypeMismatches as spec;

use crate::alone::lone_literal;
use crate::columns::{column_named, target_column};
use crate::kinds::{fits, literal_fits, misfit_literal, unless};
use crate::parts::part_of;
use crate::places::earlier;
use crate::scope::{TableScope, column_kind, columns_in};
use sqlite_items::Items;
use tt_sql::{Item, Selection, Set, Tuple};
use tt_value::{Column, Expr, Kind, Literal, Name, Schema};

fn kind_in(column: Option<&Column>) -> Option<Kind>
    ensures { result ≡ spec.kind_in (option_copied column.entry) }
{
    match column {
        None => None,
        Some(column) => Some(column.kind),
    }
}

/// The kind of the column into which a value goes that stands at this place.
fn target_kind(schema: &Schema, names: &Option<Items<Name>>, at: usize) -> Option<Kind>
    ensures { result ≡ spec.target_kind schema.now names.now at }
{
    kind_in(target_column(schema, names, at))
}

fn misfit_in_values(schema: &Schema, names: &Option<Items<Name>>, values: &[Literal]) -> Option<u32>
    ensures { result ≡ leftmost (each_at (spec.misfit_value schema.now names.now) 0 values.now) }
{
    let mut found = None;
    for (at, literal) in values.iter().enumerate() {
        found = earlier(
            found,
            misfit_literal(target_kind(schema, names, at), literal),
        );
    }
    found
}

/// The leftmost value that does not fit the kind of the column into which it goes.
pub fn misfit_in_tuples(
    schema: &Schema,
    names: &Option<Items<Name>>,
    tuples: &[Tuple],
) -> Option<u32>
    ensures { result ≡ leftmost (each (spec.misfit_in_tuple schema.now names.now) tuples.now) }
{
    let mut found = None;
    for tuple in tuples {
        found = earlier(
            found,
            misfit_in_values(schema, names, tuple.values.as_slice()),
        );
    }
    found
}

fn expr_fits(scope: &TableScope<'_>, wanted: Option<Kind>, expr: &Expr) -> bool
    ensures { result ≡ spec.expr_fits (scope_in scope.now) wanted expr.now }
{
    match lone_literal(expr) {
        Some(literal) => literal_fits(wanted, &literal.value),
        None => fits(wanted, part_of(scope, expr).kind),
    }
}

fn item_fits(scope: &TableScope<'_>, wanted: Option<Kind>, item: &Item) -> bool
    ensures { result ≡ spec.item_fits (scope_in scope.now) wanted item.now }
{
    match item {
        Item::Expr(expr) => expr_fits(scope, wanted, expr),
        Item::CountAll(_) => fits(wanted, Some(Kind::Int)),
        Item::Count(_, _) => fits(wanted, Some(Kind::Int)),
        Item::Sum(_, _) => fits(wanted, Some(Kind::Int)),
        Item::Min(_, column) => fits(wanted, column_kind(scope, column)),
        Item::Max(_, column) => fits(wanted, column_kind(scope, column)),
    }
}

fn item_begin(scope: &TableScope<'_>, item: &Item) -> u32
    ensures { result ≡ spec.item_begin (scope_in scope.now) item.now }
{
    match item {
        Item::Expr(expr) => part_of(scope, expr).place,
        Item::CountAll(place) => *place,
        Item::Count(place, _) => *place,
        Item::Sum(place, _) => *place,
        Item::Min(place, _) => *place,
        Item::Max(place, _) => *place,
    }
}

fn misfit_items(
    target: &Schema,
    names: &Option<Items<Name>>,
    read: &TableScope<'_>,
    items: &[Item],
) -> Option<u32>
    ensures { result ≡ leftmost (each_at (spec.misfit_item target.now names.now (scope_in read.now)) 0 items.now) }
{
    let mut found = None;
    for (at, item) in items.iter().enumerate() {
        let wanted = target_kind(target, names, at);
        found = earlier(
            found,
            unless(item_fits(read, wanted, item), item_begin(read, item)),
        );
    }
    found
}

fn misfit_star(
    target: &Schema,
    names: &Option<Items<Name>>,
    columns: &[Column],
    place: u32,
) -> Option<u32>
    ensures { result ≡ leftmost (each_at (spec.misfit_column target.now names.now place) 0 columns.now) }
{
    let mut found = None;
    for (at, column) in columns.iter().enumerate() {
        let wanted = target_kind(target, names, at);
        found = earlier(found, unless(fits(wanted, Some(column.kind)), place));
    }
    found
}

/// The items of a query that do not fit the columns into which they go.
pub fn misfit_into(
    target: &Schema,
    names: &Option<Items<Name>>,
    read: &TableScope<'_>,
    selection: &Selection,
) -> Option<u32>
    ensures { result ≡ leftmost (spec.misfit_into target.now names.now (scope_in read.now) selection.now) }
{
    match selection {
        Selection::All(place) => misfit_star(target, names, columns_in(read), *place),
        Selection::Listed(items) => misfit_items(target, names, read, items.as_slice()),
    }
}

#[tactic(auto, using(crate::proofs::Leftmost::leftmost_append), unfolding(crate::specs::TableScopes::scope_in))]
fn misfit_in_set(scope: &TableScope<'_>, set: &Set) -> Option<u32>
    ensures { result
        ≡ leftmost (spec.misfit_in_set scope.now.table.now scope.now.schema.now set.now) }
{
    let wanted = kind_in(column_named(scope.schema, &set.column));
    let part = part_of(scope, &set.value);
    earlier(
        unless(expr_fits(scope, wanted, &set.value), part.place),
        part.misfit,
    )
}

/// The leftmost place where a new value does not fit its column, or where kinds do not fit within it.
pub fn misfit_in_sets(scope: &TableScope<'_>, sets: &[Set]) -> Option<u32>
    ensures { result
        ≡ leftmost (each (spec.misfit_in_set scope.now.table.now scope.now.schema.now) sets.now) }
{
    let mut found = None;
    for set in sets {
        found = earlier(found, misfit_in_set(scope, set));
    }
    found
}
