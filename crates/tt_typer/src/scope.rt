//! What the names of columns mean in a statement over one table.

ghost use Rattle.std.specs.Prelude.{◌≡◌, length};
ghost use Rattle.std.specs.Option.{option_copied};
ghost use Rattle.tt_value.specs.trees.Scope as spec;
ghost use Rattle.tt_sql.specs.meaning.Queries.{plain_column as column_alone, is_item_of as is_item, same_place as is_same_place};
ghost use Rattle.tt_sql.specs.meaning.Scopes.{names_table as is_for};
ghost use Rattle.tt_typer.specs.TableScopes.{scope_in};

use crate::columns::{column_named, column_place};
use tt_sql::Item;
use tt_value::{Column, ColumnName, Expr, Factor, Kind, Name, Schema, TableName};

/// A table that is named, and its schema.
#[derive(Drop)]
pub struct TableScope<'a> {
    pub table: &'a TableName,
    pub schema: &'a Schema,
}

fn names_table(front: &Option<Name>, table: &TableName) -> bool
    ensures { result ≡ is_for front.now table.now }
{
    match front {
        None => true,
        Some(front) => front.text == table.name.text,
    }
}

/// The place among the table's columns of the column that a name means.
pub fn place_of(scope: &TableScope<'_>, column: &ColumnName) -> Option<usize>
    ensures { result ≡ (scope_in scope.now).place_of column.now }
{
    if names_table(&column.table, scope.table) {
        column_place(scope.schema, &column.name)
    } else {
        None
    }
}

/// The column that a name means. None where another table's name stands in front, or no column has the name.
pub fn column_in<'a>(scope: &TableScope<'a>, column: &ColumnName) -> Option<&'a Column>
    ensures { option_copied result ≡ spec.column_in (scope_in scope.now) column.now }
{
    match place_of(scope, column) {
        None => None,
        Some(place) => scope.schema.columns.get(place),
    }
}

/// The kind of the column that a name means, if it means one.
pub fn column_kind(scope: &TableScope<'_>, column: &ColumnName) -> Option<Kind>
    ensures { result ≡ spec.column_kind (scope_in scope.now) column.now }
{
    match column_in(scope, column) {
        None => None,
        Some(found) => Some(found.kind),
    }
}

/// The columns of the rows that are read.
pub fn columns_in<'a>(scope: &TableScope<'a>) -> &'a [Column]
    ensures { result.now ≡ (scope_in scope.now).columns }
{
    scope.schema.columns.items()
}

/// The column that an expression is, where it is a name alone.
fn plain_column(expr: &Expr) -> Option<&ColumnName>
    ensures { option_copied result ≡ column_alone expr.now }
{
    if !expr.others.is_empty() || !expr.first.others.is_empty() {
        return None;
    }
    match &expr.first.first {
        Factor::Column(column) => Some(column),
        _ => None,
    }
}

/// Whether an item is this column alone.
pub fn is_item_of(scope: &TableScope<'_>, column: &ColumnName, item: &Item) -> bool
    ensures { result ≡ is_item (scope_in scope.now) column.now item.now }
{
    match item {
        Item::Expr(expr) => match plain_column(expr) {
            None => false,
            Some(plain) => same_place(place_of(scope, column), place_of(scope, plain)),
        },
        _ => false,
    }
}

fn same_place(a: Option<usize>, b: Option<usize>) -> bool
    ensures { result ≡ is_same_place a b }
{
    match (a, b) {
        (Some(a), Some(b)) => a == b,
        _ => false,
    }
}
