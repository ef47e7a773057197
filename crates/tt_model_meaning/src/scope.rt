//! What the names of columns mean in a statement over one table.

ghost use Rattle.std.specs.Prelude.{◌≡◌, bytes_eq};
ghost use Rattle.std.specs.Option.{option_copied};
ghost use Rattle.tt_value.specs.trees.Scope as spec;
ghost use Rattle.tt_sql.specs.meaning.Queries.{value_at as value_in};
ghost use Rattle.tt_sql.specs.meaning.Scopes.{names_table as is_for};
ghost use Rattle.tt_model_meaning.specs.Givens.{given_in};
ghost use Rattle.tt_model_meaning.specs.Scopes.{scope_in};

use crate::given::{Given, lent};
use tt_value::{Column, ColumnName, Kind, Name, Row, Schema, TableName, Text};

/// A table that is named, and its schema.
#[derive(Clone, Copy)]
pub struct TableScope<'a> {
    pub table: &'a TableName,
    pub schema: &'a Schema,
}

/// Whether two texts are one.
pub fn is_same(a: &Text, b: &Text) -> bool
    ensures { result ≡ bytes_eq a.now b.now }
{
    a.as_str() == b.as_str()
}

fn names_table(front: &Option<Name>, table: &TableName) -> bool
    ensures { result ≡ is_for front.now table.now }
{
    match front {
        None => true,
        Some(front) => is_same(&front.text, &table.name.text),
    }
}

/// The place among the columns, from 0, of the one of this name.
pub fn column_place(schema: &Schema, name: &Text) -> Option<usize>
    ensures { result ≡ spec.column_place schema.now name.now }
{
    schema
        .columns
        .items()
        .iter()
        .position(|column| is_same(&column.name, name))
}

/// The place among the table's columns of the column that a name means.
#[tactic(auto, using(tt_typer::proofs::OneTable::place_in_one), unfolding(crate::specs::Scopes::scope_in))]
pub fn place_of(scope: &TableScope<'_>, column: &ColumnName) -> Option<usize>
    ensures { result ≡ (scope_in scope.now).place_of column.now }
{
    if names_table(&column.table, scope.table) {
        column_place(scope.schema, &column.name.text)
    } else {
        None
    }
}

/// The columns of the rows that are read.
#[tactic(auto, using(crate::proofs::OneTable::columns_in_one), unfolding(crate::specs::Scopes::scope_in))]
pub fn columns_in<'a>(scope: &TableScope<'a>) -> &'a [Column]
    ensures { result.now ≡ (scope_in scope.now).columns }
{
    scope.schema.columns.items()
}

/// The kind of the column that a name means, if it means one.
pub fn column_kind(scope: &TableScope<'_>, column: &ColumnName) -> Option<Kind>
    ensures { result ≡ spec.column_kind (scope_in scope.now) column.now }
{
    let place = place_of(scope, column)?;
    let column = columns_in(scope).get(place)?;
    Some(column.kind)
}

fn value_at(row: &Row, place: Option<usize>) -> Given<'_>
    ensures { given_in result ≡ value_in place row.now }
{
    let Some(place) = place else {
        return Given::Null;
    };
    match row.values.get(place) {
        Some(value) => lent(value),
        None => Given::Null,
    }
}

/// A row's value in the column that a name means; NULL where it means none.
pub fn column_value<'a>(scope: &TableScope<'_>, row: &'a Row, column: &ColumnName) -> Given<'a>
    ensures { given_in result ≡ spec.column_value (scope_in scope.now) row.now column.now }
{
    value_at(row, place_of(scope, column))
}
