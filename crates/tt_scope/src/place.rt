//! What a column's name means among the tables of a query.

ghost use Rattle.std.specs.Prelude.{◌≡◌, ◌+◌, ◌^◌, ◌<◌, ◌++◌, length, IfSome, IsTrue, ◌↔◌};
ghost use Rattle.std.specs.Option.{option_to_list};
ghost use Rattle.tt_value.specs.trees.Scope.{column_place as place_named};
ghost use Rattle.tt_sql.specs.meaning.Scopes.{names_table as is_for, places_among, only_place, query_scope};
ghost use Rattle.tt_scope.specs.Places.{HasPlaces, IsCounted, scope_in, place_in_table as place_in_one, joined_tables, columns_of};

use tt_sql::{Join, Query};
use tt_value::{ColumnName, Name, Schema, TableName};

/// The tables that a statement reads: one, and those that are joined to it; and their schemas, in order.
#[derive(Clone, Copy)]
pub struct Tables<'a> {
    pub first: &'a TableName,
    pub joins: &'a [Join],
    pub schemas: &'a [Schema],
}

/// The place of the column that a name means, in the rows of the tables joined end to end.
/// None where no column or more than one has the name.
pub fn place_in(tables: &Tables<'_>, column: &ColumnName) -> Option<usize>
    requires { IsCounted (scope_in tables.now) }
    ensures { result ≡ (scope_in tables.now).place_of column.now }
{
    let Some((schema, others)) = tables.schemas.split_first() else {
        return None;
    };
    let found = place_in_table(tables.first, schema, column);
    let before = schema.columns.len();
    place_among(tables.joins, others, column, found, before)
}

/// The place of the column that a name means in a query. The schemas are those of the query's tables, in order.
pub fn place_of(schemas: &[Schema], query: &Query, column: &ColumnName) -> Option<usize>
    requires { HasPlaces schemas.now query.now }
    ensures { result ≡ (query_scope schemas.now query.now).place_of column.now }
{
    let tables = Tables {
        first: &query.first.table,
        joins: query.joins.as_slice(),
        schemas,
    };
    place_in(&tables, column)
}

/// Whether the columns of the query's tables can be counted. Tables of few columns always can.
pub fn has_places(schemas: &[Schema], query: &Query) -> bool
    ensures { IsTrue result ↔ HasPlaces schemas.now query.now }
{
    let Some((schema, others)) = schemas.split_first() else {
        return true;
    };
    can_count(query.joins.as_slice(), others, schema.columns.len())
}

fn can_count(mut joins: &[Join], mut schemas: &[Schema], mut count: usize) -> bool
    ensures { IsTrue result ↔ (count + length (columns_of (joined_tables joins.now schemas.now)) < 2 ^ 64) }
{
    while let (Some((_, later)), Some((schema, others))) = (
        joins.split_first(),
        schemas.split_first(),
    ) {
        let Some(more) = count.checked_add(schema.columns.len()) else {
            return false;
        };
        count = more;
        joins = later;
        schemas = others;
    }
    true
}

// The only place that the name means, given what was found in so many columns.
fn place_among(
    mut joins: &[Join],
    mut schemas: &[Schema],
    column: &ColumnName,
    mut found: Option<usize>,
    mut before: usize,
) -> Option<usize>
    requires { before + length (columns_of (joined_tables joins.now schemas.now)) < 2 ^ 64 }
    ensures { result ≡ only_place (option_to_list found
        ++ places_among before (joined_tables joins.now schemas.now) column.now) }
{
    while let (Some((join, later)), Some((schema, others))) = (
        joins.split_first(),
        schemas.split_first(),
    ) {
        found = match (found, place_in_table(&join.source.table, schema, column)) {
            (Some(_), Some(_)) => return None,
            (None, Some(place)) => Some(before + place),
            (found, None) => found,
        };
        before += schema.columns.len();
        joins = later;
        schemas = others;
    }
    found
}

fn place_in_table(table: &TableName, schema: &Schema, column: &ColumnName) -> Option<usize>
    ensures place { result ≡ place_in_one table.now schema.now column.now }
    ensures within { IfSome result (λ place. place < length schema.now.columns) }
{
    if names_table(&column.table, table) {
        column_place(schema, &column.name)
    } else {
        None
    }
}

fn names_table(front: &Option<Name>, table: &TableName) -> bool
    ensures { result ≡ is_for front.now table.now }
{
    match front {
        None => true,
        Some(front) => front.text == table.name.text,
    }
}

fn column_place(schema: &Schema, name: &Name) -> Option<usize>
    ensures place { result ≡ place_named schema.now name.now.text }
    ensures within { IfSome result (λ place. place < length schema.now.columns) }
{
    schema
        .columns
        .items()
        .iter()
        .position(|column| column.name == name.text)
}
