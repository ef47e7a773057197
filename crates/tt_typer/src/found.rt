//! What is found in each kind of statement.

ghost use Rattle.std.specs.Prelude.{◌≡◌, ◌<◌, length, []};
ghost use Rattle.tt_sql.specs.meaning.Scopes.{query_tables};
ghost use Rattle.tt_plain.specs.Tables.{tables_of, dml_tables, schema_at, ReadsOneTable, IsOverOneTable};
ghost use Rattle.tt_typer.specs.LentSchemas.{lent};
ghost use Rattle.tt_typer.specs.TableScopes.{scope_in};
ghost use Rattle.tt_typer.specs.Finds as spec;

use crate::counts::{
    listed_again, miscounted_columns, miscounted_query, miscounted_tuples, named_again, width,
};
use crate::mismatches::{misfit_in_filter, misfit_in_query};
use crate::nulls::{left_out, nulls_in_selection, nulls_in_sets, nulls_in_tuples};
use crate::places::{earlier, table_begin};
use crate::scope::TableScope;
use crate::unknown::{
    unknown_in_change, unknown_in_create, unknown_in_filter, unknown_in_list, unknown_in_query,
    unknown_in_sets,
};
use crate::values::{misfit_in_sets, misfit_in_tuples, misfit_into};
use tt_sql::{
    Alter, CreatedTable, Delete, Dml, Insert, InsertSource, Query, Statement, Tuple, Update,
};
use tt_value::Schema;

/// The leftmost place of each refusal.
#[derive(Clone, Copy)]
pub struct Found {
    pub unknown: Option<u32>,
    pub count: Option<u32>,
    pub mismatch: Option<u32>,
    pub null: Option<u32>,
}

const NOTHING: Found = Found {
    unknown: None,
    count: None,
    mismatch: None,
    null: None,
};

fn in_query(scope: &TableScope<'_>, query: &Query) -> Found
    ensures { result ≡ spec.query_found (scope_in scope.now) query.now }
{
    Found {
        unknown: unknown_in_query(scope, query),
        mismatch: misfit_in_query(scope, query),
        ..NOTHING
    }
}

/// What is found in an INSERT of these written rows.
#[tactic(auto, using(crate::proofs::Leftmost::leftmost_append))]
pub fn in_values(target: &Schema, insert: &Insert, tuples: &[Tuple]) -> Found
    ensures { result ≡ spec.insert_found target.now insert.now tuples.now }
{
    let names = &insert.columns;
    let again = listed_again(target, names);
    let missing = left_out(target, table_begin(&insert.table), names);
    Found {
        unknown: unknown_in_list(target, names),
        count: earlier(again, miscounted_tuples(width(target, names), tuples)),
        mismatch: misfit_in_tuples(target, names, tuples),
        null: earlier(missing, nulls_in_tuples(target, names, tuples)),
    }
}

#[tactic(auto, using(crate::proofs::Leftmost::leftmost_append))]
fn in_select(target: &Schema, read: &TableScope<'_>, insert: &Insert, query: &Query) -> Found
    ensures { result ≡ spec.insert_select_found target.now (scope_in read.now) insert.now query.now }
{
    let names = &insert.columns;
    let again = listed_again(target, names);
    let inside = misfit_in_query(read, query);
    let missing = left_out(target, table_begin(&insert.table), names);
    Found {
        unknown: earlier(
            unknown_in_list(target, names),
            unknown_in_query(read, query),
        ),
        count: earlier(again, miscounted_query(read, width(target, names), query)),
        mismatch: earlier(inside, misfit_into(target, names, read, &query.selection)),
        null: earlier(missing, nulls_in_selection(target, names, &query.selection)),
    }
}

#[tactic(auto, using(crate::proofs::Leftmost::leftmost_append), unfolding(crate::specs::TableScopes::scope_in))]
fn in_update(schema: &Schema, update: &Update) -> Found
    ensures { result ≡ spec.update_found schema.now update.now }
{
    let scope = TableScope {
        table: &update.table,
        schema,
    };
    let sets = update.sets.as_slice();
    let names = unknown_in_sets(&scope, sets);
    let values = misfit_in_sets(&scope, sets);
    Found {
        unknown: earlier(names, unknown_in_filter(&scope, &update.filter)),
        count: named_again(schema, sets),
        mismatch: earlier(values, misfit_in_filter(&scope, &update.filter)),
        null: nulls_in_sets(schema, sets),
    }
}

#[tactic(auto, unfolding(crate::specs::TableScopes::scope_in))]
fn in_delete(schema: &Schema, delete: &Delete) -> Found
    ensures { result ≡ spec.delete_found schema.now delete.now }
{
    let scope = TableScope {
        table: &delete.table,
        schema,
    };
    Found {
        unknown: unknown_in_filter(&scope, &delete.filter),
        mismatch: misfit_in_filter(&scope, &delete.filter),
        ..NOTHING
    }
}

/// What is found in a CREATE TABLE.
pub fn in_create(create: &CreatedTable) -> Found
    ensures { result ≡ spec.create_found create.now }
{
    Found {
        unknown: unknown_in_create(create),
        count: miscounted_columns(create.columns.as_slice()),
        ..NOTHING
    }
}

/// The schema of the table that is named so late, from 0.
fn schema_of<'a>(schemas: &[&'a Schema], at: usize) -> &'a Schema
    requires { at < length schemas.now }
    ensures { result.now ≡ schema_at (lent schemas.now) at }
{
    schemas[at]
}

fn in_insert(schemas: &[&Schema], insert: &Insert) -> Found
    requires tables { length schemas.now ≡ length (dml_tables (Dml.Insert insert.now)) }
    requires alone { ReadsOneTable (Dml.Insert insert.now) }
    ensures { result ≡ spec.dml_found (lent schemas.now) (Dml.Insert insert.now) }
{
    let target = schema_of(schemas, 0);
    match &insert.source {
        InsertSource::Values(tuples) => in_values(target, insert, tuples.as_slice()),
        InsertSource::Query(query) => {
            let read = TableScope {
                table: &query.first.table,
                schema: schema_of(schemas, 1),
            };
            in_select(target, &read, insert, query)
        }
    }
}

fn in_dml(schemas: &[&Schema], dml: &Dml) -> Found
    requires tables { length schemas.now ≡ length (dml_tables dml.now) }
    requires alone { ReadsOneTable dml.now }
    ensures { result ≡ spec.dml_found (lent schemas.now) dml.now }
{
    match dml {
        Dml::Insert(insert) => in_insert(schemas, insert),
        Dml::Update(update) => in_update(schema_of(schemas, 0), update),
        Dml::Delete(delete) => in_delete(schema_of(schemas, 0), delete),
        Dml::Copy(_) => NOTHING,
    }
}

fn in_alter(schema: &Schema, alter: &Alter) -> Found
    ensures { result ≡ spec.alter_found schema.now alter.now }
{
    Found {
        unknown: unknown_in_change(schema, &alter.change),
        ..NOTHING
    }
}

/// What is found in a query over the schemas of its tables.
pub fn in_read(schemas: &[&Schema], query: &Query) -> Found
    requires tables { length schemas.now ≡ length (query_tables query.now) }
    requires alone { query.now.joins ≡ [] }
    ensures { result ≡ spec.read_found (lent schemas.now) query.now }
{
    let scope = TableScope {
        table: &query.first.table,
        schema: schema_of(schemas, 0),
    };
    in_query(&scope, query)
}

/// What is found in a statement over the schemas of its tables.
pub fn in_statement(schemas: &[&Schema], statement: &Statement) -> Found
    requires tables { length schemas.now ≡ length (tables_of statement.now) }
    requires alone { IsOverOneTable statement.now }
    ensures { result ≡ spec.statement_found (lent schemas.now) statement.now }
{
    match statement {
        Statement::Query(query) => in_read(schemas, query),
        Statement::Explain(query) => in_read(schemas, query),
        Statement::Dml(dml) => in_dml(schemas, dml),
        Statement::Create(create) => in_create(create),
        Statement::Alter(alter) => in_alter(schema_of(schemas, 0), alter),
        _ => NOTHING,
    }
}
