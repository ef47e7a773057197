//! The tables that a statement reads or changes, and 2, UnknownTable: one of them is not live.

ghost use Rattle.std.specs.Prelude.{◌≡◌, None};
ghost use Rattle.tt_plain.specs.Places.{each, leftmost};
ghost use Rattle.tt_plain.specs.Tables.{tables_of, dml_tables, IsOverOneTable, ReadsOneTable};
ghost use Rattle.tt_plain.specs.refusal.UnknownTable.{unknown_name as places_unknown, unknown_names};
ghost use Rattle.tt_model_asked.specs.AskedAs.{asked_in};
ghost use Rattle.tt_model_asked.specs.NamedAs.{named_in};

use crate::asked::{Asked, table_named};
use crate::places::earlier;
use tt_sql::{Alter, Change, Dml, Insert, InsertSource, Statement};
use tt_typer::table_begin;
use tt_value::TableName;

/// At most two tables, in the order in which they are named.
#[derive(Clone, Copy)]
pub enum Named<'a> {
    Nothing,
    One(&'a TableName),
    Two(&'a TableName, &'a TableName),
}

fn in_insert(insert: &Insert) -> Named<'_>
    requires { ReadsOneTable (Dml.Insert insert.now) }
    ensures { named_in result ≡ dml_tables (Dml.Insert insert.now) }
{
    match &insert.source {
        InsertSource::Values(_) => Named::One(&insert.table),
        InsertSource::Query(query) => Named::Two(&insert.table, &query.first.table),
    }
}

fn in_dml(dml: &Dml) -> Named<'_>
    requires { ReadsOneTable dml.now }
    ensures { named_in result ≡ dml_tables dml.now }
{
    match dml {
        Dml::Insert(insert) => in_insert(insert),
        Dml::Update(update) => Named::One(&update.table),
        Dml::Delete(delete) => Named::One(&delete.table),
        Dml::Copy(copy) => Named::One(&copy.table),
    }
}

fn in_alter(alter: &Alter) -> Named<'_>
    ensures { named_in result ≡ tables_of (Statement.Alter alter.now) }
{
    match &alter.change {
        Change::SwapWith(other) => Named::Two(&alter.table, other),
        _ => Named::One(&alter.table),
    }
}

/// The tables that a statement reads or changes.
pub fn tables_named(statement: &Statement) -> Named<'_>
    requires { IsOverOneTable statement.now }
    ensures { named_in result ≡ tables_of statement.now }
{
    match statement {
        Statement::Query(query) | Statement::Explain(query) => Named::One(&query.first.table),
        Statement::Dml(dml) => in_dml(dml),
        Statement::Clone(clone) => Named::One(&clone.source.table),
        Statement::Drop(name) | Statement::Truncate(name) | Statement::Depth(name) => {
            Named::One(name)
        }
        Statement::Alter(alter) => in_alter(alter),
        Statement::Create(_) | Statement::Undrop(_) | Statement::Begin => Named::Nothing,
        Statement::Commit | Statement::Rollback | Statement::Wait(_) => Named::Nothing,
        Statement::Show(_) | Statement::Metrics => Named::Nothing,
    }
}

fn unknown_name(asked: &Asked<'_>, name: &TableName) -> Option<u32>
    ensures { result ≡ leftmost (places_unknown (asked_in asked.now) name.now) }
{
    match table_named(asked, name) {
        None => Some(table_begin(name)),
        Some(_) => None,
    }
}

/// The leftmost table of a statement that is not live.
#[tactic(auto, using(tt_typer::proofs::Leftmost::leftmost_append))]
pub fn unknown_table(asked: &Asked<'_>, statement: &Statement) -> Option<u32>
    requires { IsOverOneTable statement.now }
    ensures { result ≡ leftmost (each (places_unknown (asked_in asked.now)) (tables_of
        statement.now)) }
{
    match tables_named(statement) {
        Named::Nothing => None,
        Named::One(name) => unknown_name(asked, name),
        Named::Two(first, second) => {
            earlier(unknown_name(asked, first), unknown_name(asked, second))
        }
    }
}
