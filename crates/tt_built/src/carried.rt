//! Which statements are carried out by now: CREATE TABLE with columns alone, INSERT of written rows, and a query of
//! a whole table.

ghost use Rattle.std.specs.Prelude.{◌≡◌};
ghost use Rattle.tt_plain.specs.asked.Reach.{is_star, is_whole_table};
ghost use Rattle.tt_built.specs.Built.{is_built, is_permanent, is_plain_create, has_values, is_plain_insert, is_plain_query};

use tt_sql::{CreatedTable, Dml, InsertSource, Query, Selection, Statement, TableKind};

/// Whether a statement is carried out by now. One that is not is refused like a text that is none.
#[tactic(auto, using(crate::proofs::Reaches::query_built, crate::proofs::Reaches::create_built, crate::proofs::Reaches::insert_built))]
pub fn built(statement: &Statement) -> bool
    ensures { result ≡ is_built statement.now }
{
    match statement {
        Statement::Query(query) => plain_query(query),
        Statement::Dml(dml) => is_plain_insert(dml),
        Statement::Create(table) => plain_create(table),
        _ => false,
    }
}

/// Whether a CREATE TABLE is carried out by now: without OR REPLACE, TRANSIENT and options.
pub fn plain_create(table: &CreatedTable) -> bool
    ensures { result ≡ is_plain_create table.now }
{
    !table.replaces
        && is_permanent(table.kind)
        && table.options.retention.is_none()
        && table.options.cluster_by.is_none()
}

fn is_permanent(kind: TableKind) -> bool
    ensures { result ≡ is_permanent kind }
{
    matches!(kind, TableKind::Permanent)
}

fn is_plain_insert(dml: &Dml) -> bool
    ensures { result ≡ is_plain_insert dml.now }
{
    match dml {
        Dml::Insert(insert) => has_values(&insert.source),
        _ => false,
    }
}

fn has_values(source: &InsertSource) -> bool
    ensures { result ≡ has_values source.now }
{
    matches!(source, InsertSource::Values(_))
}

/// Whether a query is carried out by now: all rows of one table as they are now.
pub fn plain_query(query: &Query) -> bool
    ensures { result ≡ is_plain_query query.now }
{
    is_whole_table(query) && query.first.clause.is_none()
}

fn is_whole_table(query: &Query) -> bool
    ensures { result ≡ is_whole_table query.now }
{
    is_star(&query.selection)
        && query.filter.is_none()
        && (query.joins.len() == 0 && query.group.len() == 0)
        && (query.order.len() == 0 && query.limit.is_none())
}

fn is_star(selection: &Selection) -> bool
    ensures { result ≡ is_star selection.now }
{
    matches!(selection, Selection::All(_))
}
