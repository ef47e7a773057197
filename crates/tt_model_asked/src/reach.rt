//! How far the language is carried out.

ghost use Rattle.std.specs.Prelude.{◌≡◌, max};
ghost use Rattle.tt_plain.specs.asked.Request.{request_in};
ghost use Rattle.tt_plain.specs.asked.Reach as spec;
ghost use Rattle.tt_model_asked.specs.ReachAs.{reach_in, most_of};

use tt_sql::{
    Change, CreatedTable, Dml, InsertSource, Query, Selection, Source, Statement, TableKind,
};

/// What is carried out so far; each reach has all those before it.
#[derive(Clone, Copy)]
pub enum Reach {
    WholeTables,
    Queries,
    Transactions,
    TimeTravel,
    Names,
    Storage,
    Clustering,
}

fn number_of(reach: Reach) -> u8
    ensures { result ≡ spec.reach_number (reach_in reach) }
{
    match reach {
        Reach::WholeTables => 0,
        Reach::Queries => 1,
        Reach::Transactions => 2,
        Reach::TimeTravel => 3,
        Reach::Names => 4,
        Reach::Storage => 5,
        Reach::Clustering => 6,
    }
}

fn further(a: Reach, b: Reach) -> Reach
    ensures { spec.reach_number (reach_in result)
        ≡ max (spec.reach_number (reach_in a)) (spec.reach_number (reach_in b)) }
{
    if number_of(a) < number_of(b) { b } else { a }
}

fn when(test: bool, reach: Reach) -> Reach
    ensures { spec.reach_number (reach_in result) ≡ most_of (spec.when test (reach_in reach)) }
{
    if test { reach } else { Reach::WholeTables }
}

fn of_source(source: &Source) -> Reach
    ensures { spec.reach_number (reach_in result) ≡ most_of (spec.source_reach source.now) }
{
    when(source.clause.is_some(), Reach::TimeTravel)
}

fn is_star(selection: &Selection) -> bool
    ensures { result ≡ spec.is_star selection.now }
{
    match selection {
        Selection::All(_) => true,
        Selection::Listed(_) => false,
    }
}

fn is_whole_table(query: &Query) -> bool
    ensures { result ≡ spec.is_whole_table query.now }
{
    let is_all = is_star(&query.selection) && query.filter.is_none();
    let is_plain = query.joins.is_empty() && query.group.is_empty();
    is_all && is_plain && query.order.is_empty() && query.limit.is_none()
}

#[tactic(auto, using(crate::proofs::Reaches::most_append))]
fn of_query(query: &Query) -> Reach
    ensures { spec.reach_number (reach_in result) ≡ most_of (spec.query_reach query.now) }
{
    let form = when(!is_whole_table(query), Reach::Queries);
    further(form, of_source(&query.first))
}

fn of_insert_source(source: &InsertSource) -> Reach
    ensures { spec.reach_number (reach_in result) ≡ most_of (spec.inserted_reach source.now) }
{
    match source {
        InsertSource::Values(_) => Reach::WholeTables,
        InsertSource::Query(query) => further(Reach::Queries, of_query(query)),
    }
}

fn of_change(dml: &Dml) -> Reach
    ensures { spec.reach_number (reach_in result) ≡ most_of (spec.change_reach dml.now) }
{
    match dml {
        Dml::Insert(insert) => of_insert_source(&insert.source),
        Dml::Update(_) | Dml::Delete(_) => Reach::Queries,
        Dml::Copy(_) => Reach::Transactions,
    }
}

fn of_kind(kind: TableKind) -> Reach
    ensures { spec.reach_number (reach_in result) ≡ most_of (spec.kind_reach kind) }
{
    match kind {
        TableKind::Permanent => Reach::WholeTables,
        TableKind::Transient | TableKind::Temporary => Reach::TimeTravel,
    }
}

#[tactic(auto, using(crate::proofs::Reaches::most_append))]
fn of_created(create: &CreatedTable) -> Reach
    ensures { spec.reach_number (reach_in result) ≡ most_of (spec.created_reach create.now) }
{
    let form = further(when(create.replaces, Reach::Names), of_kind(create.kind));
    let options = &create.options;
    let retention = when(options.retention.is_some(), Reach::TimeTravel);
    let cluster = when(options.cluster_by.is_some(), Reach::Clustering);
    further(form, further(retention, cluster))
}

fn of_alter(change: &Change) -> Reach
    ensures { reach_in result ≡ spec.altered_reach change.now }
{
    match change {
        Change::RenameTo(_) | Change::SwapWith(_) => Reach::Names,
        Change::SetRetention(_) => Reach::TimeTravel,
        Change::ClusterBy(_) | Change::DropClusteringKey => Reach::Clustering,
        Change::SuspendRecluster | Change::ResumeRecluster => Reach::Clustering,
    }
}

// The reach that a statement needs.
fn needed(statement: &Statement) -> Reach
    ensures { spec.reach_number (reach_in result)
        ≡ most_of (spec.reaches_needed (request_in statement.now)) }
{
    match statement {
        Statement::Query(query) => of_query(query),
        Statement::Dml(dml) => of_change(dml),
        Statement::Create(create) => of_created(create),
        Statement::Clone(_) | Statement::Drop(_) | Statement::Undrop(_) => Reach::Names,
        Statement::Truncate(_) | Statement::Show(_) => Reach::Names,
        Statement::Alter(alter) => of_alter(&alter.change),
        Statement::Begin | Statement::Commit | Statement::Rollback => Reach::Transactions,
        Statement::Wait(_) => Reach::TimeTravel,
        Statement::Explain(query) => further(Reach::Queries, of_query(query)),
        Statement::Metrics => Reach::Storage,
        Statement::Depth(_) => Reach::Clustering,
    }
}

/// Whether a statement is carried out at a reach.
pub fn is_within(reach: Reach, statement: &Statement) -> bool
    ensures { result ≡ spec.is_within_reach (reach_in reach) statement.now }
{
    number_of(needed(statement)) <= number_of(reach)
}
