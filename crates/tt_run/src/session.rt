//! A session's statements, one event after another.

ghost use Rattle.std.specs.Prelude.{◌≡◌, [], ◌∷◌, Err, IfOk, None, Ok, Some, true};
ghost use Rattle.tt_sql.specs.asked.Request.{as_read};
ghost use Rattle.tt_sql.specs.declared.change.Dml.TheVariants as dml;
ghost use Rattle.tt_sql.specs.declared.statement.Statement.TheVariants as tree;
ghost use Rattle.tt_plain.specs.Statements.{InsertsTuples, insertion};
ghost use Rattle.tt_plain.specs.TypingRefusal.{typing_refusal};
ghost use Rattle.tt_built.specs.Built.{is_plain_query};
ghost use Rattle.tt_state.specs.Chronicle.{IsNextRead};
ghost use Rattle.tt_catalog.specs.Changes.{IsBuiltFor};
ghost use Rattle.tt_catalog.specs.Tickets.{IsTicketOf};
ghost use Rattle.tt_query.specs.Answer.{answer_held};
ghost use Rattle.tt_run.specs.Outcomes.{Stands};
ghost use Rattle.tt_run.specs.Requests.{IsNextAsked};
ghost use Rattle.tt_run.specs.Started.{IsReading, IsWriting};
ghost use Rattle.tt_run.specs.Turns.{IsAnswered};

use std::alloc::{AllocError, Global};
use tt_agg::AggregateError;
use tt_built::{plain_create, plain_query};
use tt_catalog::{abandon, end_change, end_read, start};
use tt_catalog_ddl::define;
use tt_change::insert_written;
use tt_history::{Reply, SharedRows, Told};
use tt_sql::{CreatedTable, Dml, Insert, InsertSource, Query, Statement, Syntax, Tuple};
use tt_state::{Built, Catalog, Started, Ticket};

// What holds of each catalog: it stands for its program and its history.
fn stands(cat: &Catalog)
    ensures { Stands cat.now }
{
    let _state = &cat.state;
}

// ---- queries

// The answer of a query of a whole table over the rows that its ticket holds.
fn answer(alloc: Global, ticket: &Ticket, query: &Query) -> Result<SharedRows, AllocError>
    requires { IsReading ticket.now query.now }
    ensures { IfOk result (λ rows. answer_held ticket.now.sources query.now ≡ Some rows) }
{
    match tt_query::answer(alloc, ticket, query) {
        Ok(rows) => SharedRows::new(alloc, rows),
        Err(AggregateError::Memory) => Err(AllocError),
        Err(AggregateError::OutOfRange) => unreachable!(),
    }
}

fn answer_query(cat: &mut Catalog, alloc: Global, ticket: Ticket, query: &Query) -> Reply
    requires ticket { IsTicketOf cat.old ticket (tree.Query query.now) }
    requires reads { IsReading ticket query.now }
    ensures { IsAnswered cat.old cat.new ticket.session ticket.index result }
{
    let Ok(rows) = answer(alloc, &ticket, query) else {
        abandon(cat, ticket, Told::Memory);
        return Reply::Memory;
    };
    end_read(cat, ticket);
    Reply::Rows(rows)
}

// ---- changes

// What an INSERT of these written rows adds to the table of its ticket.
fn build(
    cat: &Catalog,
    alloc: Global,
    ticket: &Ticket,
    insert: &Insert,
    tuples: &[Tuple],
) -> Result<Built, AllocError>
    requires ticket { IsTicketOf cat.now ticket.now (insertion insert.now) }
    requires writes { IsWriting ticket.now insert.now }
    requires tuples { InsertsTuples insert.now tuples.now }
    ensures { IfOk result (IsBuiltFor cat.now ticket.now (dml.Insert insert.now)) }
{
    stands(cat);
    let Some(seen) = &ticket.target else {
        unreachable!()
    };
    insert_written(alloc, &seen.schema, insert, tuples, cat.cap())
}

fn change_rows(
    cat: &mut Catalog,
    alloc: Global,
    ticket: Ticket,
    change: &Dml,
    insert: &Insert,
    tuples: &[Tuple],
) -> Reply
    requires ticket { IsTicketOf cat.old ticket (insertion insert.now) }
    requires change { change.now ≡ dml.Insert insert.now }
    requires writes { IsWriting ticket insert.now }
    requires tuples { InsertsTuples insert.now tuples.now }
    ensures { IsAnswered cat.old cat.new ticket.session ticket.index result }
{
    let Ok(built) = build(cat, alloc, &ticket, insert, tuples) else {
        abandon(cat, ticket, Told::Memory);
        return Reply::Memory;
    };
    match end_change(cat, ticket, change, built) {
        Ok(reply) => reply,
        Err(ticket) => {
            abandon(cat, ticket, Told::Memory);
            Reply::Memory
        }
    }
}

// ---- statements by what they ask for

// A text that is no statement, or one that is not carried out yet.
fn refuse_text(cat: &mut Catalog, session: u32, index: u32, place: u32) -> Reply
    requires { IsNextRead cat.old session index (Err place) }
    ensures { IsAnswered cat.old cat.new session index result }
{
    Reply::Refused(tt_catalog::refuse_text(cat, session, index, place))
}

// A query, as the statement that it is.
fn run_query(
    cat: &mut Catalog,
    alloc: Global,
    session: u32,
    index: u32,
    query: &Query,
    statement: &Statement,
) -> Reply
    requires next { IsNextAsked cat.old session index (Ok statement.now) }
    requires query { statement.now ≡ tree.Query query.now }
    ensures { IsAnswered cat.old cat.new session index result }
{
    if !plain_query(query) {
        return refuse_text(cat, session, index, 0);
    }
    match start(cat, session, index, statement) {
        Started::Refused(refusal) => Reply::Refused(refusal),
        Started::Memory => Reply::Memory,
        Started::Ticket(ticket) => answer_query(cat, alloc, ticket, query),
    }
}

fn run_values(
    cat: &mut Catalog,
    alloc: Global,
    session: u32,
    index: u32,
    change: &Dml,
    insert: &Insert,
    tuples: &[Tuple],
    statement: &Statement,
) -> Reply
    requires next { IsNextRead cat.old session index (Ok statement.now) }
    requires insert { statement.now ≡ insertion insert.now }
    requires change { change.now ≡ dml.Insert insert.now }
    requires tuples { InsertsTuples insert.now tuples.now }
    ensures { IsAnswered cat.old cat.new session index result }
{
    match start(cat, session, index, statement) {
        Started::Refused(refusal) => Reply::Refused(refusal),
        Started::Memory => Reply::Memory,
        Started::Ticket(ticket) => change_rows(cat, alloc, ticket, change, insert, tuples),
    }
}

fn run_insert(
    cat: &mut Catalog,
    alloc: Global,
    session: u32,
    index: u32,
    change: &Dml,
    insert: &Insert,
    statement: &Statement,
) -> Reply
    requires next { IsNextAsked cat.old session index (Ok statement.now) }
    requires insert { statement.now ≡ insertion insert.now }
    requires change { change.now ≡ dml.Insert insert.now }
    ensures { IsAnswered cat.old cat.new session index result }
{
    match &insert.source {
        InsertSource::Values(tuples) => {
            let rows = tuples.as_slice();
            run_values(cat, alloc, session, index, change, insert, rows, statement)
        }
        InsertSource::Query(_) => refuse_text(cat, session, index, 0),
    }
}

// A change, as the statement that it is.
fn run_change(
    cat: &mut Catalog,
    alloc: Global,
    session: u32,
    index: u32,
    change: &Dml,
    statement: &Statement,
) -> Reply
    requires next { IsNextAsked cat.old session index (Ok statement.now) }
    requires change { statement.now ≡ tree.Dml change.now }
    ensures { IsAnswered cat.old cat.new session index result }
{
    match change {
        Dml::Insert(insert) => run_insert(cat, alloc, session, index, change, insert, statement),
        _ => refuse_text(cat, session, index, 0),
    }
}

// A CREATE TABLE, as the statement that it is.
fn run_create(
    cat: &mut Catalog,
    session: u32,
    index: u32,
    create: &CreatedTable,
    statement: &Statement,
) -> Reply
    requires next { IsNextAsked cat.old session index (Ok statement.now) }
    requires create { statement.now ≡ tree.Create create.now }
    ensures { IsAnswered cat.old cat.new session index result }
{
    if !plain_create(create) {
        return refuse_text(cat, session, index, 0);
    }
    define(cat, session, index, statement)
}

fn run_parsed(
    cat: &mut Catalog,
    alloc: Global,
    session: u32,
    index: u32,
    statement: &Statement,
) -> Reply
    requires { IsNextAsked cat.old session index (Ok statement.now) }
    ensures { IsAnswered cat.old cat.new session index result }
{
    match statement {
        Statement::Query(query) => run_query(cat, alloc, session, index, query, statement),
        Statement::Dml(change) => run_change(cat, alloc, session, index, change, statement),
        Statement::Create(create) => run_create(cat, session, index, create, statement),
        _ => refuse_text(cat, session, index, 0),
    }
}

/// Makes the events of a session's next statement, from its first entry to its last. A statement that uses a
/// part which is not carried out yet is refused like a text that is none, at place 0.
pub fn run_statement(
    cat: &mut Catalog,
    alloc: Global,
    session: u32,
    index: u32,
    read: &Result<Statement, Syntax>,
) -> Reply
    requires { IsNextAsked cat.old session index (as_read read.now) }
    ensures { IsAnswered cat.old cat.new session index result }
{
    match read {
        Ok(statement) => run_parsed(cat, alloc, session, index, statement),
        Err(syntax) => refuse_text(cat, session, index, syntax.place),
    }
}
