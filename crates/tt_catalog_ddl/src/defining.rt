//! The call by which a session's statement defines a table.

ghost use Rattle.std.specs.Prelude.{◌≡◌, ◌+◌, ◌<◌, ◌^◌, Ok, length, true};
ghost use Rattle.tt_plain.specs.asked.Request.{request_in};
ghost use Rattle.tt_plain.specs.history.Replies.{is_definition};
ghost use Rattle.tt_built.specs.Built.{is_built};
ghost use Rattle.tt_state.specs.Kept.{kept_of};
ghost use Rattle.tt_state.specs.Chronicle.{IsNextRead};
ghost use Rattle.tt_sql.specs.declared.statement.Statement.TheVariants as tree;
ghost use Rattle.tt_catalog_ddl.specs.Creates.{CarriesOut, MadeDefine, NamesAreKnown, refusal_kept};

use crate::making::add_table;
use std::alloc::AllocError;
use tt_history::{EntryKind, Refusal, Reply, Told};
use tt_sql::{CreatedTable, Statement};
use tt_state::entries::session_entry;
use tt_state::{Catalog, State};
use tt_typer::{check, table_begin};

// Why a CREATE TABLE is refused.
fn create_refusal(state: &State, create: &CreatedTable, statement: &Statement) -> Option<Refusal>
    requires tree { statement.now ≡ tree.Create create.now }
    ensures { result ≡ refusal_kept (kept_of state.now) create.now statement.now }
{
    if state.live_table(&create.table.name.text).is_some() {
        return Some(Refusal::TableExists(table_begin(&create.table)));
    }
    check(statement, &[]).err()
}

// Carries a CREATE TABLE out, where it is not refused and memory is found. The moment is still that of the last entry.
fn carry_out(state: &mut State, statement: &Statement) -> (Told, Reply)
    requires built { is_built statement.now ≡ true }
    requires definition { is_definition (request_in statement.now) ≡ true }
    requires known { NamesAreKnown (kept_of state.old) }
    requires few { length (kept_of state.old).tables + 1 < 2 ^ 32 }
    requires moment { (kept_of state.old).moment + 1 < 2 ^ 62 }
    ensures { CarriesOut (kept_of state.old) statement.now (kept_of state.new) result.0 result.1 }
{
    let Statement::Create(create) = statement else {
        unreachable!()
    };
    if let Some(refusal) = create_refusal(state, create, statement) {
        return (Told::Refused(refusal.number()), Reply::Refused(refusal));
    }
    match add_table(state, create) {
        Ok(()) => (Told::Done, Reply::Ok),
        Err(AllocError) => (Told::Memory, Reply::Memory),
    }
}

/// Makes the Define entry of a session's next statement, which is a CREATE TABLE: its table is made, or it is refused,
/// or it finds no memory; in the last two cases nothing is made.
pub fn define(cat: &mut Catalog, session: u32, index: u32, statement: &Statement) -> Reply
    requires next { IsNextRead cat.old session index (Ok statement.now) }
    requires definition { is_definition (request_in statement.now) ≡ true }
    ensures { MadeDefine cat.old cat.new session index result }
{
    let moment = cat.state.moment;
    let (told, reply) = carry_out(&mut cat.state, statement);
    cat.state.end_statement(&cat.program, session, index);
    let entry = session_entry(moment, session, index, EntryKind::Define(told));
    cat.history.push(entry);
    reply
}
