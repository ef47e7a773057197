//! How a query or a change begins: with a ticket, or it is refused, or finds no memory.

ghost use Rattle.std.specs.Prelude.{◌≡◌, ◌∷◌, [], IfErr, IfOk, None, Ok, OnErr, OnOk, Some, length};
ghost use Rattle.tt_sql.specs.declared.statement.Statement.TheVariants as tree;
ghost use Rattle.tt_plain.specs.Statements.{insertion};
ghost use Rattle.tt_plain.specs.Tables.{IsOverOneTable, TakesFromOneTable, tables_of};
ghost use Rattle.tt_state.specs.Chronicle.{IsNextRead};
ghost use Rattle.tt_state.specs.Keeps.{ArePartNumbers};
ghost use Rattle.tt_state.specs.Kept.{kept_of, numbers_now};
ghost use Rattle.tt_state.specs.Moves.{IsReady};
ghost use Rattle.tt_catalog.specs.Starts.{AreFreeFor, AreRefusedFor, CanChange, CanStart, ChangesIn, FillsIn, HasAllParts, InsertsIn, IsFreeFor, IsLiveTable, IsQueryOrChange, IsRefusedFor, IsStarted, OpensIn, ReadsIn, SharesIn, Starts, StaysIn, Takes, TakesIn, change_refusal, held_empty, held_whole, insert_refusal, lock_held_on, pin_whole, refusal_alone, refusal_both, refusal_kept, start_refusal, told_by, with_shared_pin};
ghost use Rattle.tt_catalog.specs.Tickets.{BeginsTyped, GivesTicket, HoldsTables, MadeStart};

use std::alloc::{AllocError, AllocFailed, Global};
use tt_history::{EntryKind, Refusal, Told};
use tt_plain::tally::TallyPin;
use tt_script::Program;
use tt_sql::{Dml, Insert, InsertSource, Statement};
use tt_state::entries::session_entry;
use tt_state::lookup::share_parts;
use tt_state::{Catalog, Seen, Started, State, StoredPart, TableState, Ticket};
use tt_typer::{check, table_begin};
use tt_value::{Sequence, TableName};

// Why a statement does not begin.
#[derive(Drop)]
enum Unopened {
    Refused(Refusal),
    Memory,
}

impl From<Refusal> for Unopened {
    ghost use Rattle.tt_catalog.specs.declared.starting.Unopened.TheVariants as unopened;

    ghost from_gives = { λ refusal e. e ≡ unopened.Refused refusal };

    fn from(refusal: Refusal) -> Unopened {
        Unopened::Refused(refusal)
    }
}

impl From<AllocError> for Unopened {
    ghost use Rattle.tt_catalog.specs.declared.starting.Unopened.TheVariants as unopened;

    ghost from_gives = { λ _ e. e ≡ unopened.Memory };

    fn from(_error: AllocError) -> Unopened {
        Unopened::Memory
    }
}

impl<T: Drop> From<AllocFailed<T>> for Unopened {
    ghost use Rattle.tt_catalog.specs.declared.starting.Unopened.TheVariants as unopened;

    ghost from_gives = { λ _ e. e ≡ unopened.Memory };

    fn from(_error: AllocFailed<T>) -> Unopened {
        Unopened::Memory
    }
}

// ---- the tables of a statement

// The one table of a statement, or why the statement is refused over it.
fn table_over<'a>(
    state: &'a State,
    name: &TableName,
    statement: &Statement,
) -> Result<&'a TableState, Refusal>
    requires one { tables_of statement.now ≡ name.now ∷ [] }
    requires alone { IsOverOneTable statement.now }
    ensures live { IfOk result (λ table. IsLiveTable (kept_of state.now) name.now table.now) }
    ensures free { OnOk result (IsFreeFor (kept_of state.now) name.now statement.now) }
    ensures refused { IfErr result (IsRefusedFor (kept_of state.now) name.now statement.now) }
{
    let Some(table) = state.live_table(&name.name.text) else {
        return Err(Refusal::UnknownTable(table_begin(name)));
    };
    match check(statement, &[&table.schema]) {
        Ok(()) => Ok(table),
        Err(refusal) => Err(refusal),
    }
}

// The two tables of a statement, the one that it changes first, or why it is refused over them.
fn tables_over<'a>(
    state: &'a State,
    target: &TableName,
    source: &TableName,
    statement: &Statement,
) -> Result<(&'a TableState, &'a TableState), Refusal>
    requires two { tables_of statement.now ≡ target.now ∷ source.now ∷ [] }
    requires alone { IsOverOneTable statement.now }
    ensures target { IfOk result (λ found. IsLiveTable (kept_of state.now) target.now found.0.now) }
    ensures source { IfOk result (λ found. IsLiveTable (kept_of state.now) source.now found.1.now) }
    ensures free { OnOk result (AreFreeFor (kept_of state.now) target.now source.now statement.now) }
    ensures refused { IfErr result
        (AreRefusedFor (kept_of state.now) target.now source.now statement.now) }
{
    let table = state.live_table(&target.name.text);
    let read = state.live_table(&source.name.text);
    match (table, read) {
        (Some(table), Some(read)) => match check(statement, &[&table.schema, &read.schema]) {
            Ok(()) => Ok((table, read)),
            Err(refusal) => Err(refusal),
        },
        (Some(_), None) => Err(Refusal::UnknownTable(table_begin(source))),
        (None, Some(_)) => Err(Refusal::UnknownTable(table_begin(target))),
        (None, None) => {
            let first = table_begin(target).min(table_begin(source));
            Err(Refusal::UnknownTable(first))
        }
    }
}

// ---- what is held of them

// A table with all its current parts, each with one more owner, and the numbers of these. No row is
// copied.
fn hold_whole(
    alloc: Global,
    parts: &[StoredPart],
    table: &TableState,
) -> Result<(Seen, Sequence<u64>), AllocError>
    requires { ArePartNumbers (length parts.now) (numbers_now table.now) }
    ensures seen { IfOk result (λ held. held.0 ≡ held_whole parts.now table.now) }
    ensures numbers { IfOk result (λ held. held.1 ≡ numbers_now table.now) }
{
    let numbers = Sequence::from_vec(table.facts.layouts.current()?);
    let seen = Seen {
        table: table.facts.number,
        schema: table.schema.clone()?,
        parts: share_parts(alloc, parts, numbers.items())?,
    };
    Ok((seen, numbers))
}

// A table without its parts.
fn hold_empty(alloc: Global, table: &TableState) -> Result<Seen, AllocError>
    ensures { IfOk result (λ held. held ≡ held_empty table.now) }
{
    Ok(Seen {
        table: table.facts.number,
        schema: table.schema.clone()?,
        parts: Sequence::new(alloc),
    })
}

// A table with all its current parts, and the pin that keeps them.
fn pin_table(
    alloc: Global,
    parts: &[StoredPart],
    session: u32,
    table: &TableState,
) -> Result<(Seen, TallyPin), AllocError>
    requires { ArePartNumbers (length parts.now) (numbers_now table.now) }
    ensures seen { IfOk result (λ opened. opened.0 ≡ held_whole parts.now table.now) }
    ensures pin { IfOk result (λ opened. opened.1 ≡ pin_whole session table.now) }
{
    let (seen, numbers) = hold_whole(alloc, parts, table)?;
    let pin = TallyPin {
        session,
        table: table.facts.number,
        parts: numbers,
    };
    Ok((seen, pin))
}

// The sources of a query of one table.
fn one_source(alloc: Global, seen: Seen) -> Result<Sequence<Seen>, AllocError>
    ensures { IfOk result (λ sources. sources ≡ seen ∷ []) }
{
    let mut sources = Sequence::new(alloc);
    sources.push(seen)?;
    Ok(sources)
}

// Both for an INSERT with a query: the sources, the target without its parts, and the pin.
fn hold_filled(
    alloc: Global,
    parts: &[StoredPart],
    session: u32,
    table: &TableState,
    read: &TableState,
) -> Result<(Sequence<Seen>, Seen, TallyPin), AllocError>
    requires { ArePartNumbers (length parts.now) (numbers_now read.now) }
    ensures sources { IfOk result (λ opened. opened.0 ≡ held_whole parts.now read.now ∷ []) }
    ensures target { IfOk result (λ opened. opened.1 ≡ held_empty table.now) }
    ensures pin { IfOk result (λ opened. opened.2 ≡ pin_whole session read.now) }
{
    let (seen, pin) = pin_table(alloc, parts, session, read)?;
    let sources = one_source(alloc, seen)?;
    let target = hold_empty(alloc, table)?;
    Ok((sources, target, pin))
}

// ---- pins and marks

// One more pin, and a shared mark on a table.
fn share_table(state: &mut State, session: u32, table: u32, pin: TallyPin) -> Result<(), AllocError>
    ensures ok { OnOk result
        (kept_of state.new ≡ with_shared_pin (kept_of state.old) session table pin) }
    ensures err { OnErr result (kept_of state.new ≡ kept_of state.old) }
{
    state.marks.reserve()?;
    state.pins.push(pin)?;
    state.marks.share(session, table);
    Ok(())
}

// One more pin, and an exclusive mark on its table, unless another session has one there.
fn take_table(state: &mut State, session: u32, pin: TallyPin) -> Result<(), Unopened>
    ensures ok { OnOk result (Takes state.old state.new session pin) }
    ensures err { IfErr result
        (StaysIn state.old state.new (lock_held_on (kept_of state.old) session pin.table)) }
{
    let table = pin.table;
    state.marks.reserve()?;
    state.pins.push(pin)?;
    match state.marks.try_exclusive(session, table) {
        Ok(()) => Ok(()),
        Err(held) => {
            let _pin = state.pins.pop();
            Err(Unopened::Refused(Refusal::LockHeld(held.session)))
        }
    }
}

// ---- statements by what they do with their tables

// Opens a query: its table is pinned. Where it does not begin nothing changes.
fn open_read(
    state: &mut State,
    session: u32,
    name: &TableName,
    statement: &Statement,
) -> Result<Sequence<Seen>, Unopened>
    requires parts { HasAllParts (kept_of state.old) }
    requires one { tables_of statement.now ≡ name.now ∷ [] }
    requires alone { IsOverOneTable statement.now }
    ensures opened { IfOk result (ReadsIn state.old state.new session name.now statement.now) }
    ensures unopened { IfErr result
        (StaysIn state.old state.new (refusal_kept (kept_of state.old) name.now statement.now)) }
{
    let table = table_over(state, name, statement)?;
    let alloc = *state.tables.allocator();
    let (seen, pin) = pin_table(alloc, &state.parts, session, table)?;
    let sources = one_source(alloc, seen)?;
    state.pins.push(pin)?;
    Ok(sources)
}

// Opens an INSERT of written rows: its table is marked. Where it does not begin nothing changes.
fn open_shared(
    state: &mut State,
    session: u32,
    name: &TableName,
    statement: &Statement,
) -> Result<Seen, Unopened>
    requires one { tables_of statement.now ≡ name.now ∷ [] }
    requires alone { IsOverOneTable statement.now }
    ensures opened { IfOk result (SharesIn state.old state.new session name.now statement.now) }
    ensures unopened { IfErr result
        (StaysIn state.old state.new (refusal_kept (kept_of state.old) name.now statement.now)) }
{
    let table = table_over(state, name, statement)?;
    let target = hold_empty(*state.tables.allocator(), table)?;
    state.marks.reserve()?;
    state.marks.share(session, target.table);
    Ok(target)
}

// Opens an INSERT with a query: the table that it reads is pinned, and its target marked. Where it does
// not begin nothing changes.
fn open_filled(
    state: &mut State,
    session: u32,
    name: &TableName,
    from: &TableName,
    statement: &Statement,
) -> Result<(Sequence<Seen>, Seen), Unopened>
    requires parts { HasAllParts (kept_of state.old) }
    requires two { tables_of statement.now ≡ name.now ∷ from.now ∷ [] }
    requires alone { IsOverOneTable statement.now }
    ensures opened { IfOk result
        (FillsIn state.old state.new session name.now from.now statement.now) }
    ensures unopened { IfErr result
        (StaysIn state.old state.new
        (refusal_both (kept_of state.old) name.now from.now statement.now)) }
{
    let (table, read) = tables_over(state, name, from, statement)?;
    let alloc = *state.tables.allocator();
    let (sources, target, pin) = hold_filled(alloc, &state.parts, session, table, read)?;
    share_table(state, session, target.table, pin)?;
    Ok((sources, target))
}

// Opens an UPDATE or a DELETE: its table is pinned, and marked for its session alone. Where it does not
// begin nothing changes.
fn open_taken(
    state: &mut State,
    session: u32,
    name: &TableName,
    statement: &Statement,
) -> Result<Seen, Unopened>
    requires parts { HasAllParts (kept_of state.old) }
    requires one { tables_of statement.now ≡ name.now ∷ [] }
    requires alone { IsOverOneTable statement.now }
    ensures opened { IfOk result (TakesIn state.old state.new session name.now statement.now) }
    ensures unopened { IfErr result
        (StaysIn state.old state.new
        (refusal_alone (kept_of state.old) session name.now statement.now)) }
{
    let table = table_over(state, name, statement)?;
    let alloc = *state.tables.allocator();
    let (target, pin) = pin_table(alloc, &state.parts, session, table)?;
    take_table(state, session, pin)?;
    Ok(target)
}

// ---- statements by their kinds

fn open_insert(
    state: &mut State,
    session: u32,
    insert: &Insert,
    statement: &Statement,
) -> Result<(Sequence<Seen>, Seen), Unopened>
    requires parts { HasAllParts (kept_of state.old) }
    requires is { statement.now ≡ insertion insert.now }
    requires alone { TakesFromOneTable insert.now.source }
    ensures opened { IfOk result (InsertsIn state.old state.new session insert.now) }
    ensures unopened { IfErr result (StaysIn state.old state.new
        (insert_refusal (kept_of state.old) insert.now insert.now.source)) }
{
    match &insert.source {
        InsertSource::Values(_) => {
            let sources = Sequence::new(*state.tables.allocator());
            match open_shared(state, session, &insert.table, statement) {
                Ok(target) => Ok((sources, target)),
                Err(why) => Err(why),
            }
        }
        InsertSource::Query(query) => {
            open_filled(state, session, &insert.table, &query.first.table, statement)
        }
    }
}

// An UPDATE or a DELETE reads its target alone.
fn open_target(
    state: &mut State,
    session: u32,
    name: &TableName,
    statement: &Statement,
) -> Result<(Sequence<Seen>, Seen), Unopened>
    requires parts { HasAllParts (kept_of state.old) }
    requires one { tables_of statement.now ≡ name.now ∷ [] }
    requires alone { IsOverOneTable statement.now }
    ensures sources { IfOk result (λ held. held.0 ≡ []) }
    ensures opened { IfOk result
        (λ held. TakesIn state.old state.new session name.now statement.now held.1) }
    ensures unopened { IfErr result
        (StaysIn state.old state.new
        (refusal_alone (kept_of state.old) session name.now statement.now)) }
{
    let sources = Sequence::new(*state.tables.allocator());
    match open_taken(state, session, name, statement) {
        Ok(target) => Ok((sources, target)),
        Err(why) => Err(why),
    }
}

fn open_change(
    state: &mut State,
    session: u32,
    change: &Dml,
    statement: &Statement,
) -> Result<(Sequence<Seen>, Seen), Unopened>
    requires parts { HasAllParts (kept_of state.old) }
    requires is { statement.now ≡ tree.Dml change.now }
    requires can { CanChange change.now }
    ensures opened { IfOk result (ChangesIn state.old state.new session change.now) }
    ensures unopened { IfErr result
        (StaysIn state.old state.new (change_refusal (kept_of state.old) session change.now)) }
{
    match change {
        Dml::Insert(insert) => open_insert(state, session, insert, statement),
        Dml::Update(update) => open_target(state, session, &update.table, statement),
        Dml::Delete(delete) => open_target(state, session, &delete.table, statement),
        Dml::Copy(_) => unreachable!(),
    }
}

// Where a statement does not begin nothing changes.
fn open_statement(
    state: &mut State,
    session: u32,
    statement: &Statement,
) -> Result<(Sequence<Seen>, Option<Seen>), Unopened>
    requires parts { HasAllParts (kept_of state.old) }
    requires can { CanStart statement.now }
    ensures opened { IfOk result (OpensIn state.old state.new session statement.now) }
    ensures unopened { IfErr result
        (StaysIn state.old state.new (start_refusal (kept_of state.old) session statement.now)) }
{
    match statement {
        Statement::Query(query) => {
            match open_read(state, session, &query.first.table, statement) {
                Ok(sources) => Ok((sources, None)),
                Err(why) => Err(why),
            }
        }
        Statement::Dml(change) => match open_change(state, session, change, statement) {
            Ok((sources, target)) => Ok((sources, Some(target))),
            Err(why) => Err(why),
        },
        _ => unreachable!(),
    }
}

// ---- starts

// The start of a query or a change but for its entry and its moment.
fn begin_statement(state: &mut State, session: u32, index: u32, statement: &Statement) -> Started
    requires parts { HasAllParts (kept_of state.old) }
    requires can { CanStart statement.now }
    ensures { Starts (kept_of state.old) (kept_of state.new) session index statement.now result }
{
    match open_statement(state, session, statement) {
        Ok((sources, target)) => Started::Ticket(Ticket {
            session,
            index,
            sources,
            target,
        }),
        Err(Unopened::Refused(refusal)) => Started::Refused(refusal),
        Err(Unopened::Memory) => Started::Memory,
    }
}

// The statement has begun where there is a ticket, and has ended otherwise, at the next moment. The
// answer is what its entry tells.
fn tell_start(
    state: &mut State,
    program: &Program,
    session: u32,
    index: u32,
    started: &Started,
) -> Told
    requires { IsReady program.now (kept_of state.old) session index }
    ensures kept { IsStarted program.now state.old state.new session index started.now }
    ensures told { result ≡ told_by started.now }
{
    match started {
        Started::Ticket(_) => {
            state.begin_statement(program, session, index);
            Told::Done
        }
        Started::Refused(refusal) => {
            state.end_statement(program, session, index);
            Told::Refused(refusal.number())
        }
        Started::Memory => {
            state.end_statement(program, session, index);
            Told::Memory
        }
    }
}

/// Makes the Start entry of a session's next statement, which is a query or a change: it begins with a
/// ticket, or is refused, or finds no memory; in the last two cases it has ended. The ticket holds the
/// parts of each table that the statement reads, which are those of its target for an UPDATE and a
/// DELETE; these two have their target for themselves until they end, and are refused where another
/// session has it so. No row is copied.
pub fn start(cat: &mut Catalog, session: u32, index: u32, statement: &Statement) -> Started
    requires next { IsNextRead cat.old session index (Ok statement.now) }
    requires kind { IsQueryOrChange statement.now }
    ensures entry { MadeStart cat.old cat.new session index result }
    ensures ticket { GivesTicket cat.new session index statement.now result }
    ensures typed { BeginsTyped statement.now result }
    ensures tables { HoldsTables statement.now result }
{
    let moment = cat.state.moment;
    let started = begin_statement(&mut cat.state, session, index, statement);
    let told = tell_start(&mut cat.state, &cat.program, session, index, &started);
    let entry = session_entry(moment, session, index, EntryKind::Start(told));
    cat.history.push(entry);
    started
}
