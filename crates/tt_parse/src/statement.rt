//! Readers of whole statements, and of those that are no queries and change no table.

ghost use Rattle.std.specs.Prelude.{[], IfOk};
ghost use Rattle.tt_sql.specs.marks.Expressions.{flag_marks};
ghost use Rattle.tt_sql.specs.trees.Lists.{WhenThere};
ghost use Rattle.tt_sql.specs.machine.Factored.{read_statement};
ghost use Rattle.tt_sql.specs.determined.Statements.{IsGivenStatement};
ghost use Rattle.tt_sql.specs.marks.Statements.{statement_marks};
ghost use Rattle.tt_sql.specs.grammar.Written.{begin, commit, rollback, show, spare};
ghost use Rattle.tt_parse.specs.Choices.{on_rows, on_tables, on_transactions, others, ChoosesStatement};
ghost use Rattle.tt_terminal.specs.KindNumbers.{kind_number};
ghost use Rattle.tt_terminal.specs.Reading.{IsKnown, Passes};
ghost use Rattle.tt_terminal.specs.Optional.{either_token};
ghost use Rattle.tt_terminal.specs.Readers.{ReadsPart, ReadsOver};

use crate::change::{copy_of, delete_of, insert_of, update_of};
use crate::select::{explain_of, select_of};
use crate::table::{alter_of, create_of, drop_of, truncate_of, undrop_of};
use crate::wait::wait_of;
use std::alloc::Global;
use tt_sql::{Dml, Statement};
use tt_terminal::error::ParseError;
use tt_terminal::fixed::{after, either_word, flag_of, past, stands};
use tt_terminal::kind::LexemeKind;
use tt_terminal::rest::Rest;

/// What stands behind one of two words that may stand here.
fn past_either<'a>(first: LexemeKind, second: LexemeKind, rest: Rest<'a>) -> Rest<'a>
    requires { IsKnown rest }
    ensures { Passes [] (spare (either_token (kind_number first) (kind_number second)))
        rest.entry [] result }
{
    match either_word(first, second, rest) {
        Some(behind) => behind,
        None => rest,
    }
}

/// BEGIN, or START TRANSACTION.
fn begin_of(rest: Rest<'_>) -> Result<Rest<'_>, ParseError>
    requires { IsKnown rest }
    ensures { ReadsOver [] begin rest.entry result }
{
    if let Some(rest) = rest.word(LexemeKind::Begin) {
        return Ok(past_either(LexemeKind::Work, LexemeKind::Transaction, rest));
    }
    let rest = after(LexemeKind::Start, rest)?;
    after(LexemeKind::Transaction, rest)
}

/// COMMIT.
fn commit_of(rest: Rest<'_>) -> Result<Rest<'_>, ParseError>
    requires { IsKnown rest }
    ensures { ReadsOver [] commit rest.entry result }
{
    let rest = after(LexemeKind::Commit, rest)?;
    Ok(past(LexemeKind::Work, rest))
}

/// ROLLBACK.
fn rollback_of(rest: Rest<'_>) -> Result<Rest<'_>, ParseError>
    requires { IsKnown rest }
    ensures { ReadsOver [] rollback rest.entry result }
{
    let rest = after(LexemeKind::Rollback, rest)?;
    Ok(past(LexemeKind::Work, rest))
}

/// SHOW TABLES: whether HISTORY stands behind it.
fn show_of(rest: Rest<'_>) -> Result<(bool, Rest<'_>), ParseError>
    requires { IsKnown rest }
    ensures { ReadsPart flag_marks show rest.entry result }
{
    let rest = after(LexemeKind::Show, rest)?;
    let rest = after(LexemeKind::Tables, rest)?;
    Ok(flag_of(LexemeKind::History, rest))
}

/// A statement that makes or changes a table, if one stands here.
fn on_table<'a>(alloc: Global, rest: Rest<'a>) -> Result<Option<(Statement, Rest<'a>)>, ParseError>
    requires { IsKnown rest }
    ensures reads { ChoosesStatement on_tables rest.entry result }
    ensures given { IfOk result (λ found. WhenThere (λ x. IsGivenStatement x.0) found) }
{
    if stands(LexemeKind::Create, rest) {
        let (created, rest) = create_of(alloc, rest)?;
        return Ok(Some((created, rest)));
    }
    if stands(LexemeKind::Drop, rest) {
        let (table, rest) = drop_of(alloc, rest)?;
        return Ok(Some((Statement::Drop(table), rest)));
    }
    if stands(LexemeKind::Undrop, rest) {
        let (table, rest) = undrop_of(alloc, rest)?;
        return Ok(Some((Statement::Undrop(table), rest)));
    }
    if stands(LexemeKind::Truncate, rest) {
        let (table, rest) = truncate_of(alloc, rest)?;
        return Ok(Some((Statement::Truncate(table), rest)));
    }
    if stands(LexemeKind::Alter, rest) {
        let (alter, rest) = alter_of(alloc, rest)?;
        return Ok(Some((Statement::Alter(alter), rest)));
    }
    Ok(None)
}

/// A statement that begins or ends a transaction, if one stands here.
fn on_transaction(rest: Rest<'_>) -> Result<Option<(Statement, Rest<'_>)>, ParseError>
    requires { IsKnown rest }
    ensures reads { ChoosesStatement on_transactions rest.entry result }
    ensures given { IfOk result (λ found. WhenThere (λ x. IsGivenStatement x.0) found) }
{
    if stands(LexemeKind::Begin, rest) {
        let rest = begin_of(rest)?;
        return Ok(Some((Statement::Begin, rest)));
    }
    if stands(LexemeKind::Start, rest) {
        let rest = begin_of(rest)?;
        return Ok(Some((Statement::Begin, rest)));
    }
    if stands(LexemeKind::Commit, rest) {
        let rest = commit_of(rest)?;
        return Ok(Some((Statement::Commit, rest)));
    }
    if stands(LexemeKind::Rollback, rest) {
        let rest = rollback_of(rest)?;
        return Ok(Some((Statement::Rollback, rest)));
    }
    Ok(None)
}

/// A statement that changes rows, if one stands here.
fn on_row<'a>(
    alloc: Global,
    levels: u32,
    rest: Rest<'a>,
) -> Result<Option<(Statement, Rest<'a>)>, ParseError>
    requires { IsKnown rest }
    ensures reads { ChoosesStatement (on_rows levels) rest.entry result }
    ensures given { IfOk result (λ found. WhenThere (λ x. IsGivenStatement x.0) found) }
{
    if stands(LexemeKind::Insert, rest) {
        let (insert, rest) = insert_of(alloc, levels, rest)?;
        return Ok(Some((Statement::Dml(Dml::Insert(insert)), rest)));
    }
    if stands(LexemeKind::Update, rest) {
        let (update, rest) = update_of(alloc, levels, rest)?;
        return Ok(Some((Statement::Dml(Dml::Update(update)), rest)));
    }
    if stands(LexemeKind::Delete, rest) {
        let (delete, rest) = delete_of(alloc, levels, rest)?;
        return Ok(Some((Statement::Dml(Dml::Delete(delete)), rest)));
    }
    if stands(LexemeKind::Copy, rest) {
        let (copy, rest) = copy_of(alloc, rest)?;
        return Ok(Some((Statement::Dml(Dml::Copy(copy)), rest)));
    }
    Ok(None)
}

/// A statement that waits or tells something, which has to stand here.
fn other_of<'a>(
    alloc: Global,
    levels: u32,
    rest: Rest<'a>,
) -> Result<(Statement, Rest<'a>), ParseError>
    requires { IsKnown rest }
    ensures reads { ReadsPart statement_marks (others levels) rest.entry result }
    ensures given { IfOk result (λ x. IsGivenStatement x.0) }
{
    if stands(LexemeKind::Call, rest) {
        let (wait, rest) = wait_of(alloc, rest)?;
        return Ok((Statement::Wait(wait), rest));
    }
    if stands(LexemeKind::Explain, rest) {
        let (query, rest) = explain_of(alloc, levels, rest)?;
        return Ok((Statement::Explain(query), rest));
    }
    let (history, rest) = show_of(rest)?;
    Ok((Statement::Show(history), rest))
}

/// A statement, which may have so many open levels.
pub fn statement_of<'a>(
    alloc: Global,
    levels: u32,
    rest: Rest<'a>,
) -> Result<(Statement, Rest<'a>), ParseError>
    requires { IsKnown rest }
    ensures reads { ReadsPart statement_marks (read_statement levels) rest.entry result }
    ensures given { IfOk result (λ x. IsGivenStatement x.0) }
{
    if stands(LexemeKind::Select, rest) {
        return select_of(alloc, levels, rest);
    }
    if let Some(found) = on_row(alloc, levels, rest)? {
        return Ok(found);
    }
    if let Some(found) = on_table(alloc, rest)? {
        return Ok(found);
    }
    if let Some(found) = on_transaction(rest)? {
        return Ok(found);
    }
    other_of(alloc, levels, rest)
}
