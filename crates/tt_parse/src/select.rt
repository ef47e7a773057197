//! Readers of statements that begin with SELECT, and of EXPLAIN.

ghost use Rattle.std.specs.Prelude.{IfOk};
ghost use Rattle.tt_sql.specs.marks.Expressions.{table_marks};
ghost use Rattle.tt_sql.specs.grammar.Combinators.{one, quoted_name, ◌▸◌};
ghost use Rattle.tt_sql.specs.determined.Queries.{IsGivenQuery};
ghost use Rattle.tt_sql.specs.marks.Queries.{query_marks};
ghost use Rattle.tt_sql.specs.machine.Factored.{read_query, read_select};
ghost use Rattle.tt_sql.specs.determined.Statements.{IsGivenStatement};
ghost use Rattle.tt_sql.specs.marks.Statements.{statement_marks};
ghost use Rattle.tt_sql.specs.grammar.TokenKinds.{EXPLAIN};
ghost use Rattle.tt_terminal.specs.Reading.{IsKnown};
ghost use Rattle.tt_phrase.specs.Selects.{ReadsIf, depth_kinds, view_kinds, FollowOrNone, view_marks, depth_marks};
ghost use Rattle.tt_terminal.specs.Readers.{ReadsPart};

use std::alloc::Global;
use tt_phrase::query::query_of;
use tt_sql::{Name, Query, Statement, TableName};
use tt_terminal::error::ParseError;
use tt_terminal::fixed::{after, either_word};
use tt_terminal::kind::LexemeKind;
use tt_terminal::name::upper_text;
use tt_terminal::quoted::optional_quoted;
use tt_terminal::rest::Rest;

/// What stands behind the words of the view of storage up to its dot, if they stand here.
fn view_words(rest: Rest<'_>) -> Option<Rest<'_>>
    requires { IsKnown rest }
    ensures { FollowOrNone view_kinds rest.entry result }
{
    let rest = rest.word(LexemeKind::Select)?;
    let rest = rest.word(LexemeKind::Star)?;
    let rest = rest.word(LexemeKind::From)?;
    let rest = rest.word(LexemeKind::InformationSchema)?;
    rest.word(LexemeKind::Dot)
}

/// What stands behind the words of the depth of a table up to its bracket, if they stand here.
fn depth_words(rest: Rest<'_>) -> Option<Rest<'_>>
    requires { IsKnown rest }
    ensures { FollowOrNone depth_kinds rest.entry result }
{
    let rest = rest.word(LexemeKind::Select)?;
    let rest = rest.word(LexemeKind::SystemClusteringDepth)?;
    rest.word(LexemeKind::Open)
}

/// What stands behind the view of storage, if it stands here.
fn view_of(rest: Rest<'_>) -> Result<Option<Rest<'_>>, ParseError>
    requires { IsKnown rest }
    ensures { ReadsIf view_kinds (λ s. view_marks) (λ s. s) rest.entry result }
{
    let Some(rest) = view_words(rest) else {
        return Ok(None);
    };
    let rest = after(LexemeKind::TableStorageMetrics, rest)?;
    Ok(Some(rest))
}

/// The table whose name a quoted text is.
fn quoted_table_of<'a>(alloc: Global, rest: Rest<'a>) -> Result<(TableName, Rest<'a>), ParseError>
    requires { IsKnown rest }
    ensures { ReadsPart table_marks quoted_name rest.entry result }
{
    let Some(_) = either_word(LexemeKind::NameText, LexemeKind::UnitText, rest) else {
        return Err(rest.fault());
    };
    let Some((quoted, behind)) = optional_quoted(alloc, rest)? else {
        unreachable!();
    };
    let text = upper_text(alloc, quoted.text.as_str().as_bytes())?;
    let place = quoted.place;
    let name = Name { text, place };
    Ok((TableName { schema: None, name }, behind))
}

/// The table whose depth is asked for, if such a statement stands here.
fn depth_of<'a>(alloc: Global, rest: Rest<'a>) -> Result<Option<(TableName, Rest<'a>)>, ParseError>
    requires { IsKnown rest }
    ensures { ReadsIf depth_kinds (λ x. depth_marks x.0) (λ x. x.1) rest.entry result }
{
    let Some(rest) = depth_words(rest) else {
        return Ok(None);
    };
    let (table, rest) = quoted_table_of(alloc, rest)?;
    let rest = after(LexemeKind::Close, rest)?;
    Ok(Some((table, rest)))
}

/// A statement that begins with SELECT: the view of storage, the depth of a table, or a query.
pub fn select_of<'a>(
    alloc: Global,
    levels: u32,
    rest: Rest<'a>,
) -> Result<(Statement, Rest<'a>), ParseError>
    requires { IsKnown rest }
    ensures reads { ReadsPart statement_marks (read_select levels) rest.entry result }
    ensures given { IfOk result (λ x. IsGivenStatement x.0) }
{
    if let Some(rest) = view_of(rest)? {
        return Ok((Statement::Metrics, rest));
    }
    if let Some((table, rest)) = depth_of(alloc, rest)? {
        return Ok((Statement::Depth(table), rest));
    }
    let (query, rest) = query_of(alloc, levels, rest)?;
    Ok((Statement::Query(query), rest))
}

/// EXPLAIN: the query that is explained.
pub fn explain_of<'a>(
    alloc: Global,
    levels: u32,
    rest: Rest<'a>,
) -> Result<(Query, Rest<'a>), ParseError>
    requires { IsKnown rest }
    ensures reads { ReadsPart query_marks (one EXPLAIN ▸ read_query levels) rest.entry result }
    ensures given { IfOk result (λ x. IsGivenQuery x.0) }
{
    let rest = after(LexemeKind::Explain, rest)?;
    query_of(alloc, levels, rest)
}
