//! Readers of statements that change rows.

ghost use Rattle.std.specs.Prelude.{IfOk, ⊤};
ghost use Rattle.tt_sql.specs.marks.Changes.{copy_marks, delete_marks, insert_marks, insert_source_marks, names_marks, set_marks, tuple_marks, update_marks};
ghost use Rattle.tt_sql.specs.trees.Lists.{IsListed, WhenThere};
ghost use Rattle.tt_sql.specs.determined.Statements.{IsGivenDml, IsGivenInsertSource, IsGivenSet, IsGivenTuple};
ghost use Rattle.tt_sql.specs.declared.change.Dml.TheVariants as dml;
ghost use Rattle.tt_sql.specs.grammar.Combinators.{brackets, listed, maybe, name as name_part};
ghost use Rattle.tt_sql.specs.machine.Factored.{read_delete, read_insert, read_set, read_update};
ghost use Rattle.tt_sql.specs.grammar.Written.{copy, tuple};
ghost use Rattle.tt_sql.specs.determined.Expressions.{IsGivenPredicate};
ghost use Rattle.tt_parse.specs.Changes.{changes, changes_marks, inserts, inserts_marks, insert_source};
ghost use Rattle.tt_terminal.specs.Reading.{IsKnown};
ghost use Rattle.tt_terminal.specs.Readers.{ReadsPart, ReadsList, ReadsMaybe};

use sqlite_items::Items;
use std::alloc::Global;
use tt_phrase::expression::expr_of;
use tt_phrase::literals::literals_of;
use tt_phrase::predicate::filter_of;
use tt_phrase::query::query_of;
use tt_sql::{Copy, Delete, Insert, InsertSource, Name, Predicate, Set, Tuple, Update};
use tt_terminal::error::ParseError;
use tt_terminal::fixed::{after, place_of};
use tt_terminal::kind::LexemeKind;
use tt_terminal::name::{name_of, table_of};
use tt_terminal::pair::{followed, paired};
use tt_terminal::quoted::quoted_of;
use tt_terminal::rest::Rest;

/// The names in a list of columns.
fn names_of<'a>(alloc: Global, rest: Rest<'a>) -> Result<(Items<Name>, Rest<'a>), ParseError>
    requires { IsKnown rest }
    ensures reads { ReadsPart names_marks (listed name_part) rest.entry result }
    ensures given { IfOk result (λ x. IsListed (λ n. ⊤) x.0) }
{
    let mut names = Items::new(alloc);
    let mut left = rest;
    loop {
        let (part, behind) = name_of(alloc, left)?;
        names.push(part)?;
        let Some(next) = behind.word(LexemeKind::Comma) else {
            return Ok((names, behind));
        };
        left = next;
    }
}

/// The list of columns of an INSERT, if it stands here.
fn optional_names<'a>(
    alloc: Global,
    rest: Rest<'a>,
) -> Result<(Option<Items<Name>>, Rest<'a>), ParseError>
    requires { IsKnown rest }
    ensures reads { ReadsMaybe names_marks (maybe (brackets (listed name_part))) rest.entry result }
    ensures given { IfOk result (λ x. WhenThere (λ names. IsListed (λ n. ⊤) names) x.0) }
{
    let Some(rest) = rest.word(LexemeKind::Open) else {
        return Ok((None, rest));
    };
    let (list, rest) = names_of(alloc, rest)?;
    let (names, rest) = followed(LexemeKind::Close, list, rest)?;
    Ok((Some(names), rest))
}

/// The values of a row, in brackets.
fn tuple_of<'a>(alloc: Global, rest: Rest<'a>) -> Result<(Tuple, Rest<'a>), ParseError>
    requires { IsKnown rest }
    ensures reads { ReadsPart tuple_marks tuple rest.entry result }
    ensures given { IfOk result (λ x. IsGivenTuple x.0) }
{
    let (place, rest) = place_of(LexemeKind::Open, rest)?;
    let (list, rest) = literals_of(alloc, rest)?;
    let (values, rest) = followed(LexemeKind::Close, list, rest)?;
    Ok((Tuple { place, values }, rest))
}

/// The rows of an INSERT.
fn tuples_of<'a>(alloc: Global, rest: Rest<'a>) -> Result<(Items<Tuple>, Rest<'a>), ParseError>
    requires { IsKnown rest }
    ensures reads { ReadsList tuple_marks (listed tuple) rest.entry result }
    ensures given { IfOk result (λ x. IsListed IsGivenTuple x.0) }
{
    let mut tuples = Items::new(alloc);
    let mut left = rest;
    loop {
        let (part, behind) = tuple_of(alloc, left)?;
        tuples.push(part)?;
        let Some(next) = behind.word(LexemeKind::Comma) else {
            return Ok((tuples, behind));
        };
        left = next;
    }
}

/// COPY INTO.
pub fn copy_of<'a>(alloc: Global, rest: Rest<'a>) -> Result<(Copy, Rest<'a>), ParseError>
    requires { IsKnown rest }
    ensures { ReadsPart copy_marks copy rest.entry result }
{
    let rest = after(LexemeKind::Copy, rest)?;
    let rest = after(LexemeKind::Into, rest)?;
    let (name, rest) = table_of(alloc, rest)?;
    let (into, rest) = followed(LexemeKind::From, name, rest)?;
    let (table, file, rest) = paired(into, quoted_of(alloc, rest))?;
    Ok((Copy { table, file }, rest))
}

/// A column and its new value.
fn set_of<'a>(alloc: Global, levels: u32, rest: Rest<'a>) -> Result<(Set, Rest<'a>), ParseError>
    requires { IsKnown rest }
    ensures reads { ReadsPart set_marks (read_set levels) rest.entry result }
    ensures given { IfOk result (λ x. IsGivenSet x.0) }
{
    let (name, rest) = name_of(alloc, rest)?;
    let (target, rest) = followed(LexemeKind::Equal, name, rest)?;
    let (column, value, rest) = paired(target, expr_of(alloc, levels, rest))?;
    Ok((Set { column, value }, rest))
}

/// The columns of an UPDATE and their new values.
fn sets_of<'a>(
    alloc: Global,
    levels: u32,
    rest: Rest<'a>,
) -> Result<(Items<Set>, Rest<'a>), ParseError>
    requires { IsKnown rest }
    ensures reads { ReadsList set_marks (listed (read_set levels)) rest.entry result }
    ensures given { IfOk result (λ x. IsListed IsGivenSet x.0) }
{
    let mut sets = Items::new(alloc);
    let mut left = rest;
    loop {
        let (part, behind) = set_of(alloc, levels, left)?;
        sets.push(part)?;
        let Some(next) = behind.word(LexemeKind::Comma) else {
            return Ok((sets, behind));
        };
        left = next;
    }
}

/// What an INSERT puts in: the list of columns, if it stands here, and the rows.
fn inserted_of<'a>(
    alloc: Global,
    levels: u32,
    rest: Rest<'a>,
) -> Result<((Option<Items<Name>>, InsertSource), Rest<'a>), ParseError>
    requires { IsKnown rest }
    ensures reads { ReadsPart inserts_marks (inserts levels) rest.entry result }
    ensures columns { IfOk result (λ x. WhenThere (λ names. IsListed (λ n. ⊤) names) x.0.0) }
    ensures source { IfOk result (λ x. IsGivenInsertSource x.0.1) }
{
    let (names, rest) = optional_names(alloc, rest)?;
    let (columns, source, rest) = paired(names, insert_source_of(alloc, levels, rest))?;
    Ok(((columns, source), rest))
}

/// INSERT.
pub fn insert_of<'a>(
    alloc: Global,
    levels: u32,
    rest: Rest<'a>,
) -> Result<(Insert, Rest<'a>), ParseError>
    requires { IsKnown rest }
    ensures reads { ReadsPart insert_marks (read_insert levels) rest.entry result }
    ensures given { IfOk result (λ x. IsGivenDml (dml.Insert x.0)) }
{
    let rest = after(LexemeKind::Insert, rest)?;
    let rest = after(LexemeKind::Into, rest)?;
    let (name, rest) = table_of(alloc, rest)?;
    let (table, rows, rest) = paired(name, inserted_of(alloc, levels, rest))?;
    let (columns, source) = rows;
    Ok((
        Insert {
            table,
            columns,
            source,
        },
        rest,
    ))
}

/// Where the rows of an INSERT come from.
fn insert_source_of<'a>(
    alloc: Global,
    levels: u32,
    rest: Rest<'a>,
) -> Result<(InsertSource, Rest<'a>), ParseError>
    requires { IsKnown rest }
    ensures reads { ReadsPart insert_source_marks (insert_source levels) rest.entry result }
    ensures given { IfOk result (λ x. IsGivenInsertSource x.0) }
{
    if let Some(rest) = rest.word(LexemeKind::Values) {
        let (tuples, rest) = tuples_of(alloc, rest)?;
        return Ok((InsertSource::Values(tuples), rest));
    }
    let (query, rest) = query_of(alloc, levels, rest)?;
    Ok((InsertSource::Query(query), rest))
}

/// What an UPDATE changes, and where.
fn changes_of<'a>(
    alloc: Global,
    levels: u32,
    rest: Rest<'a>,
) -> Result<((Items<Set>, Option<Predicate>), Rest<'a>), ParseError>
    requires { IsKnown rest }
    ensures reads { ReadsPart changes_marks (changes levels) rest.entry result }
    ensures sets { IfOk result (λ x. IsListed IsGivenSet x.0.0) }
    ensures filter { IfOk result (λ x. WhenThere IsGivenPredicate x.0.1) }
{
    let rest = after(LexemeKind::Set, rest)?;
    let (list, rest) = sets_of(alloc, levels, rest)?;
    let (sets, filter, rest) = paired(list, filter_of(alloc, levels, rest))?;
    Ok(((sets, filter), rest))
}

/// UPDATE.
pub fn update_of<'a>(
    alloc: Global,
    levels: u32,
    rest: Rest<'a>,
) -> Result<(Update, Rest<'a>), ParseError>
    requires { IsKnown rest }
    ensures reads { ReadsPart update_marks (read_update levels) rest.entry result }
    ensures given { IfOk result (λ x. IsGivenDml (dml.Update x.0)) }
{
    let rest = after(LexemeKind::Update, rest)?;
    let (name, rest) = table_of(alloc, rest)?;
    let (table, changes, rest) = paired(name, changes_of(alloc, levels, rest))?;
    let (sets, filter) = changes;
    Ok((
        Update {
            table,
            sets,
            filter,
        },
        rest,
    ))
}

/// DELETE.
pub fn delete_of<'a>(
    alloc: Global,
    levels: u32,
    rest: Rest<'a>,
) -> Result<(Delete, Rest<'a>), ParseError>
    requires { IsKnown rest }
    ensures reads { ReadsPart delete_marks (read_delete levels) rest.entry result }
    ensures given { IfOk result (λ x. IsGivenDml (dml.Delete x.0)) }
{
    let rest = after(LexemeKind::Delete, rest)?;
    let rest = after(LexemeKind::From, rest)?;
    let (name, rest) = table_of(alloc, rest)?;
    let (table, filter, rest) = paired(name, filter_of(alloc, levels, rest))?;
    Ok((Delete { table, filter }, rest))
}
