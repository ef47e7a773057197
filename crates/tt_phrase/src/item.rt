//! Readers of what a query selects.

ghost use Rattle.std.specs.Prelude.{◌≡◌, ℕ, ◌∷◌, IfOk};
ghost use Rattle.tt_sql.specs.grammar.Grammar.{At, nowhere};
ghost use Rattle.tt_sql.specs.machine.Factored.{read_item};
ghost use Rattle.tt_sql.specs.determined.Queries.{IsGivenItem, IsGivenSelection};
ghost use Rattle.tt_sql.specs.trees.Lists.{IsListed};
ghost use Rattle.tt_sql.specs.marks.Queries.{item_marks, selection_marks};
ghost use Rattle.tt_sql.specs.grammar.Combinators.{listed};
ghost use Rattle.tt_terminal.specs.declared.rest.Rest.{Rest};
ghost use Rattle.tt_phrase.specs.Items.{counted_marks, counted_part, closed_name, closed_marks, IsCalledOrNone, selected};
ghost use Rattle.tt_terminal.specs.KindNumbers.{kind_number};
ghost use Rattle.tt_terminal.specs.Reading.{IsKnown};
ghost use Rattle.tt_terminal.specs.Readers.{ReadsPart, ReadsList};

use crate::expression::expr_of;
use sqlite_items::Items;
use std::alloc::Global;
use tt_sql::{ColumnName, Item, Selection};
use tt_terminal::error::ParseError;
use tt_terminal::fixed::after;
use tt_terminal::kind::LexemeKind;
use tt_terminal::name::column_of;
use tt_terminal::rest::Rest;

/// The place of the word of an aggregate and what stands behind its bracket, if both stand here.
fn bracket_behind(kind: LexemeKind, rest: Rest<'_>) -> Option<(u32, Rest<'_>)>
    requires { IsKnown rest }
    ensures { IsCalledOrNone (kind_number kind) rest.entry result }
{
    let (place, bracket) = rest.placed(kind)?;
    let behind = bracket.word(LexemeKind::Open)?;
    Some((place, behind))
}

/// What COUNT counts: the values of a column, or the rows. The bracket is closed.
fn counted<'a>(alloc: Global, rest: Rest<'a>) -> Result<(Option<ColumnName>, Rest<'a>), ParseError>
    requires { IsKnown rest }
    ensures { ReadsPart counted_marks counted_part rest.entry result }
{
    if let Some(rest) = rest.word(LexemeKind::Star) {
        let rest = after(LexemeKind::Close, rest)?;
        return Ok((None, rest));
    }
    let (column, rest) = column_of(alloc, rest)?;
    let rest = after(LexemeKind::Close, rest)?;
    Ok((Some(column), rest))
}

/// The column of an aggregate. The bracket is closed.
fn closed_column<'a>(alloc: Global, rest: Rest<'a>) -> Result<(ColumnName, Rest<'a>), ParseError>
    requires { IsKnown rest }
    ensures { (n : ℕ) → ReadsPart (closed_marks n) (closed_name n) rest.entry result }
{
    let (column, rest) = column_of(alloc, rest)?;
    let rest = after(LexemeKind::Close, rest)?;
    Ok((column, rest))
}

/// COUNT of a column, or of the rows.
fn count_item(place: u32, column: Option<ColumnName>) -> Item
    ensures marks { item_marks result ≡ At place ∷ counted_marks column }
    ensures given { IsGivenItem result }
{
    match column {
        Some(column) => Item::Count(place, column),
        None => Item::CountAll(place),
    }
}

/// An item. The word of an aggregate is a name unless a bracket stands behind it.
fn item_of<'a>(alloc: Global, levels: u32, rest: Rest<'a>) -> Result<(Item, Rest<'a>), ParseError>
    requires { IsKnown rest }
    ensures reads { ReadsPart item_marks (read_item nowhere levels) rest.entry result }
    ensures given { IfOk result (λ x. IsGivenItem x.0) }
{
    if let Some((place, rest)) = bracket_behind(LexemeKind::Count, rest) {
        let (column, rest) = counted(alloc, rest)?;
        return Ok((count_item(place, column), rest));
    }
    if let Some((place, rest)) = bracket_behind(LexemeKind::Sum, rest) {
        let (column, rest) = closed_column(alloc, rest)?;
        return Ok((Item::Sum(place, column), rest));
    }
    if let Some((place, rest)) = bracket_behind(LexemeKind::Min, rest) {
        let (column, rest) = closed_column(alloc, rest)?;
        return Ok((Item::Min(place, column), rest));
    }
    if let Some((place, rest)) = bracket_behind(LexemeKind::Max, rest) {
        let (column, rest) = closed_column(alloc, rest)?;
        return Ok((Item::Max(place, column), rest));
    }
    let (value, rest) = expr_of(alloc, levels, rest)?;
    Ok((Item::Expr(value), rest))
}

/// The items of a query.
fn items_of<'a>(
    alloc: Global,
    levels: u32,
    rest: Rest<'a>,
) -> Result<(Items<Item>, Rest<'a>), ParseError>
    requires { IsKnown rest }
    ensures reads { ReadsList item_marks (listed (read_item nowhere levels)) rest.entry result }
    ensures given { IfOk result (λ x. IsListed IsGivenItem x.0) }
{
    let mut items = Items::new(alloc);
    let mut left = rest;
    loop {
        let (part, behind) = item_of(alloc, levels, left)?;
        items.push(part)?;
        let Some(next) = behind.word(LexemeKind::Comma) else {
            return Ok((items, behind));
        };
        left = next;
    }
}

/// A star, or the items of a query.
pub fn selection_of<'a>(
    alloc: Global,
    levels: u32,
    rest: Rest<'a>,
) -> Result<(Selection, Rest<'a>), ParseError>
    requires { IsKnown rest }
    ensures reads { ReadsPart selection_marks (selected levels) rest.entry result }
    ensures given { IfOk result (λ x. IsGivenSelection x.0) }
{
    if let Some((place, rest)) = rest.placed(LexemeKind::Star) {
        return Ok((Selection::All(place), rest));
    }
    let (items, rest) = items_of(alloc, levels, rest)?;
    Ok((Selection::Listed(items), rest))
}
