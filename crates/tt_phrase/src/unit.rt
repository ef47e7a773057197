//! Readers of the units of a predicate in which no unit stands.

ghost use Rattle.std.specs.Prelude.{false, true, ◌++◌, IfOk};
ghost use Rattle.tt_sql.specs.grammar.Grammar.{nowhere};
ghost use Rattle.tt_sql.specs.determined.Expressions.{AreGiven, IsGivenUnit, operand_leaves};
ghost use Rattle.tt_sql.specs.trees.Lists.{IsListed};
ghost use Rattle.tt_value.specs.values.RowText.{IsPrintableValue};
ghost use Rattle.tt_sql.specs.marks.Expressions.{comparison_marks, flag_marks, literal_marks, operand_marks, unit_marks};
ghost use Rattle.tt_sql.specs.grammar.Combinators.{brackets, listed, quoted};
ghost use Rattle.tt_sql.specs.machine.Factored.{in_or_between, read_operand, read_simple, unit_end};
ghost use Rattle.tt_sql.specs.grammar.Written.{compare, literal as literal_part};
ghost use Rattle.tt_phrase.specs.Predicates.{bounds, bounds_marks, CompletesUnit, OffersOrNone, starts_with_kinds, starts_with_end};
ghost use Rattle.tt_terminal.specs.Reading.{IsKnown};
ghost use Rattle.tt_phrase.specs.Selects.{FollowOrNone};
ghost use Rattle.tt_terminal.specs.Readers.{ReadsPart, ReadsList};

use crate::expression::optional_date;
use crate::literals::literals_of;
use sqlite_items::Items;
use std::alloc::Global;
use tt_sql::{ColumnName, Comparison, Literal, Operand, Unit};
use tt_terminal::error::ParseError;
use tt_terminal::fixed::{after, flag_of};
use tt_terminal::kind::LexemeKind;
use tt_terminal::literal::literal_of;
use tt_terminal::name::{column_of, optional_name};
use tt_terminal::pair::{followed, paired};
use tt_terminal::quoted::quoted_of;
use tt_terminal::rest::Rest;

/// A comparison, if one stands here.
fn optional_comparison(rest: Rest<'_>) -> Option<(Comparison, Rest<'_>)>
    requires { IsKnown rest }
    ensures { OffersOrNone compare comparison_marks rest.entry result }
{
    if let Some(behind) = rest.word(LexemeKind::Equal) {
        return Some((Comparison::Equal, behind));
    }
    if let Some(behind) = rest.word(LexemeKind::Unequal) {
        return Some((Comparison::NotEqual, behind));
    }
    if let Some(behind) = rest.word(LexemeKind::Less) {
        return Some((Comparison::Less, behind));
    }
    if let Some(behind) = rest.word(LexemeKind::LessEqual) {
        return Some((Comparison::LessOrEqual, behind));
    }
    if let Some(behind) = rest.word(LexemeKind::Greater) {
        return Some((Comparison::Greater, behind));
    }
    let behind = rest.word(LexemeKind::GreaterEqual)?;
    Some((Comparison::GreaterOrEqual, behind))
}

/// The name or the literal that has to stand here.
fn operand_of<'a>(alloc: Global, rest: Rest<'a>) -> Result<(Operand, Rest<'a>), ParseError>
    requires { IsKnown rest }
    ensures reads { ReadsPart operand_marks (read_operand nowhere) rest.entry result }
    ensures given { IfOk result (λ x. AreGiven (operand_leaves x.0)) }
{
    if let Some((date, behind)) = optional_date(rest) {
        return Ok((Operand::Literal(date), behind));
    }
    if let Some((name, behind)) = optional_name(alloc, rest)? {
        let table = None;
        return Ok((Operand::Column(ColumnName { table, name }), behind));
    }
    let (literal, behind) = literal_of(alloc, rest)?;
    Ok((Operand::Literal(literal), behind))
}

/// The literals of IN, in their brackets.
fn bracketed_literals<'a>(
    alloc: Global,
    rest: Rest<'a>,
) -> Result<(Items<Literal>, Rest<'a>), ParseError>
    requires { IsKnown rest }
    ensures reads { ReadsList literal_marks (brackets (listed literal_part)) rest.entry result }
    ensures given { IfOk result (λ x. IsListed (λ l. IsPrintableValue l.value) x.0) }
{
    let rest = after(LexemeKind::Open, rest)?;
    let (literals, rest) = literals_of(alloc, rest)?;
    let rest = after(LexemeKind::Close, rest)?;
    Ok((literals, rest))
}

/// BETWEEN with its bounds.
fn bounds_of<'a>(
    alloc: Global,
    rest: Rest<'a>,
) -> Result<((Literal, Literal), Rest<'a>), ParseError>
    requires { IsKnown rest }
    ensures reads { ReadsPart bounds_marks bounds rest.entry result }
    ensures least { IfOk result (λ x. IsPrintableValue x.0.0.value) }
    ensures greatest { IfOk result (λ x. IsPrintableValue x.0.1.value) }
{
    let rest = after(LexemeKind::Between, rest)?;
    let (literal, rest) = literal_of(alloc, rest)?;
    let (first, rest) = followed(LexemeKind::And, literal, rest)?;
    let (least, greatest, rest) = paired(first, literal_of(alloc, rest))?;
    Ok(((least, greatest), rest))
}

/// IN with its literals or BETWEEN with its bounds, behind an operand and NOT, where that stands there.
fn choice_of<'a>(
    alloc: Global,
    operand: Operand,
    negated: bool,
    rest: Rest<'a>,
) -> Result<(Unit, Rest<'a>), ParseError>
    requires known { IsKnown rest }
    requires given { AreGiven (operand_leaves operand) }
    ensures reads { CompletesUnit (operand_marks operand ++ flag_marks negated)
        in_or_between rest.entry result }
    ensures given { IfOk result (λ x. IsGivenUnit x.0) }
{
    if let Some(rest) = rest.word(LexemeKind::In) {
        let (tested, literals, rest) = paired(operand, bracketed_literals(alloc, rest))?;
        return Ok((Unit::In(tested, negated, literals), rest));
    }
    let (tested, bounds, rest) = paired(operand, bounds_of(alloc, rest))?;
    let (least, greatest) = bounds;
    Ok((Unit::Between(tested, negated, least, greatest), rest))
}

/// The unit that begins with this operand.
fn end_of<'a>(
    alloc: Global,
    operand: Operand,
    rest: Rest<'a>,
) -> Result<(Unit, Rest<'a>), ParseError>
    requires known { IsKnown rest }
    requires given { AreGiven (operand_leaves operand) }
    ensures reads { CompletesUnit (operand_marks operand) unit_end rest.entry result }
    ensures given { IfOk result (λ x. IsGivenUnit x.0) }
{
    if let Some((comparison, rest)) = optional_comparison(rest) {
        let (first, second, rest) = paired(operand, operand_of(alloc, rest))?;
        return Ok((Unit::Compare(first, comparison, second), rest));
    }
    if let Some(rest) = rest.word(LexemeKind::Is) {
        let (negated, rest) = flag_of(LexemeKind::Not, rest);
        let (tested, rest) = followed(LexemeKind::Null, operand, rest)?;
        return Ok((Unit::IsNull(tested, negated), rest));
    }
    if let Some(rest) = rest.word(LexemeKind::Not) {
        return choice_of(alloc, operand, true, rest);
    }
    choice_of(alloc, operand, false, rest)
}

/// What stands behind STARTSWITH and its bracket, if both stand here.
fn starts_with_bracket(rest: Rest<'_>) -> Option<Rest<'_>>
    requires { IsKnown rest }
    ensures { FollowOrNone starts_with_kinds rest.entry result }
{
    let rest = rest.word(LexemeKind::Startswith)?;
    rest.word(LexemeKind::Open)
}

/// The column and the text of STARTSWITH.
fn starts_with_of<'a>(alloc: Global, rest: Rest<'a>) -> Result<(Unit, Rest<'a>), ParseError>
    requires { IsKnown rest }
    ensures reads { ReadsPart unit_marks starts_with_end rest.entry result }
    ensures given { IfOk result (λ x. IsGivenUnit x.0) }
{
    let (column, rest) = column_of(alloc, rest)?;
    let rest = after(LexemeKind::Comma, rest)?;
    let (front, rest) = quoted_of(alloc, rest)?;
    let rest = after(LexemeKind::Close, rest)?;
    Ok((Unit::StartsWith(column, front), rest))
}

/// The unit that has to stand here, where NOT and brackets are none.
pub fn simple_of<'a>(alloc: Global, rest: Rest<'a>) -> Result<(Unit, Rest<'a>), ParseError>
    requires { IsKnown rest }
    ensures reads { ReadsPart unit_marks read_simple rest.entry result }
    ensures given { IfOk result (λ x. IsGivenUnit x.0) }
{
    if let Some(inside) = starts_with_bracket(rest) {
        return starts_with_of(alloc, inside);
    }
    let (operand, behind) = operand_of(alloc, rest)?;
    end_of(alloc, operand, behind)
}
