//! Readers of expressions.

ghost use Rattle.std.specs.Prelude.{IfOk, MatchOption};
ghost use Rattle.tt_sql.specs.grammar.Grammar.{nowhere};
ghost use Rattle.tt_sql.specs.marks.Expressions.{sign_marks, expr_marks, term_marks, addend_marks, factor_marks};
ghost use Rattle.tt_sql.specs.trees.Lists.{Each, WhenThere};
ghost use Rattle.tt_sql.specs.determined.Expressions.{IsGivenAddend, IsGivenExpr, IsGivenFactor, IsGivenTerm};
ghost use Rattle.tt_sql.specs.grammar.Written.{sign as sign_part};
ghost use Rattle.tt_sql.specs.machine.Factored.{read_expr, read_factor, read_factors, read_terms, read_other};
ghost use Rattle.tt_terminal.specs.Reading.{IsKnown};
ghost use Rattle.tt_phrase.specs.Factors.{IsDate, IsNoDate, last_minus, nested, IsSimpleOrNone, whole_term};
ghost use Rattle.tt_phrase.specs.Predicates.{OffersOrNone};
ghost use Rattle.tt_terminal.specs.Readers.{ReadsPart, ReadsMany};

use sqlite_items::{Boxed, Items};
use std::alloc::{AllocError, Global};
use tt_sql::{Addend, ColumnName, Expr, Factor, Literal, Sign, Term};
use tt_terminal::error::ParseError;
use tt_terminal::kind::LexemeKind;
use tt_terminal::literal::{date_literal, int_literal, null_literal, text_literal, whole_literal};
use tt_terminal::name::{optional_name, optional_negative, optional_number};
use tt_terminal::pair::{followed, paired};
use tt_terminal::quoted::{optional_day, optional_quoted};
use tt_terminal::rest::Rest;

/// A sign between two terms, if one stands here.
fn optional_sign(rest: Rest<'_>) -> Option<(Sign, Rest<'_>)>
    requires { IsKnown rest }
    ensures { OffersOrNone sign_part sign_marks rest.entry result }
{
    if let Some(behind) = rest.word(LexemeKind::Plus) {
        return Some((Sign::Plus, behind));
    }
    let behind = rest.word(LexemeKind::Minus)?;
    Some((Sign::Minus, behind))
}

/// The word DATE and a date's text as a literal, if they stand here.
pub fn optional_date(rest: Rest<'_>) -> Option<(Literal, Rest<'_>)>
    requires { IsKnown rest }
    ensures { MatchOption result (IsNoDate rest.entry) (λ x. IsDate rest.entry x.0 x.1) }
{
    let (place, text) = rest.placed(LexemeKind::Date)?;
    let (day, behind) = optional_day(text)?;
    Some((date_literal(day, place), behind))
}

/// A factor that is one value or one name, if one stands here. A number without a minus is none.
fn optional_simple<'a>(
    alloc: Global,
    rest: Rest<'a>,
) -> Result<Option<(Factor, Rest<'a>)>, AllocError>
    requires { IsKnown rest }
    ensures reads { IfOk result (IsSimpleOrNone rest.entry) }
    ensures given { IfOk result (λ found. WhenThere (λ x. IsGivenFactor x.0) found) }
{
    if let Some((place, behind)) = rest.placed(LexemeKind::Null) {
        return Ok(Some((Factor::Literal(null_literal(place)), behind)));
    }
    if let Some((quoted, behind)) = optional_quoted(alloc, rest)? {
        return Ok(Some((Factor::Literal(text_literal(quoted)), behind)));
    }
    if let Some((date, behind)) = optional_date(rest) {
        return Ok(Some((Factor::Literal(date), behind)));
    }
    if let Some((name, behind)) = optional_name(alloc, rest)? {
        return Ok(Some((Factor::Column(ColumnName { table: None, name }), behind)));
    }
    Ok(None)
}

/// A minus and a number, where no level is left.
fn last_minus_of(rest: Rest<'_>) -> Result<(Factor, Rest<'_>), ParseError>
    requires { IsKnown rest }
    ensures reads { ReadsPart factor_marks last_minus rest.entry result }
    ensures given { IfOk result (λ x. IsGivenFactor x.0) }
{
    let Some((place, behind)) = rest.placed(LexemeKind::Minus) else {
        return Err(rest.fault());
    };
    if let Some((number, end)) = optional_negative(behind) {
        return Ok((Factor::Literal(int_literal(number, place)), end));
    }
    if behind.begins_factor() {
        return Err(rest.fault());
    }
    Err(behind.fault())
}

/// The expression that has to stand here, with so many levels left.
#[cycle(expressions)]
pub fn expr_of<'a>(
    alloc: Global,
    levels: u32,
    rest: Rest<'a>,
) -> Result<(Expr, Rest<'a>), ParseError>
    requires { IsKnown rest }
    ensures reads { ReadsPart expr_marks (read_expr nowhere levels) rest.entry result }
    ensures given { IfOk result (λ x. IsGivenExpr x.0) }
{
    let (first, behind) = term_of(alloc, levels, rest)?;
    let (head, others, end) = paired(first, addends_of(alloc, levels, behind))?;
    Ok((
        Expr {
            first: head,
            others,
        },
        end,
    ))
}

/// Further terms, with their signs.
#[cycle(expressions)]
fn addends_of<'a>(
    alloc: Global,
    levels: u32,
    rest: Rest<'a>,
) -> Result<(Items<Addend>, Rest<'a>), ParseError>
    requires { IsKnown rest }
    ensures reads { ReadsMany addend_marks (read_terms levels) rest.entry result }
    ensures given { IfOk result (λ x. Each IsGivenAddend x.0) }
{
    let mut addends = Items::new(alloc);
    let mut left = rest;
    while let Some((sign, behind)) = optional_sign(left) {
        let (term, after) = term_of(alloc, levels, behind)?;
        addends.push(Addend { sign, term })?;
        left = after;
    }
    Ok((addends, left))
}

#[cycle(expressions)]
fn term_of<'a>(alloc: Global, levels: u32, rest: Rest<'a>) -> Result<(Term, Rest<'a>), ParseError>
    requires { IsKnown rest }
    ensures reads { ReadsPart term_marks (whole_term levels) rest.entry result }
    ensures given { IfOk result (λ x. IsGivenTerm x.0) }
{
    let (first, behind) = factor_of(alloc, levels, rest)?;
    let (head, others, end) = paired(first, factors_of(alloc, levels, behind))?;
    Ok((
        Term {
            first: head,
            others,
        },
        end,
    ))
}

/// Further factors.
#[cycle(expressions)]
fn factors_of<'a>(
    alloc: Global,
    levels: u32,
    rest: Rest<'a>,
) -> Result<(Items<Factor>, Rest<'a>), ParseError>
    requires { IsKnown rest }
    ensures reads { ReadsMany factor_marks (read_factors levels) rest.entry result }
    ensures given { IfOk result (λ x. Each IsGivenFactor x.0) }
{
    let mut factors = Items::new(alloc);
    let mut left = rest;
    while let Some(behind) = left.word(LexemeKind::Star) {
        let (factor, after) = factor_of(alloc, levels, behind)?;
        factors.push(factor)?;
        left = after;
    }
    Ok((factors, left))
}

#[cycle(expressions)]
fn factor_of<'a>(
    alloc: Global,
    levels: u32,
    rest: Rest<'a>,
) -> Result<(Factor, Rest<'a>), ParseError>
    requires { IsKnown rest }
    ensures reads { ReadsPart factor_marks (read_factor nowhere levels) rest.entry result }
    ensures given { IfOk result (λ x. IsGivenFactor x.0) }
{
    if let Some((number, behind)) = optional_number(rest) {
        return Ok((Factor::Literal(whole_literal(number)), behind));
    }
    other_of(alloc, levels, rest)
}

/// A factor but a number without a minus.
#[cycle(expressions)]
fn other_of<'a>(
    alloc: Global,
    levels: u32,
    rest: Rest<'a>,
) -> Result<(Factor, Rest<'a>), ParseError>
    requires { IsKnown rest }
    ensures reads { ReadsPart factor_marks (read_other nowhere levels) rest.entry result }
    ensures given { IfOk result (λ x. IsGivenFactor x.0) }
{
    if let Some((factor, behind)) = optional_simple(alloc, rest)? {
        return Ok((factor, behind));
    }
    if levels == 0 {
        return last_minus_of(rest);
    }
    nested_of(alloc, levels - 1, rest)
}

/// What stands in brackets or behind a minus, with so many levels left inside.
#[cycle(expressions)]
fn nested_of<'a>(
    alloc: Global,
    levels: u32,
    rest: Rest<'a>,
) -> Result<(Factor, Rest<'a>), ParseError>
    requires { IsKnown rest }
    ensures reads { ReadsPart factor_marks (nested levels) rest.entry result }
    ensures given { IfOk result (λ x. IsGivenFactor x.0) }
{
    if let Some((place, inside)) = rest.placed(LexemeKind::Open) {
        let (expr, behind) = expr_of(alloc, levels, inside)?;
        let (whole, end) = followed(LexemeKind::Close, expr, behind)?;
        return Ok((Factor::Bracket(place, Boxed::new(alloc, whole)?), end));
    }
    let Some((place, behind)) = rest.placed(LexemeKind::Minus) else {
        return Err(rest.fault());
    };
    if let Some((number, end)) = optional_negative(behind) {
        return Ok((Factor::Literal(int_literal(number, place)), end));
    }
    let (factor, end) = other_of(alloc, levels, behind)?;
    Ok((Factor::Negated(place, Boxed::new(alloc, factor)?), end))
}
