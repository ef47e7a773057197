//! Readers of predicates.

ghost use Rattle.std.specs.Prelude.{IfOk};
ghost use Rattle.tt_sql.specs.trees.Lists.{Each, WhenThere};
ghost use Rattle.tt_sql.specs.determined.Expressions.{IsGivenConjunction, IsGivenPredicate, IsGivenUnit};
ghost use Rattle.tt_sql.specs.marks.Expressions.{conjunction_marks, predicate_marks, unit_marks};
ghost use Rattle.tt_sql.specs.machine.Factored.{read_conj, read_pred, read_unit};
ghost use Rattle.tt_phrase.specs.Predicates.{deeper_unit, more_conjunctions, more_units};
ghost use Rattle.tt_terminal.specs.Reading.{IsKnown};
ghost use Rattle.tt_phrase.specs.QueryEnds.{filter};
ghost use Rattle.tt_terminal.specs.Readers.{ReadsPart, ReadsMaybe, ReadsMany};

use crate::unit::simple_of;
use sqlite_items::{Boxed, Items};
use std::alloc::Global;
use tt_sql::{Conjunction, Predicate, Unit};
use tt_terminal::error::ParseError;
use tt_terminal::kind::LexemeKind;
use tt_terminal::pair::{followed, paired};
use tt_terminal::rest::Rest;

/// The predicate that has to stand here, with so many levels left.
#[cycle(predicates)]
pub fn predicate_of<'a>(
    alloc: Global,
    levels: u32,
    rest: Rest<'a>,
) -> Result<(Predicate, Rest<'a>), ParseError>
    requires { IsKnown rest }
    ensures reads { ReadsPart predicate_marks (read_pred levels) rest.entry result }
    ensures given { IfOk result (λ x. IsGivenPredicate x.0) }
{
    let (first, behind) = conjunction_of(alloc, levels, rest)?;
    let (head, others, end) = paired(first, conjunctions_of(alloc, levels, behind))?;
    Ok((
        Predicate {
            first: head,
            others,
        },
        end,
    ))
}

/// Further conjunctions.
#[cycle(predicates)]
fn conjunctions_of<'a>(
    alloc: Global,
    levels: u32,
    rest: Rest<'a>,
) -> Result<(Items<Conjunction>, Rest<'a>), ParseError>
    requires { IsKnown rest }
    ensures reads { ReadsMany conjunction_marks (more_conjunctions levels) rest.entry result }
    ensures given { IfOk result (λ x. Each IsGivenConjunction x.0) }
{
    let mut conjunctions = Items::new(alloc);
    let mut left = rest;
    while let Some(behind) = left.word(LexemeKind::Or) {
        let (conjunction, end) = conjunction_of(alloc, levels, behind)?;
        conjunctions.push(conjunction)?;
        left = end;
    }
    Ok((conjunctions, left))
}

#[cycle(predicates)]
fn conjunction_of<'a>(
    alloc: Global,
    levels: u32,
    rest: Rest<'a>,
) -> Result<(Conjunction, Rest<'a>), ParseError>
    requires { IsKnown rest }
    ensures reads { ReadsPart conjunction_marks (read_conj levels) rest.entry result }
    ensures given { IfOk result (λ x. IsGivenConjunction x.0) }
{
    let (first, behind) = unit_of(alloc, levels, rest)?;
    let (head, others, end) = paired(first, units_of(alloc, levels, behind))?;
    Ok((
        Conjunction {
            first: head,
            others,
        },
        end,
    ))
}

/// Further units.
#[cycle(predicates)]
fn units_of<'a>(
    alloc: Global,
    levels: u32,
    rest: Rest<'a>,
) -> Result<(Items<Unit>, Rest<'a>), ParseError>
    requires { IsKnown rest }
    ensures reads { ReadsMany unit_marks (more_units levels) rest.entry result }
    ensures given { IfOk result (λ x. Each IsGivenUnit x.0) }
{
    let mut units = Items::new(alloc);
    let mut left = rest;
    while let Some(behind) = left.word(LexemeKind::And) {
        let (unit, end) = unit_of(alloc, levels, behind)?;
        units.push(unit)?;
        left = end;
    }
    Ok((units, left))
}

#[cycle(predicates)]
fn unit_of<'a>(alloc: Global, levels: u32, rest: Rest<'a>) -> Result<(Unit, Rest<'a>), ParseError>
    requires { IsKnown rest }
    ensures reads { ReadsPart unit_marks (read_unit levels) rest.entry result }
    ensures given { IfOk result (λ x. IsGivenUnit x.0) }
{
    if levels == 0 {
        return simple_of(alloc, rest);
    }
    deeper_of(alloc, levels - 1, rest)
}

/// A unit, with so many levels left behind NOT and in brackets.
#[cycle(predicates)]
fn deeper_of<'a>(alloc: Global, levels: u32, rest: Rest<'a>) -> Result<(Unit, Rest<'a>), ParseError>
    requires { IsKnown rest }
    ensures reads { ReadsPart unit_marks (deeper_unit levels) rest.entry result }
    ensures given { IfOk result (λ x. IsGivenUnit x.0) }
{
    if let Some(behind) = rest.word(LexemeKind::Not) {
        let (unit, end) = unit_of(alloc, levels, behind)?;
        return Ok((Unit::Not(Boxed::new(alloc, unit)?), end));
    }
    if let Some(inside) = rest.word(LexemeKind::Open) {
        let (predicate, behind) = predicate_of(alloc, levels, inside)?;
        let (whole, end) = followed(LexemeKind::Close, predicate, behind)?;
        return Ok((Unit::Bracket(Boxed::new(alloc, whole)?), end));
    }
    simple_of(alloc, rest)
}

/// WHERE with its predicate, if it stands here.
pub fn filter_of<'a>(
    alloc: Global,
    levels: u32,
    rest: Rest<'a>,
) -> Result<(Option<Predicate>, Rest<'a>), ParseError>
    requires { IsKnown rest }
    ensures reads { ReadsMaybe predicate_marks (filter levels) rest.entry result }
    ensures given { IfOk result (λ x. WhenThere IsGivenPredicate x.0) }
{
    let Some(rest) = rest.word(LexemeKind::Where) else {
        return Ok((None, rest));
    };
    let (predicate, rest) = predicate_of(alloc, levels, rest)?;
    Ok((Some(predicate), rest))
}
