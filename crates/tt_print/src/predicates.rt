//! Predicates.
#![tactic(auto, unfolding(crate::specs::text::Words::spaced))]

ghost use Rattle.std.specs.Prelude.{◌∷◌, [], OnOk};
ghost use Rattle.tt_print.specs.text.Words.{words_if, Writes};
ghost use Rattle.tt_print.specs.text.Predicates.{comparison_word, operand_words, compare_words, is_null_words, in_words, between_words, starts_with_words, predicate_words, conjunction_words, unit_words, filter_words};

use crate::words::{
    write_column_name, write_if, write_literal, write_literals, write_quoted, write_word,
};
use std::alloc::AllocError;
use tt_value::{ColumnName, Comparison, Conjunction, Literal, Operand, Predicate, Quoted, Unit};

/// Writes WHERE and the predicate, if there is one.
pub fn write_filter(filter: &Option<Predicate>, out: &mut Vec<u8>) -> Result<(), AllocError>
    ensures ok { OnOk result (Writes out.old out.new (words_if filter_words filter.now)) }
{
    match filter {
        Some(predicate) => write_where(predicate, out),
        None => Ok(()),
    }
}

fn write_where(predicate: &Predicate, out: &mut Vec<u8>) -> Result<(), AllocError>
    ensures ok { OnOk result (Writes out.old out.new (filter_words predicate.now)) }
{
    write_word(b"WHERE", out)?;
    write_predicate(predicate, out)?;
    Ok(())
}

/// Writes the conjunctions with OR between them. Brackets stand just where the tree has them.
#[cycle(predicates)]
pub fn write_predicate(predicate: &Predicate, out: &mut Vec<u8>) -> Result<(), AllocError>
    ensures ok { OnOk result (Writes out.old out.new (predicate_words predicate.now)) }
{
    write_conjunction(&predicate.first, out)?;
    for conjunction in predicate.others.as_slice() {
        write_word(b"OR", out)?;
        write_conjunction(conjunction, out)?;
    }
    Ok(())
}

#[cycle(predicates)]
fn write_conjunction(conjunction: &Conjunction, out: &mut Vec<u8>) -> Result<(), AllocError>
    ensures ok { OnOk result (Writes out.old out.new (conjunction_words conjunction.now)) }
{
    write_unit(&conjunction.first, out)?;
    for unit in conjunction.others.as_slice() {
        write_word(b"AND", out)?;
        write_unit(unit, out)?;
    }
    Ok(())
}

#[cycle(predicates)]
fn write_unit(unit: &Unit, out: &mut Vec<u8>) -> Result<(), AllocError>
    ensures ok { OnOk result (Writes out.old out.new (unit_words unit.now)) }
{
    match unit {
        Unit::Not(unit) => {
            write_word(b"NOT", out)?;
            write_unit(unit.get(), out)
        }
        Unit::Bracket(predicate) => {
            write_word(b"(", out)?;
            write_predicate(predicate.get(), out)?;
            write_word(b")", out)
        }
        Unit::Compare(left, comparison, right) => write_compare(left, *comparison, right, out),
        Unit::IsNull(operand, negated) => write_is_null(operand, *negated, out),
        Unit::In(operand, negated, literals) => {
            write_in(operand, *negated, literals.as_slice(), out)
        }
        Unit::Between(operand, negated, least, greatest) => {
            write_between(operand, *negated, least, greatest, out)
        }
        Unit::StartsWith(column, front) => write_starts_with(column, front, out),
    }
}

fn write_compare(
    left: &Operand,
    comparison: Comparison,
    right: &Operand,
    out: &mut Vec<u8>,
) -> Result<(), AllocError>
    ensures ok { OnOk result (Writes out.old out.new
        (compare_words left.now comparison right.now)) }
{
    write_operand(left, out)?;
    write_comparison(comparison, out)?;
    write_operand(right, out)?;
    Ok(())
}

fn write_is_null(operand: &Operand, negated: bool, out: &mut Vec<u8>) -> Result<(), AllocError>
    ensures ok { OnOk result (Writes out.old out.new (is_null_words operand.now negated)) }
{
    write_operand(operand, out)?;
    write_word(b"IS", out)?;
    write_if(negated, b"NOT", out)?;
    write_word(b"NULL", out)?;
    Ok(())
}

fn write_in(
    operand: &Operand,
    negated: bool,
    literals: &[Literal],
    out: &mut Vec<u8>,
) -> Result<(), AllocError>
    ensures ok { OnOk result (Writes out.old out.new (in_words operand.now negated literals.now)) }
{
    write_operand(operand, out)?;
    write_if(negated, b"NOT", out)?;
    write_word(b"IN", out)?;
    write_word(b"(", out)?;
    write_literals(literals, out)?;
    write_word(b")", out)?;
    Ok(())
}

fn write_between(
    operand: &Operand,
    negated: bool,
    least: &Literal,
    greatest: &Literal,
    out: &mut Vec<u8>,
) -> Result<(), AllocError>
    ensures ok { OnOk result (Writes out.old out.new
        (between_words operand.now negated least.now greatest.now)) }
{
    write_operand(operand, out)?;
    write_if(negated, b"NOT", out)?;
    write_word(b"BETWEEN", out)?;
    write_literal(least, out)?;
    write_word(b"AND", out)?;
    write_literal(greatest, out)?;
    Ok(())
}

fn write_starts_with(
    column: &ColumnName,
    front: &Quoted,
    out: &mut Vec<u8>,
) -> Result<(), AllocError>
    ensures ok { OnOk result (Writes out.old out.new (starts_with_words column.now front.now)) }
{
    write_word(b"STARTSWITH", out)?;
    write_word(b"(", out)?;
    write_column_name(column, out)?;
    write_word(b",", out)?;
    write_quoted(front, out)?;
    write_word(b")", out)?;
    Ok(())
}

fn write_operand(operand: &Operand, out: &mut Vec<u8>) -> Result<(), AllocError>
    ensures ok { OnOk result (Writes out.old out.new (operand_words operand.now)) }
{
    match operand {
        Operand::Column(column) => write_column_name(column, out),
        Operand::Literal(literal) => write_literal(literal, out),
    }
}

fn write_comparison(comparison: Comparison, out: &mut Vec<u8>) -> Result<(), AllocError>
    ensures ok { OnOk result (Writes out.old out.new (comparison_word comparison ∷ [])) }
{
    match comparison {
        Comparison::Equal => write_word(b"=", out),
        Comparison::NotEqual => write_word(b"<>", out),
        Comparison::Less => write_word(b"<", out),
        Comparison::LessOrEqual => write_word(b"<=", out),
        Comparison::Greater => write_word(b">", out),
        Comparison::GreaterOrEqual => write_word(b">=", out),
    }
}
