//! Expressions.
#![tactic(auto, unfolding(crate::specs::text::Words::spaced))]

ghost use Rattle.std.specs.Prelude.{◌≡◌, OnOk};
ghost use Rattle.tt_print.specs.text.Words.{Writes};
ghost use Rattle.tt_print.specs.text.Expressions.{expr_words, addend_words, term_words, factor_words, is_zero_factor};

use crate::words::{write_column_name, write_if, write_literal, write_word};
use std::alloc::AllocError;
use tt_value::{Addend, Expr, Factor, Sign, Term, Value};

/// Writes the terms with their signs between them. Brackets stand just where the tree has them.
#[cycle(expressions)]
pub fn write_expr(expr: &Expr, out: &mut Vec<u8>) -> Result<(), AllocError>
    ensures ok { OnOk result (Writes out.old out.new (expr_words expr.now)) }
{
    write_term(&expr.first, out)?;
    for addend in expr.others.as_slice() {
        write_addend(addend, out)?;
    }
    Ok(())
}

#[cycle(expressions)]
fn write_addend(addend: &Addend, out: &mut Vec<u8>) -> Result<(), AllocError>
    ensures ok { OnOk result (Writes out.old out.new (addend_words addend.now)) }
{
    match addend.sign {
        Sign::Plus => write_word(b"+", out)?,
        Sign::Minus => write_word(b"-", out)?,
    }
    write_term(&addend.term, out)
}

#[cycle(expressions)]
fn write_term(term: &Term, out: &mut Vec<u8>) -> Result<(), AllocError>
    ensures ok { OnOk result (Writes out.old out.new (term_words term.now)) }
{
    write_factor(&term.first, out)?;
    for factor in term.others.as_slice() {
        write_word(b"*", out)?;
        write_factor(factor, out)?;
    }
    Ok(())
}

#[cycle(expressions)]
fn write_factor(factor: &Factor, out: &mut Vec<u8>) -> Result<(), AllocError>
    ensures ok { OnOk result (Writes out.old out.new (factor_words factor.now)) }
{
    match factor {
        Factor::Literal(literal) => write_literal(literal, out),
        Factor::Column(column) => write_column_name(column, out),
        Factor::Bracket(_, expr) => {
            write_word(b"(", out)?;
            write_expr(expr.get(), out)?;
            write_word(b")", out)
        }
        Factor::Negated(_, factor) => {
            write_word(b"-", out)?;
            write_if(is_zero(factor.get()), b"-", out)?;
            write_factor(factor.get(), out)
        }
    }
}

fn is_zero(factor: &Factor) -> bool
    ensures zero { result ≡ is_zero_factor factor.now }
{
    match factor {
        Factor::Literal(literal) => match literal.value {
            Value::Int(number) => number == 0,
            _ => false,
        },
        _ => false,
    }
}
