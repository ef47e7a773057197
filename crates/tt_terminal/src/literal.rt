//! Readers of literals.

ghost use Rattle.std.specs.Prelude.{◌≡◌, ◌<◌, ◌^◌, ◌++◌, [], ◌∷◌, IfOk};
ghost use Rattle.tt_value.specs.calendar.Calendar.{day_text, IsDay};
ghost use Rattle.tt_value.specs.values.RowText.{IsPrintableValue};
ghost use Rattle.tt_sql.specs.grammar.Grammar.{Way, At, Meant, Said};
ghost use Rattle.tt_sql.specs.marks.Expressions.{literal_marks, number_marks, quoted_marks};
ghost use Rattle.tt_sql.specs.grammar.Written.{literal as literal_part};
ghost use Rattle.tt_terminal.specs.Reading.{IsKnown};
ghost use Rattle.tt_terminal.specs.Readers.{ReadsPart};

use crate::error::ParseError;
use crate::kind::LexemeKind;
use crate::name::{optional_negative, optional_number};
use crate::quoted::{optional_day, optional_quoted};
use crate::rest::Rest;
use std::alloc::Global;
use tt_sql::{Literal, Number, Quoted};
use tt_value::Value;

/// A number with its sign as a literal.
pub fn int_literal(number: i64, place: u32) -> Literal
    ensures marks { literal_marks result ≡ Meant number place ∷ Way 1 ∷ [] }
    ensures given { IsPrintableValue result.value }
{
    let value = Value::Int(number);
    Literal { value, place }
}

/// A day as a literal.
pub fn date_literal(day: i32, place: u32) -> Literal
    requires { IsDay day }
    ensures marks { literal_marks result ≡ Said (day_text day) place ∷ Way 3 ∷ [] }
    ensures given { IsPrintableValue result.value }
{
    let value = Value::Date(day);
    Literal { value, place }
}

/// NULL as a literal.
pub fn null_literal(place: u32) -> Literal
    ensures marks { literal_marks result ≡ At place ∷ Way 0 ∷ [] }
    ensures given { IsPrintableValue result.value }
{
    let value = Value::Null;
    Literal { value, place }
}

/// A number as a literal.
pub fn whole_literal(number: Number) -> Literal
    requires { number.value < 2 ^ 63 }
    ensures marks { literal_marks result ≡ number_marks number ++ Way 1 ∷ [] }
    ensures given { IsPrintableValue result.value }
{
    let value = Value::Int(number.value as i64);
    let place = number.place;
    Literal { value, place }
}

/// A quoted text as a literal.
pub fn text_literal(quoted: Quoted) -> Literal
    ensures marks { literal_marks result ≡ quoted_marks quoted ++ Way 2 ∷ [] }
    ensures given { IsPrintableValue result.value }
{
    let Quoted { text, place } = quoted;
    let value = Value::Text(text);
    Literal { value, place }
}

/// The literal that has to stand here.
pub fn literal_of<'a>(alloc: Global, rest: Rest<'a>) -> Result<(Literal, Rest<'a>), ParseError>
    requires { IsKnown rest }
    ensures reads { ReadsPart literal_marks literal_part rest.entry result }
    ensures given { IfOk result (λ x. IsPrintableValue x.0.value) }
{
    if let Some((number, behind)) = optional_number(rest) {
        return Ok((whole_literal(number), behind));
    }
    if let Some((place, behind)) = rest.placed(LexemeKind::Null) {
        return Ok((null_literal(place), behind));
    }
    if let Some((place, digits)) = rest.placed(LexemeKind::Minus) {
        let Some((number, behind)) = optional_negative(digits) else {
            return Err(digits.fault());
        };
        return Ok((int_literal(number, place), behind));
    }
    if let Some((quoted, behind)) = optional_quoted(alloc, rest)? {
        return Ok((text_literal(quoted), behind));
    }
    if let Some((place, text)) = rest.placed(LexemeKind::Date) {
        let Some((day, behind)) = optional_day(text) else {
            return Err(text.fault());
        };
        return Ok((date_literal(day, place), behind));
    }
    Err(rest.fault())
}
