//! The value of a field, in a column of a kind.
ghost use Rattle.std.specs.Prelude.{◌≡◌, IfOk, option_and_then, option_map};
ghost use Rattle.tt_value.specs.declared.value.Value.TheVariants.{Int};
ghost use Rattle.tt_value.specs.trees.Expressions.{in_range};
ghost use Rattle.tt_plain.specs.meaning.StagedRows.{field_value, signed_of, value_of_kind};
ghost use Rattle.tt_value.specs.declared.value.Kind.TheVariants.{Varchar};

use std::alloc::{AllocError, Global};
use tt_time::read_date;
use tt_value::{BadText, Kind, Text, Value};

/// The value of a field, NULL where it is empty, or none where it cannot be read.
pub(crate) fn value_of(alloc: Global, kind: Kind, field: &str) -> Result<Option<Value>, AllocError>
    ensures { IfOk result (λ value. value ≡ field_value kind field.now) }
{
    if field.is_empty() {
        return Ok(Some(Value::Null));
    }
    match kind {
        Kind::Int => Ok(integer(field).map(Value::Int)),
        Kind::Date => Ok(read_date(field).ok().map(Value::Date)),
        Kind::Varchar => text(alloc, field),
    }
}

/// The number of 64 bits that an optional minus and digits write.
fn integer(field: &str) -> Option<i64>
    ensures { option_map Int result ≡ option_and_then in_range (signed_of field.now) }
{
    match field.as_bytes().first() {
        Some(first) if *first == b'+' => None,
        _ => field.parse().ok(),
    }
}

/// A copy of a text that is a value.
fn text(alloc: Global, field: &str) -> Result<Option<Value>, AllocError>
    ensures { IfOk result (λ value. value ≡ value_of_kind Varchar field.now) }
{
    match Text::from_str(alloc, field) {
        Ok(text) => Ok(Some(Value::Text(text))),
        Err(BadText::Memory) => Err(AllocError),
        Err(_) => Ok(None),
    }
}
