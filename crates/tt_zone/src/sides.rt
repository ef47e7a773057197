//! The operands of a condition: what each of them may be on a row of a partition.

ghost use Rattle.std.specs.Prelude.{◌≡◌, Some, slice_get};
ghost use Rattle.std.specs.Option.{option_copied, option_map};
ghost use Rattle.tt_value.specs.trees.Scope.{table_scope};
ghost use Rattle.tt_zone.specs.Possible.{zone_span, zone_named, value_span};
ghost use Rattle.tt_zone.specs.Sides.{side_kind as kind_of_side, span_read, side_span, IsSideOf, IsColumnSide, kind_of_column, span_of};

use crate::days::day_in;
use crate::zone::Zone;
use tt_value::{ColumnName, Kind, Operand, Schema, Value};

/// A least and a greatest value.
#[derive(Clone, Copy)]
pub struct Range<'a> {
    pub least: &'a Value,
    pub greatest: &'a Value,
}

/// What an operand may be: a value of the range, if there is one; and NULL, if it may be.
#[derive(Clone, Copy)]
pub struct Span<'a> {
    pub range: Option<Range<'a>>,
    pub has_null: bool,
}

/// An operand: a column's kind and zone, each if there is one, or a written value.
#[derive(Clone, Copy)]
pub enum Side<'a> {
    Column(Option<Kind>, Option<&'a Zone>),
    Literal(&'a Value),
}

/// The place among the columns, from 0; none where no column has the name.
#[inline(always)]
fn place_of(schema: &Schema, column: &ColumnName) -> Option<usize>
    ensures { result ≡ (table_scope schema.now).place_of column.now }
{
    schema
        .columns
        .items()
        .iter()
        .position(|known| known.name == column.name.text)
}

#[inline(always)]
fn kind_at(schema: &Schema, place: usize) -> Option<Kind>
    ensures { result ≡ option_map kind_of_column (slice_get schema.now.columns place) }
{
    match schema.columns.get(place) {
        None => None,
        Some(known) => Some(known.kind),
    }
}

#[inline(always)]
fn zone_at(zones: &[Zone], place: usize) -> Option<&Zone>
    ensures { option_copied result ≡ slice_get zones.now place }
{
    zones.get(place)
}

/// The zone of the column of this name, if there are both.
#[inline(always)]
pub fn zone_of<'a>(schema: &Schema, zones: &'a [Zone], column: &ColumnName) -> Option<&'a Zone>
    ensures { option_copied result ≡ zone_named (table_scope schema.now) zones.now column.now }
{
    match place_of(schema, column) {
        None => None,
        Some(place) => zone_at(zones, place),
    }
}

#[inline(always)]
fn side_of_column<'a>(schema: &Schema, zones: &'a [Zone], column: &ColumnName) -> Side<'a>
    ensures { IsColumnSide (table_scope schema.now) zones.now column.now result }
{
    match place_of(schema, column) {
        None => Side::Column(None, None),
        Some(place) => Side::Column(kind_at(schema, place), zone_at(zones, place)),
    }
}

/// What the schema and the zones say of an operand.
#[inline(always)]
pub fn side_of<'a>(schema: &Schema, zones: &'a [Zone], operand: &'a Operand) -> Side<'a>
    ensures { IsSideOf (table_scope schema.now) zones.now operand.now result }
{
    match operand {
        Operand::Column(column) => side_of_column(schema, zones, column),
        Operand::Literal(literal) => Side::Literal(&literal.value),
    }
}

/// The kind of an operand; NULL has none.
#[inline(always)]
pub fn side_kind(side: &Side<'_>) -> Option<Kind>
    ensures { result ≡ kind_of_side side.now }
{
    match side {
        Side::Column(kind, _) => *kind,
        Side::Literal(Value::Int(_)) => Some(Kind::Int),
        Side::Literal(Value::Date(_)) => Some(Kind::Date),
        Side::Literal(Value::Text(_)) => Some(Kind::Varchar),
        Side::Literal(Value::Null) => None,
    }
}

/// The date that a text in quotes is beside a DATE; none where it stands for itself.
#[inline(always)]
pub fn read_beside(other: Option<Kind>, side: &Side<'_>) -> Option<Value>
    ensures { span_read result side.now ≡ side_span other side.now }
{
    match (other, side) {
        (Some(Kind::Date), Side::Literal(Value::Text(text))) => {
            match day_in(text.as_str().as_bytes()) {
                None => Some(Value::Null),
                Some(day) => Some(Value::Date(day)),
            }
        }
        _ => None,
    }
}

#[inline(always)]
fn span_of_zone(zone: &Zone) -> Span<'_>
    ensures { span_of result ≡ zone_span (Some zone.now) }
{
    let has_null = 0 < zone.nulls;
    if zone.nulls < zone.rows {
        let range = Range {
            least: &zone.least,
            greatest: &zone.greatest,
        };
        Span {
            range: Some(range),
            has_null,
        }
    } else {
        Span {
            range: None,
            has_null,
        }
    }
}

/// What a column with this zone may be; a column without one is NULL.
#[inline(always)]
pub fn span_of_column(zone: Option<&Zone>) -> Span<'_>
    ensures { span_of result ≡ zone_span (option_copied zone.entry) }
{
    match zone {
        None => Span {
            range: None,
            has_null: true,
        },
        Some(zone) => span_of_zone(zone),
    }
}

#[inline(always)]
fn span_of_value(value: &Value) -> Span<'_>
    ensures { span_of result ≡ value_span value.now }
{
    match value {
        Value::Null => Span {
            range: None,
            has_null: true,
        },
        _ => Span {
            range: Some(Range {
                least: value,
                greatest: value,
            }),
            has_null: false,
        },
    }
}

/// What an operand may be, where a text in quotes is this value, if there is one.
#[inline(always)]
pub fn span_of_side<'a, 'b: 'a>(side: &'a Side<'b>, read: &'a Option<Value>) -> Span<'a>
    ensures { span_of result ≡ span_read read.now side.now }
{
    match side {
        Side::Column(_, None) => span_of_column(None),
        Side::Column(_, Some(zone)) => span_of_zone(zone),
        Side::Literal(value) => match read {
            None => span_of_value(value),
            Some(read) => span_of_value(read),
        },
    }
}
