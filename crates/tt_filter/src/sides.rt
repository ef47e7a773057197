//! The operands of a condition: a column of the partition, or a written value.

ghost use Rattle.std.specs.Prelude.{◌≡◌, ◌<◌, IfSome, OnOk, length, slice_get};
ghost use Rattle.tt_value.specs.declared.value.Kind.TheVariants as kinds;
ghost use Rattle.tt_value.specs.trees.Scope.{table_scope, value_or_null};
ghost use Rattle.tt_partition.specs.Cuts.{kinds_of};
ghost use Rattle.tt_partition.specs.ImageReading.{number_value, text_value};
ghost use Rattle.tt_partition.specs.ColumnView.{joined, column_kind, column_values};
ghost use Rattle.tt_partition.specs.Table.{Table};
ghost use Rattle.tt_filter.specs.Decoded.{AreDecodedOf, IsReady, IsReadyColumn, Keeps};
ghost use Rattle.tt_filter.specs.Givens.{given_in};
ghost use Rattle.tt_filter.specs.Sides.{side_kind as kind_of_side, side_value, value_in, IsSideOf, IsColumnSide};

use crate::decoding::{decode, decoded};
use crate::given::{Given, beside, kind_of};
use std::alloc::AllocError;
use tt_partition::{ColumnValues, Partition};
use tt_textcol::TextRef;
use tt_value::{ColumnName, Kind, Operand, Schema, Value};

/// What a condition looks at. A name that is no column is NULL on each row.
#[derive(Clone, Copy)]
pub enum Side<'a> {
    Missing,
    Column(&'a ColumnValues<'a>),
    Literal(&'a Value),
}

/// The values of an operand, row by row: those of a column, or the same on each row.
#[derive(Clone, Copy)]
pub enum Values<'a> {
    Column(&'a ColumnValues<'a>),
    Same(Given<'a>),
}

/// The place among the columns, from 0; none where no column has the name.
fn place_of(schema: &Schema, column: &ColumnName) -> Option<usize>
    ensures place { result ≡ (table_scope schema.now).place_of column.now }
    ensures within { IfSome result (λ place. place < length schema.now.columns) }
{
    schema
        .columns
        .items()
        .iter()
        .position(|known| known.name == column.name.text)
}

/// Decodes the column of this name, unless it was before or there is none.
pub fn decode_column<'a>(
    schema: &Schema,
    partition: &'a Partition,
    column: &ColumnName,
    columns: &mut [Option<ColumnValues<'a>>],
) -> Result<(), AllocError>
    requires kinds { partition.now.kinds ≡ kinds_of schema.now }
    requires columns { AreDecodedOf partition.now columns.old }
    ensures columns { OnOk result (AreDecodedOf partition.now columns.new) }
    ensures kept { OnOk result (Keeps columns.old columns.new) }
    ensures there { OnOk result (IsReadyColumn schema.now columns.new column.now) }
{
    match place_of(schema, column) {
        None => Ok(()),
        Some(place) => decode(partition, place, columns),
    }
}

/// Decodes the column of an operand, if it is one and was not decoded before.
pub fn decode_operand<'a>(
    schema: &Schema,
    partition: &'a Partition,
    operand: &Operand,
    columns: &mut [Option<ColumnValues<'a>>],
) -> Result<(), AllocError>
    requires kinds { partition.now.kinds ≡ kinds_of schema.now }
    requires columns { AreDecodedOf partition.now columns.old }
    ensures columns { OnOk result (AreDecodedOf partition.now columns.new) }
    ensures kept { OnOk result (Keeps columns.old columns.new) }
    ensures there { OnOk result (IsReady schema.now columns.new operand.now) }
{
    match operand {
        Operand::Column(column) => decode_column(schema, partition, column, columns),
        Operand::Literal(_) => Ok(()),
    }
}

/// The column of this name, which was decoded if it is there.
pub fn side_of_column<'c, 'a: 'c>(
    schema: &Schema,
    columns: &'c [Option<ColumnValues<'a>>],
    column: &ColumnName,
) -> Side<'c>
    requires { IsReadyColumn schema.now columns.now column.now }
    ensures { (table : Table) → table.kinds ≡ kinds_of schema.now → AreDecodedOf table columns.now
        → IsColumnSide schema.now table.rows column.now result }
{
    match place_of(schema, column) {
        None => Side::Missing,
        Some(place) => Side::Column(decoded(columns, place)),
    }
}

/// An operand over the rows of a partition, whose column was decoded if it is one.
pub fn side_of<'c, 'a: 'c>(
    schema: &Schema,
    columns: &'c [Option<ColumnValues<'a>>],
    operand: &'c Operand,
) -> Side<'c>
    requires { IsReady schema.now columns.now operand.now }
    ensures { (table : Table) → table.kinds ≡ kinds_of schema.now → AreDecodedOf table columns.now
        → IsSideOf (table_scope schema.now) table.rows operand.now result }
{
    match operand {
        Operand::Column(column) => side_of_column(schema, columns, column),
        Operand::Literal(literal) => Side::Literal(&literal.value),
    }
}

/// The kind of an operand; NULL has none.
pub fn side_kind(side: Side<'_>) -> Option<Kind>
    ensures { result ≡ kind_of_side side.entry }
{
    match side {
        Side::Missing => None,
        Side::Column(column) => Some(kind_of_column(column)),
        Side::Literal(value) => kind_of(value),
    }
}

fn kind_of_column(column: &ColumnValues<'_>) -> Kind
    ensures { result ≡ column_kind column.now }
{
    match column {
        ColumnValues::Ints(_) => Kind::Int,
        ColumnValues::Dates(_) => Kind::Date,
        ColumnValues::Texts(_) => Kind::Varchar,
    }
}

/// The values of an operand beside one of a kind.
pub fn values_beside<'a>(other: Option<Kind>, side: Side<'a>) -> Values<'a>
    ensures { (k : _) → value_in result k ≡ side_value other side.entry k }
{
    match side {
        Side::Missing => Values::Same(Given::Null),
        Side::Column(column) => Values::Column(column),
        Side::Literal(value) => Values::Same(beside(other, value)),
    }
}

fn number_at(numbers: &[Option<i64>], at: usize) -> Option<i64>
    ensures { result ≡ joined (slice_get numbers.now at) }
{
    match numbers.get(at) {
        None => None,
        Some(number) => *number,
    }
}

fn int_given<'a>(number: Option<i64>) -> Given<'a>
    ensures { given_in result ≡ number_value kinds.Int number }
{
    match number {
        None => Given::Null,
        Some(number) => Given::Int(number),
    }
}

fn date_given<'a>(day: Option<i64>) -> Given<'a>
    ensures { given_in result ≡ number_value kinds.Date day }
{
    match day {
        None => Given::Null,
        Some(day) => Given::Date(day),
    }
}

fn text_given<'a>(texts: &[Option<TextRef<'a>>], at: usize) -> Given<'a>
    ensures { given_in result ≡ text_value (joined (slice_get texts.now at)) }
{
    match texts.get(at) {
        None => Given::Null,
        Some(None) => Given::Null,
        Some(Some(text)) => Given::Text(text.bytes()),
    }
}

#[tactic(auto, using(tt_partition::proofs::Picks::int_picked, tt_partition::proofs::Picks::date_picked, tt_partition::proofs::Picks::text_picked))]
fn column_value<'a>(column: &ColumnValues<'a>, at: usize) -> Given<'a>
    ensures { given_in result ≡ value_or_null (slice_get (column_values column.now) at) }
{
    match column {
        ColumnValues::Ints(numbers) => int_given(number_at(numbers.items(), at)),
        ColumnValues::Dates(days) => date_given(number_at(days.items(), at)),
        ColumnValues::Texts(texts) => text_given(texts.items(), at),
    }
}

/// The value on the row at a place; NULL past the end of a column.
pub fn value_at<'a>(values: &Values<'a>, at: usize) -> Given<'a>
    ensures { given_in result ≡ value_in values.now at }
{
    match values {
        Values::Column(column) => column_value(column, at),
        Values::Same(value) => *value,
    }
}
