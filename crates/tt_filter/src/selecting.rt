//! A predicate over the rows of a partition, part by part of the predicate.

ghost use Rattle.std.specs.Prelude.{◌≡◌, IfOk, OnOk, length, map};
ghost use Rattle.std.specs.List.{range_with_len};
ghost use Rattle.tt_value.specs.trees.Scope.{table_scope};
ghost use Rattle.tt_partition.specs.Cuts.{kinds_of};
ghost use Rattle.tt_filter.specs.Decoded.{AreDecodedOf};
ghost use Rattle.tt_filter.specs.Parts as parts;
ghost use Rattle.tt_filter.specs.RowTruths.{HasTruths, OnRows, are_true};
ghost use Rattle.tt_filter.specs.Sides.{literal_compared};

use crate::conditions::{begin_side, compare_sides, null_side};
use crate::decoding::none_decoded;
use crate::sides::{Side, decode_column, decode_operand, side_of, side_of_column};
use crate::truths::Truths;
use std::alloc::{AllocError, Global};
use tt_bits::Bits;
use tt_partition::{ColumnValues, Partition};
use tt_value::{
    ColumnName, Comparison, Conjunction, Literal, Operand, Predicate, Quoted, Schema, Truth, Unit,
};

fn count_of(partition: &Partition) -> usize
    ensures { result ≡ length partition.now.rows }
{
    partition.row_count() as usize
}

fn in_comparison<'a>(
    alloc: Global,
    schema: &Schema,
    partition: &'a Partition,
    columns: &mut [Option<ColumnValues<'a>>],
    left: &Operand,
    sign: Comparison,
    right: &Operand,
) -> Result<Truths, AllocError>
    requires kinds { partition.now.kinds ≡ kinds_of schema.now }
    requires columns { AreDecodedOf partition.now columns.old }
    ensures columns { OnOk result (AreDecodedOf partition.now columns.new) }
    ensures truths { IfOk result (OnRows (parts.comparing (table_scope schema.now) left.now sign right.now)
        partition.now.rows) }
{
    decode_operand(schema, partition, left, columns)?;
    decode_operand(schema, partition, right, columns)?;
    let left_side = side_of(schema, columns, left);
    let right_side = side_of(schema, columns, right);
    compare_sides(alloc, count_of(partition), left_side, sign, right_side)
}

/// The same with a literal on the right, where the left side is known.
fn beside_literal(
    alloc: Global,
    count: usize,
    left: Side<'_>,
    sign: Comparison,
    right: &Literal,
) -> Result<Truths, AllocError>
    ensures { IfOk result (HasTruths
        (map (literal_compared left.entry sign right.now) (range_with_len 0 count))) }
{
    compare_sides(alloc, count, left, sign, Side::Literal(&right.value))
}

fn in_list<'a>(
    alloc: Global,
    schema: &Schema,
    partition: &'a Partition,
    columns: &mut [Option<ColumnValues<'a>>],
    operand: &Operand,
    literals: &[Literal],
) -> Result<Truths, AllocError>
    requires kinds { partition.now.kinds ≡ kinds_of schema.now }
    requires columns { AreDecodedOf partition.now columns.old }
    ensures columns { OnOk result (AreDecodedOf partition.now columns.new) }
    ensures truths { IfOk result (OnRows (parts.listing (table_scope schema.now) operand.now literals.now)
        partition.now.rows) }
{
    let count = count_of(partition);
    decode_operand(schema, partition, operand, columns)?;
    let left = side_of(schema, columns, operand);
    let mut found = Truths::filled(alloc, count, Truth::False)?;
    for literal in literals {
        let same = beside_literal(alloc, count, left, Comparison::Equal, literal)?;
        found.or(&same);
    }
    Ok(found)
}

fn in_bounds<'a>(
    alloc: Global,
    schema: &Schema,
    partition: &'a Partition,
    columns: &mut [Option<ColumnValues<'a>>],
    operand: &Operand,
    least: &Literal,
    greatest: &Literal,
) -> Result<Truths, AllocError>
    requires kinds { partition.now.kinds ≡ kinds_of schema.now }
    requires columns { AreDecodedOf partition.now columns.old }
    ensures columns { OnOk result (AreDecodedOf partition.now columns.new) }
    ensures truths { IfOk result (OnRows
        (parts.bounding (table_scope schema.now) operand.now least.now greatest.now)
        partition.now.rows) }
{
    let count = count_of(partition);
    decode_operand(schema, partition, operand, columns)?;
    let left = side_of(schema, columns, operand);
    let mut found = beside_literal(alloc, count, left, Comparison::GreaterOrEqual, least)?;
    let below = beside_literal(alloc, count, left, Comparison::LessOrEqual, greatest)?;
    found.and(&below);
    Ok(found)
}

fn in_null<'a>(
    alloc: Global,
    schema: &Schema,
    partition: &'a Partition,
    columns: &mut [Option<ColumnValues<'a>>],
    operand: &Operand,
) -> Result<Truths, AllocError>
    requires kinds { partition.now.kinds ≡ kinds_of schema.now }
    requires columns { AreDecodedOf partition.now columns.old }
    ensures columns { OnOk result (AreDecodedOf partition.now columns.new) }
    ensures truths { IfOk result (OnRows (parts.being_null (table_scope schema.now) operand.now)
        partition.now.rows) }
{
    decode_operand(schema, partition, operand, columns)?;
    null_side(
        alloc,
        count_of(partition),
        side_of(schema, columns, operand),
    )
}

fn in_front<'a>(
    alloc: Global,
    schema: &Schema,
    partition: &'a Partition,
    columns: &mut [Option<ColumnValues<'a>>],
    column: &ColumnName,
    front: &Quoted,
) -> Result<Truths, AllocError>
    requires kinds { partition.now.kinds ≡ kinds_of schema.now }
    requires columns { AreDecodedOf partition.now columns.old }
    ensures columns { OnOk result (AreDecodedOf partition.now columns.new) }
    ensures truths { IfOk result (OnRows (parts.beginning (table_scope schema.now) column.now front.now.text)
        partition.now.rows) }
{
    decode_column(schema, partition, column, columns)?;
    let side = side_of_column(schema, columns, column);
    begin_side(alloc, count_of(partition), side, &front.text)
}

#[cycle(truths)]
fn in_predicate<'a>(
    alloc: Global,
    schema: &Schema,
    partition: &'a Partition,
    columns: &mut [Option<ColumnValues<'a>>],
    predicate: &Predicate,
) -> Result<Truths, AllocError>
    requires kinds { partition.now.kinds ≡ kinds_of schema.now }
    requires columns { AreDecodedOf partition.now columns.old }
    ensures columns { OnOk result (AreDecodedOf partition.now columns.new) }
    ensures truths { IfOk result (OnRows (parts.in_predicate (table_scope schema.now) predicate.now)
        partition.now.rows) }
{
    let mut found = in_conjunction(alloc, schema, partition, columns, &predicate.first)?;
    for conjunction in predicate.others.as_slice() {
        let other = in_conjunction(alloc, schema, partition, columns, conjunction)?;
        found.or(&other);
    }
    Ok(found)
}

#[cycle(truths)]
fn in_conjunction<'a>(
    alloc: Global,
    schema: &Schema,
    partition: &'a Partition,
    columns: &mut [Option<ColumnValues<'a>>],
    conjunction: &Conjunction,
) -> Result<Truths, AllocError>
    requires kinds { partition.now.kinds ≡ kinds_of schema.now }
    requires columns { AreDecodedOf partition.now columns.old }
    ensures columns { OnOk result (AreDecodedOf partition.now columns.new) }
    ensures truths { IfOk result (OnRows (parts.in_conjunction (table_scope schema.now) conjunction.now)
        partition.now.rows) }
{
    let mut found = in_unit(alloc, schema, partition, columns, &conjunction.first)?;
    for unit in conjunction.others.as_slice() {
        let other = in_unit(alloc, schema, partition, columns, unit)?;
        found.and(&other);
    }
    Ok(found)
}

#[cycle(truths)]
fn in_unit<'a>(
    alloc: Global,
    schema: &Schema,
    partition: &'a Partition,
    columns: &mut [Option<ColumnValues<'a>>],
    unit: &Unit,
) -> Result<Truths, AllocError>
    requires kinds { partition.now.kinds ≡ kinds_of schema.now }
    requires columns { AreDecodedOf partition.now columns.old }
    ensures columns { OnOk result (AreDecodedOf partition.now columns.new) }
    ensures truths { IfOk result (OnRows (parts.in_unit (table_scope schema.now) unit.now)
        partition.now.rows) }
{
    match unit {
        Unit::Not(unit) => Ok(in_unit(alloc, schema, partition, columns, unit.get())?.negated()),
        Unit::Bracket(predicate) => in_predicate(
            alloc,
            schema,
            partition,
            columns,
            predicate.get(),
        ),
        Unit::Compare(left, sign, right) => {
            in_comparison(alloc, schema, partition, columns, left, *sign, right)
        }
        Unit::IsNull(operand, negated) => {
            Ok(in_null(alloc, schema, partition, columns, operand)?.negated_if(*negated))
        }
        Unit::In(operand, negated, literals) => {
            let found = in_list(
                alloc,
                schema,
                partition,
                columns,
                operand,
                literals.as_slice(),
            )?;
            Ok(found.negated_if(*negated))
        }
        Unit::Between(operand, negated, least, greatest) => {
            let found = in_bounds(alloc, schema, partition, columns, operand, least, greatest)?;
            Ok(found.negated_if(*negated))
        }
        Unit::StartsWith(column, front) => in_front(
            alloc, schema, partition, columns, column, front,
        ),
    }
}

/// The rows of a partition on which a predicate is true: a bit for each row, in their order. The partition is of
/// the schema's columns. Only the columns that the predicate reads are decoded, each once; a name that is no column
/// is NULL on each row.
pub fn select(
    alloc: Global,
    schema: &Schema,
    partition: &Partition,
    predicate: &Predicate,
) -> Result<Bits, AllocError>
    requires { partition.now.kinds ≡ kinds_of schema.now }
    ensures { IfOk result (λ bits. bits ≡ are_true (table_scope schema.now) predicate.now partition.now.rows) }
{
    let mut columns = none_decoded(alloc, partition)?;
    let Truths { trues, falses: _ } = in_predicate(
        alloc,
        schema,
        partition,
        &mut columns,
        predicate,
    )?;
    Ok(trues)
}
