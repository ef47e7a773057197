//! The columns of a partition that were decoded so far.

ghost use Rattle.std.specs.Prelude.{◌≡◌, ◌<◌, IfOk, OnOk, true, length};
ghost use Rattle.tt_partition.specs.ColumnView.{IsColumnAt};
ghost use Rattle.tt_filter.specs.Decoded as spec;
ghost use Rattle.tt_filter.specs.Decoded.{AreDecodedOf, Keeps};

use std::alloc::{AllocError, Global};
use tt_partition::{ColumnValues, Partition};

/// A column for each place of the partition, none where it was not asked for yet.
pub fn none_decoded<'a>(
    alloc: Global,
    partition: &'a Partition,
) -> Result<Vec<Option<ColumnValues<'a>>>, AllocError>
    ensures { IfOk result (λ columns. AreDecodedOf partition.now columns.items) }
{
    let mut columns = Vec::with_capacity(alloc, partition.column_count())?;
    for _place in 0..partition.column_count() {
        columns.push(None)?;
    }
    Ok(columns)
}

/// Whether the column at a place was decoded.
fn is_decoded(columns: &[Option<ColumnValues<'_>>], place: usize) -> bool
    ensures { result ≡ spec.is_decoded columns.now place }
{
    match columns.get(place) {
        None => false,
        Some(None) => false,
        Some(Some(_)) => true,
    }
}

/// Decodes the column at a place, unless it was before. No other is decoded.
pub fn decode<'a>(
    partition: &'a Partition,
    place: usize,
    columns: &mut [Option<ColumnValues<'a>>],
) -> Result<(), AllocError>
    requires place { place < length partition.now.kinds }
    requires columns { AreDecodedOf partition.now columns.old }
    ensures columns { OnOk result (AreDecodedOf partition.now columns.new) }
    ensures kept { OnOk result (Keeps columns.old columns.new) }
    ensures there { OnOk result (spec.is_decoded columns.new place ≡ true) }
{
    if is_decoded(columns, place) {
        return Ok(());
    }
    let column = partition.column(place)?;
    columns[place] = Some(column);
    Ok(())
}

/// The column at a place, which was decoded.
pub fn decoded<'c, 'a: 'c>(
    columns: &'c [Option<ColumnValues<'a>>],
    place: usize,
) -> &'c ColumnValues<'a>
    requires { spec.is_decoded columns.now place ≡ true }
    ensures { spec.column_is columns.now place result.now }
{
    match columns.get(place) {
        Some(Some(column)) => column,
        _ => unreachable!(),
    }
}
