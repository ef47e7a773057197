//! The partition: rows that never change, as an image of bytes with its zones.

ghost use Rattle.std.specs.Prelude.{◌≡◌, ◌≤◌, ◌<◌, ◌^◌, length, take, drop, All, IfOk, Ok};
ghost use Rattle.tt_partition.specs.ColumnView.{IsColumnAt};
ghost use Rattle.std.specs.List.{AllByRecursion, AllZip};
ghost use Rattle.tt_partition.specs.ImageReading.{table_at};
ghost use Rattle.tt_partition.specs.Table.{IsPart};
ghost use Rattle.tt_partition.specs.Cuts.{kinds_of, table_with, cut};
ghost use Rattle.tt_partition.specs.Fits.{FitSchema};
ghost use Rattle.tt_partition.specs.Outcome.{Gives};

use crate::column::ColumnValues;
use crate::error::ImageError;
use crate::picking::pick_column;
use crate::reading::read_image;
use crate::rows::{rows_of, zones_of};
use crate::values::rows_are_valid;
use crate::writing::image_of;
use std::alloc::{AllocError, Global};
use std::marker::Model;
use tt_value::{Row, Schema};
use tt_zone::Zone;

/// A byte is below 256.
fn bytes_fit(bytes: &[u8])
    ensures { AllByRecursion (λ b. b < 2 ^ 8) bytes.now }
{}

/// Rows of a table, held by columns. It never changes, and keeps the allocator of its image. Contracts see
/// the kinds of its columns and its rows.
#[derive(Drop)]
pub struct Partition {
    image: Vec<u8>,
    zones: Vec<Zone>,
    rows: u32,
}

impl Model for Partition {
    ghost use Rattle.tt_partition.specs.Table.{Table};
    ghost use Rattle.tt_partition.specs.Sound.{table_in, IsSound};

    ghost Value = { Table };

    ghost view = { λ p. table_in p.image.items };

    ghost invariant = { λ p. IsSound p.image.items p.zones.items p.rows };
}

impl Partition {
    ghost use Rattle.tt_partition.specs.Table.{Table, zones_of};
    ghost use Rattle.tt_partition.specs.Image.{image_of, IfImage};

    /// The partition of an image. Bytes that are no image are refused with the place of their first fault.
    pub fn from_image(alloc: Global, bytes: &[u8]) -> Result<Partition, ImageError>
        // The image of a table is read as this table.
        ensures again { IfImage bytes.now (λ table. Gives (λ p. p) result (Ok table)) }
        // What is read is the image of its table.
        ensures only { IfOk result (λ p. (bytes.now ≡ image_of p) × IsPart p) }
        // Which table it is, or which place; only want of memory is free.
        ensures exact { Gives (λ p. p) result (table_at bytes.now) }
    {
        bytes_fit(bytes);
        read_partition(alloc, bytes)
    }

    /// The partitions of these rows: each but the last has `cap` rows, in their order, and the last as many as are
    /// left.
    pub fn build(
        alloc: Global,
        schema: &Schema,
        rows: &[Row],
        cap: u32,
    ) -> Result<Vec<Partition>, AllocError>
        requires some_columns { 1 ≤ length schema.now.columns }
        requires few_columns { length schema.now.columns ≤ 32 }
        requires cap { (1 ≤ cap) × (cap ≤ 65536) }
        requires rows { FitSchema schema.now rows.now }
        ensures { IfOk result (λ parts. parts.items ≡ cut (kinds_of schema.now) cap rows.now) }
    {
        rows_are_valid(rows);
        let cap = cap as usize;
        let mut parts = Vec::new(alloc);
        let mut rest = rows;
        let count = (rows.len() + (cap - 1)) / cap;
        for _turn in 0..count {
            let (part, after) = next_rows(rest, cap);
            parts.push(build_one(alloc, schema, part)?)?;
            rest = after;
        }
        Ok(parts)
    }

    /// The bytes of the partition.
    pub fn image(&self) -> &[u8]
        ensures image { result.now ≡ image_of self.now }
        ensures part { IsPart self.now }
    {
        let image = self.image.as_slice();
        bytes_fit(image);
        image
    }

    /// What is known of each column without reading the image.
    pub fn zones(&self) -> &[Zone]
        ensures { result.now ≡ zones_of self.now }
    {
        self.zones.as_slice()
    }

    /// How many rows there are. The image is not looked at.
    pub fn row_count(&self) -> u32
        ensures { result ≡ length self.now.rows }
    {
        self.rows
    }

    /// How many columns there are. The image is not looked at.
    pub fn column_count(&self) -> usize
        ensures { result ≡ length self.now.kinds }
    {
        self.zones().len()
    }

    /// The column at a place, the first being 0. The values of the others are not looked at, and no text is copied.
    pub fn column(&self, place: usize) -> Result<ColumnValues<'_>, AllocError>
        requires { place < length self.now.kinds }
        ensures { IfOk result (IsColumnAt self.now place) }
    {
        let alloc = *self.image.allocator();
        let image = self.image.as_slice();
        bytes_fit(image);
        match pick_column(alloc, place, image) {
            Ok(column) => Ok(column),
            Err(ImageError::Memory) => Err(AllocError),
            Err(ImageError::BadImage(_)) => unreachable!(),
        }
    }

    /// The columns at these places, in the order of the places. The values of the others are not looked at.
    pub fn columns(&self, places: &[usize]) -> Result<Vec<ColumnValues<'_>>, AllocError>
        requires { All (λ place. place < length self.now.kinds) places.now }
        ensures { IfOk result (λ v. AllZip (IsColumnAt self.now) places.now v.items) }
    {
        let alloc = *self.image.allocator();
        let mut columns = Vec::with_capacity(alloc, places.len())?;
        for place in places {
            let column = self.column(*place)?;
            columns.push(column)?;
        }
        Ok(columns)
    }

    /// The rows in order.
    pub fn rows(&self) -> Result<Vec<Row>, AllocError>
        ensures { IfOk result (λ v. v.items ≡ self.now.rows) }
    {
        let alloc = *self.image.allocator();
        let image = self.image.as_slice();
        bytes_fit(image);
        match read_image(alloc, image) {
            Ok(columns) => rows_of(alloc, columns.rows, &columns.columns),
            Err(ImageError::Memory) => Err(AllocError),
            Err(ImageError::BadImage(_)) => unreachable!(),
        }
    }
}

/// So many rows, or all where there are fewer, and what stands behind them.
fn next_rows(rows: &[Row], count: usize) -> (&[Row], &[Row])
    ensures front { result.0.now ≡ take count rows.now }
    ensures rest { result.1.now ≡ drop count rows.now }
{
    rows.split_at(count.min(rows.len()))
}

/// The partition of an image, or the place of the first fault.
fn read_partition(alloc: Global, bytes: &[u8]) -> Result<Partition, ImageError>
    ensures { Gives (λ p. p) result (table_at bytes.now) }
{
    bytes_fit(bytes);
    let columns = read_image(alloc, bytes)?;
    let values = columns.columns.as_slice();
    let rows = rows_of(alloc, columns.rows, values)?;
    let zones = zones_of(alloc, values.len(), &rows)?;
    let image = Vec::from_slice(alloc, bytes)?;
    Ok(Partition {
        image,
        zones,
        rows: columns.rows,
    })
}

/// The partition of these rows, of which there are few enough.
fn build_one(alloc: Global, schema: &Schema, rows: &[Row]) -> Result<Partition, AllocError>
    requires { IsPart (table_with schema.now rows.now) }
    ensures { IfOk result (λ p. p ≡ table_with schema.now rows.now) }
{
    let image = image_of(alloc, schema, rows)?;
    let zones = zones_of(alloc, schema.columns.len(), rows)?;
    Ok(Partition {
        image,
        zones,
        rows: rows.len() as u32,
    })
}
