//! Rows that are put into a table.

ghost use Rattle.std.specs.Prelude.{◌≡◌, ◌≤◌, [], length, IfOk};
ghost use Rattle.tt_sql.specs.meaning.Changes.{insert_change};
ghost use Rattle.tt_plain.specs.Statements.{InsertsTuples};
ghost use Rattle.tt_partition.specs.Cuts.{cut, kinds_of};
ghost use Rattle.tt_partition.specs.Fits.{FitSchema};
ghost use Rattle.tt_change.specs.Accepted.{IsAccepted};
ghost use Rattle.tt_change.specs.Builds.{PutsIn};

use crate::tuples::tuple_rows;
use std::alloc::{AllocError, Global};
use tt_partition::Partition;
use tt_sql::{Insert, Tuple};
use tt_state::Built;
use tt_value::{Row, Schema, Sequence};

// These rows as parts that come, each row counted.
fn put_in(alloc: Global, schema: &Schema, rows: &[Row], cap: u32) -> Result<Built, AllocError>
    requires columns { (1 ≤ length schema.now.columns) × (length schema.now.columns ≤ 32) }
    requires cap { (1 ≤ cap) × (cap ≤ 65536) }
    requires rows { FitSchema schema.now rows.now }
    ensures gone { IfOk result (λ built. built.gone ≡ []) }
    ensures added { IfOk result (λ built. built.added ≡ cut (kinds_of schema.now) cap rows.now) }
    ensures count { IfOk result (λ built. built.count ≡ length rows.now) }
{
    let added = Partition::build(alloc, schema, rows, cap)?;
    Ok(Built {
        gone: Sequence::new(alloc),
        added: Sequence::from_vec(added),
        count: rows.len() as u64,
    })
}

/// What an INSERT of these written rows builds for a table of this schema: each row as the table stores it, in the
/// order of the tuples, in parts of `cap` rows, the last of which has as many as are left.
pub fn insert_written(
    alloc: Global,
    schema: &Schema,
    insert: &Insert,
    tuples: &[Tuple],
    cap: u32,
) -> Result<Built, AllocError>
    requires accepted { IsAccepted schema.now insert.now }
    requires tuples { InsertsTuples insert.now tuples.now }
    requires cap { (1 ≤ cap) × (cap ≤ 65536) }
    ensures { IfOk result (PutsIn (insert_change schema.now [] [] insert.now) (kinds_of schema.now) cap) }
{
    let rows = tuple_rows(alloc, schema, &insert.columns, tuples)?;
    put_in(alloc, schema, &rows, cap)
}
