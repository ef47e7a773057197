//! Rows that get new values.

ghost use Rattle.std.specs.Prelude.{◌≡◌, ◌<◌, ◌≤◌, IfErr, IfOk, IfSome, length};
ghost use Rattle.tt_value.specs.trees.Predicates.{takes};
ghost use Rattle.tt_value.specs.trees.Scope.{table_scope};
ghost use Rattle.tt_sql.specs.meaning.Scopes.{target_scope};
ghost use Rattle.tt_scope.specs.Places.{scope_in};
ghost use Rattle.tt_partition.specs.Fits.{FitSchema};
ghost use Rattle.tt_rewrite.specs.Left.{AreOfSchema};
ghost use Rattle.tt_rewrite.specs.Renewed.{AreRenewedIf};
ghost use Rattle.tt_rewrite.specs.Sets.{IsSetting, becomes};
ghost use Rattle.tt_rewrite.specs.Updates.{IsBuiltOf, IsMissing, KeepsFit, MayUpdate, RefusedAs, Updates, change_of};

use crate::error::UpdateError;
use crate::leaving::{Left, holds_rows};
use crate::renewing::{Renewed, renew_part};
use crate::setting::{Setting, places_of};
use std::alloc::{AllocError, Global};
use std::slice;
use tt_partition::Partition;
use tt_scope::Tables;
use tt_sql::Update;
use tt_state::{Built, Seen};
use tt_value::{Predicate, Schema, Sequence};

// What becomes of the parts of a table. None where a new value is out of range.
fn renewed_of(
    alloc: Global,
    seen: &Seen,
    setting: &Setting<'_>,
    filter: &Option<Predicate>,
) -> Result<Option<Renewed>, AllocError>
    requires setting { IsSetting setting.now }
    requires schema { setting.now.schema.now ≡ seen.now.schema }
    requires parts { AreOfSchema seen.now.schema seen.now.parts }
    requires keeps { KeepsFit seen.now.schema (becomes setting.now) }
    ensures renewed { IfOk result (AreRenewedIf (takes (table_scope seen.now.schema) filter.now) (becomes setting.now)
        seen.now.schema seen.now.parts) }
    ensures fit { IfOk result (λ found. IfSome found (λ renewed. FitSchema seen.now.schema renewed.left.rows)) }
{
    let mut renewed = Renewed {
        left: Left {
            gone: Sequence::new(alloc),
            rows: Sequence::new(alloc),
            count: 0,
        },
        missing: None,
    };
    for part in seen.parts.items() {
        let partition = part.1.partition();
        holds_rows(partition);
        if !renew_part(alloc, setting, part.0, partition, filter, &mut renewed)? {
            return Ok(None);
        }
    }
    Ok(Some(renewed))
}

// The parts that come, unless a NULL would stand where none may.
fn built(alloc: Global, schema: &Schema, renewed: Renewed, cap: u32) -> Result<Built, UpdateError>
    requires columns { (1 ≤ length schema.now.columns) × (length schema.now.columns ≤ 32) }
    requires fit { FitSchema schema.now renewed.left.rows }
    requires cap { (1 ≤ cap) × (cap ≤ 65536) }
    requires missing { IfSome renewed.missing (λ place. place < 32) }
    ensures built { IfOk result (IsBuiltOf schema.now renewed cap) }
    ensures refused { IfErr result (IsMissing renewed.missing) }
{
    let Renewed { left, missing } = renewed;
    if let Some(place) = missing {
        return Err(UpdateError::NullInRow(place as u32 + 1));
    }
    let added = Partition::build(alloc, schema, left.rows.items(), cap)?;
    Ok(Built {
        gone: left.gone,
        added: Sequence::from_vec(added),
        count: left.count,
    })
}

// The table that an UPDATE reads.
fn tables_of<'a>(update: &'a Update, schema: &'a Schema) -> Tables<'a>
    ensures { scope_in result ≡ target_scope update.now.table schema.now }
{
    Tables {
        first: &update.table,
        joins: &[],
        schemas: slice::from_ref(schema),
    }
}

/// What an UPDATE builds for the parts of its table: those with a row that it takes go, and all their rows come again with
/// the new values, in their order, in parts of `cap` rows, the last of which has as many as are left. The filter and the
/// new values are read on the old row. Parts without such a row stay, and those of which the zones tell so are not read.
/// `OutOfRange` where a new value leaves 64 bits, whatever NULLs there are; else `NullInRow` with the first column in which
/// a new row has a NULL that may not be there. Where there is no memory, or the count does not fit 64 bits, nothing is built.
pub fn update_rows(
    alloc: Global,
    seen: &Seen,
    update: &Update,
    cap: u32,
) -> Result<Built, UpdateError>
    requires updates { MayUpdate seen.now update.now }
    requires cap { (1 ≤ cap) × (cap ≤ 65536) }
    ensures built { IfOk result (Updates seen.now update.now cap) }
    ensures refused { IfErr result (RefusedAs (change_of seen.now update.now)) }
{
    let schema = &seen.schema;
    let sets = update.sets.as_slice();
    let places = places_of(alloc, sets, schema.columns.items())?;
    let setting = Setting {
        tables: tables_of(update, schema),
        schema,
        sets,
        places: &places,
    };
    match renewed_of(alloc, seen, &setting, &update.filter)? {
        None => Err(UpdateError::OutOfRange),
        Some(renewed) => built(alloc, schema, renewed, cap),
    }
}
