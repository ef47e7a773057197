//! Rows that are deleted.

ghost use Rattle.std.specs.Prelude.{◌≡◌, ◌≤◌, IfOk};
ghost use Rattle.tt_value.specs.trees.Predicates.{takes};
ghost use Rattle.tt_value.specs.trees.Scope.{table_scope};
ghost use Rattle.tt_partition.specs.Fits.{FitSchema};
ghost use Rattle.tt_rewrite.specs.Deletes.{Deletes, MayDelete};
ghost use Rattle.tt_rewrite.specs.Left.{AreOthers, AreOfSchema};

use crate::leaving::{Left, leave_part};
use std::alloc::{AllocError, Global};
use tt_partition::Partition;
use tt_sql::Delete;
use tt_state::{Built, Seen};
use tt_value::{Predicate, Sequence};

// What is left of the parts of a table.
fn left_of(alloc: Global, seen: &Seen, filter: &Option<Predicate>) -> Result<Left, AllocError>
    requires { AreOfSchema seen.now.schema seen.now.parts }
    ensures left { IfOk result (AreOthers (takes (table_scope seen.now.schema) filter.now) seen.now.parts) }
    ensures fit { IfOk result (λ left. FitSchema seen.now.schema left.rows) }
{
    let mut left = Left {
        gone: Sequence::new(alloc),
        rows: Sequence::new(alloc),
        count: 0,
    };
    for part in seen.parts.items() {
        leave_part(
            alloc,
            &seen.schema,
            part.0,
            part.1.partition(),
            filter,
            &mut left,
        )?;
    }
    Ok(left)
}

/// What a DELETE builds for the parts of its table: those with a row that it takes go, and their other rows come, in
/// their order, in parts of `cap` rows, the last of which has as many as are left. Parts without such a row stay, and
/// those of which the zones tell so are not read. Where there is no memory, or the count does not fit 64 bits, nothing
/// is built.
pub fn delete_rows(
    alloc: Global,
    seen: &Seen,
    delete: &Delete,
    cap: u32,
) -> Result<Built, AllocError>
    requires deletes { MayDelete seen.now delete.now }
    requires cap { (1 ≤ cap) × (cap ≤ 65536) }
    ensures { IfOk result (Deletes seen.now delete.now cap) }
{
    let Left { gone, rows, count } = left_of(alloc, seen, &delete.filter)?;
    let added = Partition::build(alloc, &seen.schema, rows.items(), cap)?;
    Ok(Built {
        gone,
        added: Sequence::from_vec(added),
        count,
    })
}
