//! 9, KindMismatch: a permanent clone of a transient table.

ghost use Rattle.std.specs.Prelude.{◌≡◌};
ghost use Rattle.tt_plain.specs.refusal.KindMismatch.{kind_mismatch as refused_for_kind};
ghost use Rattle.tt_model_asked.specs.AskedAs.{asked_in, IsAskedOf};

use crate::asked::{Asked, table_named};
use crate::retention_range::is_transient;
use tt_history::Refusal;
use tt_sql::Statement;
use tt_typer::table_begin;

/// Why a clone is refused for its kind.
pub fn kind_mismatch(asked: &Asked<'_>, statement: &Statement) -> Option<Refusal>
    requires { IsAskedOf asked.now statement.now }
    ensures { result ≡ refused_for_kind (asked_in asked.now) }
{
    let Statement::Clone(clone) = statement else {
        return None;
    };
    if is_transient(clone.kind) {
        return None;
    }
    let name = &clone.source.table;
    let table = table_named(asked, name)?;
    if table.transient {
        Some(Refusal::KindMismatch(table_begin(name)))
    } else {
        None
    }
}
