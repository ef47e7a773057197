//! 8, RetentionRange: more days of retention than the table's kind may have.

ghost use Rattle.std.specs.Prelude.{◌≡◌};
ghost use Rattle.tt_plain.specs.Places.{leftmost, if_there};
ghost use Rattle.tt_plain.specs.refusal.RetentionRange as spec;
ghost use Rattle.tt_plain.specs.asked.Request.{request_in};
ghost use Rattle.tt_model_asked.specs.AskedAs.{asked_in, IsAskedOf};

use crate::asked::{Asked, table_named};
use tt_history::Refusal;
use tt_sql::{Alter, Change, CreatedTable, Statement, TableKind};
use tt_value::Number;

/// Whether tables of a kind have no Fail-safe, and at most a day of Time Travel.
pub fn is_transient(kind: TableKind) -> bool
    ensures { result ≡ spec.is_transient kind }
{
    match kind {
        TableKind::Permanent => false,
        TableKind::Transient | TableKind::Temporary => true,
    }
}

fn days_beyond(transient: bool, days: &Number) -> Option<u32>
    ensures { result ≡ leftmost (spec.days_beyond transient days.now) }
{
    let most = if transient { 1 } else { 90 };
    if days.value <= most {
        None
    } else {
        Some(days.place)
    }
}

fn in_create(create: &CreatedTable) -> Option<u32>
    ensures { result ≡ leftmost (if_there (spec.days_beyond (spec.is_transient create.now.kind))
        create.now.options.retention) }
{
    match &create.options.retention {
        None => None,
        Some(days) => days_beyond(is_transient(create.kind), days),
    }
}

fn in_alter(asked: &Asked<'_>, alter: &Alter) -> Option<u32>
    ensures { result ≡ leftmost (spec.days_out_of_range (asked_in asked.now) (request_in
        (Statement.Alter alter.now))) }
{
    let Change::SetRetention(days) = &alter.change else {
        return None;
    };
    let table = table_named(asked, &alter.table)?;
    days_beyond(table.transient, days)
}

fn place_beyond(asked: &Asked<'_>, statement: &Statement) -> Option<u32>
    ensures { result ≡ leftmost (spec.days_out_of_range (asked_in asked.now) (request_in
        statement.now)) }
{
    match statement {
        Statement::Create(create) => in_create(create),
        Statement::Alter(alter) => in_alter(asked, alter),
        _ => None,
    }
}

/// Why a statement is refused for its days of retention.
pub fn retention_range(asked: &Asked<'_>, statement: &Statement) -> Option<Refusal>
    requires { IsAskedOf asked.now statement.now }
    ensures { result ≡ spec.retention_range (asked_in asked.now) }
{
    let place = place_beyond(asked, statement)?;
    Some(Refusal::RetentionRange(place))
}
