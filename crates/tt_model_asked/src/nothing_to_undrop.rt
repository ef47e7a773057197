//! 16, NothingToUndrop: no dropped table of the name is in Time Travel.

ghost use Rattle.std.specs.Prelude.{◌≡◌, ◌<◌, ◌^◌};
ghost use Rattle.std.specs.Option.{option_copied};
ghost use Rattle.tt_plain.specs.refusal.NothingToUndrop as spec;
ghost use Rattle.tt_model_asked.specs.AskedAs.{asked_in, IsAskedOf, IsInBounds};
ghost use Rattle.tt_model_asked.specs.UndropAs.{later_of as spec_later_of};

use crate::asked::{Asked, is_same};
use tt_history::Refusal;
use tt_plain::store::PlainTable;
use tt_sql::Statement;
use tt_value::TableName;

/// Whether a table is dropped, and not beyond the horizon of the moment.
pub fn is_in_time_travel(moment: u64, table: &PlainTable) -> bool
    requires { moment < 2 ^ 62 }
    ensures { result ≡ spec.is_in_time_travel moment table.now }
{
    let Some(dropped) = table.dropped else {
        return false;
    };
    let horizon = table.regimes.horizon(moment as i64);
    horizon < 0 || (horizon as u64) < dropped
}

fn later_dropped<'a>(a: &'a PlainTable, b: &'a PlainTable) -> &'a PlainTable
    ensures { result.now ≡ spec.later_dropped a.now b.now }
{
    if a.dropped.unwrap_or(0) < b.dropped.unwrap_or(0) {
        b
    } else {
        a
    }
}

fn later_of<'a>(found: Option<&'a PlainTable>, table: &'a PlainTable) -> &'a PlainTable
    ensures { result.now ≡ spec_later_of (option_copied found.entry) table.now }
{
    match found {
        None => table,
        Some(other) => later_dropped(other, table),
    }
}

fn is_undroppable(asked: &Asked<'_>, name: &TableName, table: &PlainTable) -> bool
    requires { IsInBounds asked.now }
    ensures { result ≡ spec.is_undroppable (asked_in asked.now) name.now table.now }
{
    is_same(&table.name, &name.name.text) && is_in_time_travel(asked.moment, table)
}

/// The table that an UNDROP of the name brings back: of those that are in Time Travel the one that was dropped last.
pub fn table_to_undrop<'a>(asked: &Asked<'a>, name: &TableName) -> Option<&'a PlainTable>
    requires { IsInBounds asked.now }
    ensures { option_copied result ≡ spec.table_to_undrop (asked_in asked.now) name.now }
{
    let mut found: Option<&PlainTable> = None;
    for table in asked.store.tables.items() {
        if is_undroppable(asked, name, table) {
            found = Some(later_of(found, table));
        }
    }
    found
}

/// Why an UNDROP is refused.
pub fn nothing_to_undrop(asked: &Asked<'_>, statement: &Statement) -> Option<Refusal>
    requires read { IsAskedOf asked.now statement.now }
    requires bounds { IsInBounds asked.now }
    ensures { result ≡ spec.nothing_to_undrop (asked_in asked.now) }
{
    let Statement::Undrop(name) = statement else {
        return None;
    };
    match table_to_undrop(asked, name) {
        Some(_) => None,
        None => Some(Refusal::NothingToUndrop),
    }
}
