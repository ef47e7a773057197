//! 3, TableExists: a name that the statement gives to a table is live.

ghost use Rattle.std.specs.Prelude.{◌≡◌, if◌then◌else◌, None, Some};
ghost use Rattle.std.specs.Option.{option_to_list, option_copied};
ghost use Rattle.tt_plain.specs.asked.Request.{request_in};
ghost use Rattle.tt_plain.specs.refusal.TableExists.{names_given, table_exists as refused_where_live};
ghost use Rattle.tt_model_asked.specs.AskedAs.{asked_in, IsAskedOf};

use crate::asked::{Asked, table_named};
use tt_history::Refusal;
use tt_sql::{Alter, Change, Statement};
use tt_typer::table_begin;
use tt_value::TableName;

fn unless(replaces: bool, name: &TableName) -> Option<&TableName>
    ensures { option_copied result ≡ (if replaces then None else Some name.now) }
{
    if replaces { None } else { Some(name) }
}

fn given_by_alter(alter: &Alter) -> Option<&TableName>
    ensures { option_to_list (option_copied result)
        ≡ names_given (request_in (Statement.Alter alter.now)) }
{
    match &alter.change {
        Change::RenameTo(name) => Some(name),
        _ => None,
    }
}

// The name that the statement gives to a table.
fn name_given(statement: &Statement) -> Option<&TableName>
    ensures { option_to_list (option_copied result) ≡ names_given (request_in statement.now) }
{
    match statement {
        Statement::Create(create) => unless(create.replaces, &create.table),
        Statement::Clone(clone) => unless(clone.replaces, &clone.table),
        Statement::Undrop(name) => Some(name),
        Statement::Alter(alter) => given_by_alter(alter),
        _ => None,
    }
}

/// Why a statement is refused for the name that it gives.
pub fn table_exists(asked: &Asked<'_>, statement: &Statement) -> Option<Refusal>
    requires { IsAskedOf asked.now statement.now }
    ensures { result ≡ refused_where_live (asked_in asked.now) }
{
    let name = name_given(statement)?;
    let _live = table_named(asked, name)?;
    Some(Refusal::TableExists(table_begin(name)))
}
