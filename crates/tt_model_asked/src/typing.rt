//! 4 to 7, UnknownColumn, WrongCount, TypeMismatch and NullInNotNull: what a statement is refused for over the schemas of its
//! tables; and a depth that is asked of a table without a key.

ghost use Rattle.std.specs.Prelude.{◌≡◌, ◌∷◌, [], None};
ghost use Rattle.std.specs.Borrow.{Bor};
ghost use Rattle.tt_plain.specs.Places.{each, leftmost};
ghost use Rattle.tt_plain.specs.Tables.{tables_of, IsOverOneTable};
ghost use Rattle.tt_plain.specs.TypingRefusal.{typing_refusal};
ghost use Rattle.tt_plain.specs.asked.Asked.{schemas_asked};
ghost use Rattle.tt_plain.specs.refusal.UnknownTable.{unknown_name};
ghost use Rattle.tt_model_asked.specs.AskedAs.{asked_in};
ghost use Rattle.tt_model_asked.specs.TypedAs.{typed_by, schemas_named, IsFound, without_key as places_without_key};

use crate::asked::{Asked, table_named};
use crate::named::{Named, tables_named};
use tt_history::Refusal;
use tt_sql::Statement;
use tt_typer::{check, table_begin};
use tt_value::{Schema, TableName};

fn schema_named<'a>(asked: &Asked<'a>, name: &TableName) -> &'a Schema
    requires { IsFound (asked_in asked.now) name.now }
    ensures { schemas_named (asked_in asked.now) (name.now ∷ []) ≡ result.now ∷ [] }
{
    let Some(table) = table_named(asked, name) else {
        unreachable!()
    };
    &table.schema
}

fn over_schemas(asked: &Asked<'_>, statement: &Statement) -> Option<Refusal>
    requires alone { IsOverOneTable statement.now }
    requires found { leftmost (each (unknown_name (asked_in asked.now)) (tables_of statement.now))
        ≡ None }
    ensures { result ≡ typing_refusal (schemas_asked (asked_in asked.now) statement.now)
        statement.now }
{
    match tables_named(statement) {
        Named::Nothing => check(statement, &[]).err(),
        Named::One(name) => check(statement, &[schema_named(asked, name)]).err(),
        Named::Two(first, second) => {
            let schemas = [schema_named(asked, first), schema_named(asked, second)];
            check(statement, &schemas).err()
        }
    }
}

fn without_key(asked: &Asked<'_>, name: &TableName) -> Option<Refusal>
    ensures { result ≡ places_without_key (asked_in asked.now) name.now }
{
    let table = table_named(asked, name)?;
    match table.key {
        None => Some(Refusal::UnknownColumn(table_begin(name))),
        Some(_) => None,
    }
}

/// Why a statement whose tables are live is refused over their schemas and keys.
pub fn typed(asked: &Asked<'_>, statement: &Statement) -> Option<Refusal>
    requires alone { IsOverOneTable statement.now }
    requires found { leftmost (each (unknown_name (asked_in asked.now)) (tables_of statement.now))
        ≡ None }
    ensures { result ≡ typed_by (asked_in asked.now) statement.now }
{
    match statement {
        Statement::Depth(name) => without_key(asked, name),
        _ => over_schemas(asked, statement),
    }
}
