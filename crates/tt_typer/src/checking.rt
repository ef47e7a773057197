//! The refusal of a statement over its tables.

ghost use Rattle.std.specs.Prelude.{◌≡◌, length, [], ◌∷◌, None, Some, OnOk, IfErr};
ghost use Rattle.tt_sql.specs.meaning.Scopes.{query_tables};
ghost use Rattle.tt_sql.specs.declared.statement.Statement.TheVariants as tree;
ghost use Rattle.tt_plain.specs.Tables.{tables_of, IsOverOneTable};
ghost use Rattle.tt_plain.specs.Statements.{insertion, InsertsTuples};
ghost use Rattle.tt_plain.specs.TypingRefusal.{typing_refusal};
ghost use Rattle.tt_typer.specs.Finds.{refusal_found};
ghost use Rattle.tt_typer.specs.LentSchemas.{lent, IsTypingRefusal, IsRefusalFound};

use crate::found::{Found, in_create, in_read, in_statement, in_values};
use tt_history::Refusal;
use tt_sql::{CreatedTable, Insert, Query, Statement, Tuple};
use tt_value::Schema;

// The first refusal that holds, at its leftmost place.
fn first_refusal(found: Found) -> Result<(), Refusal>
    ensures ok { OnOk result (refusal_found found ≡ None) }
    ensures refused { IfErr result (IsRefusalFound found) }
{
    if let Some(place) = found.unknown {
        return Err(Refusal::UnknownColumn(place));
    }
    if let Some(place) = found.count {
        return Err(Refusal::WrongCount(place));
    }
    if let Some(place) = found.mismatch {
        return Err(Refusal::TypeMismatch(place));
    }
    if let Some(place) = found.null {
        return Err(Refusal::NullInNotNull(place));
    }
    Ok(())
}

/// Whether a statement's names are columns, its values as many as they have to be, its kinds fitting and
/// its written NULLs allowed, over the schemas of the tables that it reads or changes, in the order of
/// their places in the text. Else it is one of UnknownColumn, WrongCount, TypeMismatch and NullInNotNull:
/// the first of these that holds, at its leftmost place. It takes no memory, and knows of no clustering
/// key, so it finds nothing in a statement for a table's depth. Queries over several tables are not
/// taken yet.
pub fn check(statement: &Statement, schemas: &[&Schema]) -> Result<(), Refusal>
    requires tables { length schemas.now ≡ length (tables_of statement.now) }
    requires alone { IsOverOneTable statement.now }
    ensures ok { OnOk result (typing_refusal (lent schemas.now) statement.now ≡ None) }
    ensures refused { IfErr result (IsTypingRefusal (lent schemas.now) statement.now) }
{
    first_refusal(in_statement(schemas, statement))
}

/// `check` of a query.
pub fn check_query(query: &Query, schemas: &[&Schema]) -> Result<(), Refusal>
    requires tables { length schemas.now ≡ length (query_tables query.now) }
    requires alone { query.now.joins ≡ [] }
    ensures ok { OnOk result (typing_refusal (lent schemas.now) (tree.Query query.now) ≡ None) }
    ensures refused { IfErr result (IsTypingRefusal (lent schemas.now) (tree.Query query.now)) }
{
    first_refusal(in_read(schemas, query))
}

/// `check` of an INSERT of these written rows into a table of this schema.
pub fn check_values(insert: &Insert, tuples: &[Tuple], target: &Schema) -> Result<(), Refusal>
    requires { InsertsTuples insert.now tuples.now }
    ensures ok { OnOk result (typing_refusal (target.now ∷ []) (insertion insert.now) ≡ None) }
    ensures refused { IfErr result (IsTypingRefusal (target.now ∷ []) (insertion insert.now)) }
{
    first_refusal(in_values(target, insert, tuples))
}

/// `check` of a CREATE TABLE.
pub fn check_create(create: &CreatedTable) -> Result<(), Refusal>
    ensures ok { OnOk result (typing_refusal [] (tree.Create create.now) ≡ None) }
    ensures refused { IfErr result (IsTypingRefusal [] (tree.Create create.now)) }
{
    first_refusal(in_create(create))
}
