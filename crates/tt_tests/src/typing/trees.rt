//! What no text gives: the name of a schema in front of a table's name.

use super::{Table, assert_refused, statement_of};
use std::alloc::Global;
use std::process::Abort;
use std::test::Fail;
use tt_history::Refusal;
use tt_sql::{Dml, Insert, Statement};
use tt_value::{Name, TableName, Text};

/// The INSERT with `A.` in front of its table, where its text has two blanks.
fn with_schema(alloc: Global, insert: Insert) -> Result<Insert, Fail> {
    let Insert {
        table,
        columns,
        source,
    } = insert;
    let TableName { schema: _, name } = table;
    let schema = Some(Name {
        text: Text::from_str(alloc, "A").ok().ok_or("no text")?,
        place: 12,
    });
    Ok(Insert {
        table: TableName { schema, name },
        columns,
        source,
    })
}

/// The INSERT of a text, with a schema in front of its table.
fn insert_with_schema<R: Abort + AllocGlobal>(rt: &R, text: &str) -> Result<Statement, Fail> {
    match statement_of(rt, text)? {
        Statement::Dml(Dml::Insert(insert)) => {
            let changed = with_schema(rt.alloc(), insert)?;
            Ok(Statement::Dml(Dml::Insert(changed)))
        }
        _ => panic!(rt; "no INSERT in {text}"),
    }
}

#[test]
fn a_table_begins_at_the_name_in_front(rt: HostRuntime) -> Result<(), Fail> {
    let wanted = Some(Refusal::NullInNotNull(12));
    let text = "INSERT INTO   T (X) VALUES (1)";
    let statement = insert_with_schema(&rt, text)?;
    assert_refused(&rt, text, &statement, &[Table::T], wanted)?;
    let text = "INSERT INTO   T (X) SELECT K FROM U";
    let statement = insert_with_schema(&rt, text)?;
    assert_refused(&rt, text, &statement, &[Table::T, Table::U], wanted)
}
