//! Names among two tables, A with X and S, B with X and Y.

use crate::texts::{query_of, schema_of};
use sqlite_items::Items;
use std::alloc::Global;
use std::process::Abort;
use std::test::Fail;
use tt_scope::{has_places, place_of};
use tt_sql::{Join, Query, Source};
use tt_value::{ColumnName, Kind, Name, Schema, TableName, Text};

fn name_of(alloc: Global, text: &str) -> Result<Name, Fail> {
    Ok(Name {
        text: Text::from_str(alloc, text).ok().ok_or("no text")?,
        place: 0,
    })
}

fn column_of(alloc: Global, front: &str, text: &str) -> Result<ColumnName, Fail> {
    let name = name_of(alloc, text)?;
    if front.is_empty() {
        return Ok(ColumnName { table: None, name });
    }
    Ok(ColumnName {
        table: Some(name_of(alloc, front)?),
        name,
    })
}

fn joined(alloc: Global, table: &str) -> Result<Items<Join>, Fail> {
    let name = name_of(alloc, table)?;
    let mut joins = Items::new(alloc);
    joins.push(Join {
        source: Source {
            table: TableName { schema: None, name },
            clause: None,
        },
        pairs: Items::new(alloc),
    })?;
    Ok(joins)
}

fn two_tables<R: Abort + AllocGlobal>(rt: &R) -> Result<Query, Fail> {
    let joins = joined(rt.alloc(), "B")?;
    let mut query = query_of(rt, "SELECT * FROM a")?;
    query.joins = joins;
    Ok(query)
}

fn schemas(alloc: Global) -> Result<Vec<Schema>, Fail> {
    let mut list = Vec::new(alloc);
    list.push(schema_of(alloc, &[("X", Kind::Int), ("S", Kind::Varchar)])?)?;
    list.push(schema_of(alloc, &[("X", Kind::Int), ("Y", Kind::Int)])?)?;
    Ok(list)
}

#[test]
fn a_name_of_two_columns_means_none(rt: HostRuntime) -> Result<(), Fail> {
    let schemas = schemas(rt.alloc())?;
    let query = two_tables(&rt)?;
    for (front, text, wanted) in [
        ("", "X", None),
        ("A", "X", Some(0)),
        ("B", "X", Some(2)),
        ("", "S", Some(1)),
        ("B", "S", None),
        ("", "Y", Some(3)),
        ("", "Z", None),
        ("C", "X", None),
    ] {
        let column = column_of(rt.alloc(), front, text)?;
        assert!(rt; has_places(&schemas, &query));
        assert!(rt;
            place_of(&schemas, &query, &column) == wanted,
            "{front} {text}"
        );
    }
    Ok(())
}
