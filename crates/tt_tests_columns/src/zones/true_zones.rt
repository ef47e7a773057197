//! The zones of columns.

use super::{THREE, WITH_NULLS, rows_of};
use std::alloc::Global;
use std::process::Abort;
use std::test::Fail;
use tt_value::{Text, Value};
use tt_zone::{Zone, zone_of_column, zone_of_rows};

fn text(alloc: Global, text: &str) -> Result<Value, Fail> {
    let text = Text::from_str(alloc, text).ok().ok_or("no text")?;
    Ok(Value::Text(text))
}

/// That a column of these rows has this zone.
fn assert_zone<R: Abort + AllocGlobal>(
    rt: &R,
    rows: &str,
    at: usize,
    wanted: &Zone,
) -> Result<(), Fail> {
    let rows = rows_of(rt, rows)?;
    assert!(rt; rows.len() < 1_000);
    let zone = zone_of_rows(&rows, at)?;
    assert!(rt; zone == *wanted, "in column {at}");
    Ok(())
}

fn zone(least: Value, greatest: Value, nulls: u32, rows: u32) -> Zone {
    Zone {
        least,
        greatest,
        nulls,
        rows,
    }
}

#[test]
fn a_zone_has_the_ends_of_its_column(rt: HostRuntime) -> Result<(), Fail> {
    let alloc = rt.alloc();
    let numbers = zone(Value::Int(3), Value::Int(7), 0, 3);
    assert_zone(&rt, THREE, 0, &numbers)?;
    let days = zone(Value::Date(19_754), Value::Date(19_782), 0, 3);
    assert_zone(&rt, THREE, 2, &days)?;
    let texts = zone(text(alloc, "ba")?, text(alloc, "bc")?, 0, 3);
    assert_zone(&rt, THREE, 3, &texts)
}

#[test]
fn nulls_are_counted_and_are_no_end(rt: HostRuntime) -> Result<(), Fail> {
    let alloc = rt.alloc();
    assert_zone(
        &rt,
        WITH_NULLS,
        0,
        &zone(Value::Int(1), Value::Int(9), 1, 3),
    )?;
    assert_zone(
        &rt,
        WITH_NULLS,
        1,
        &zone(Value::Int(1), Value::Int(2), 0, 3),
    )?;
    assert_zone(&rt, WITH_NULLS, 2, &zone(Value::Null, Value::Null, 3, 3))?;
    let texts = zone(text(alloc, "b")?, text(alloc, "b")?, 1, 3);
    assert_zone(&rt, WITH_NULLS, 3, &texts)?;
    // Where a row ends before the column, it has NULL there.
    assert_zone(&rt, WITH_NULLS, 4, &zone(Value::Null, Value::Null, 3, 3))
}

#[test]
fn a_column_of_values_has_a_zone(rt: HostRuntime) -> Result<(), Fail> {
    let values = [Value::Null, Value::Int(-5), Value::Int(4), Value::Null];
    let wanted = zone(Value::Int(-5), Value::Int(4), 2, 4);
    assert!(rt; zone_of_column(&values)? == wanted);
    assert!(rt; zone_of_column(&[])? == zone(Value::Null, Value::Null, 0, 0));
    Ok(())
}
