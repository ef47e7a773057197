//! Partitions that are built: how rows are cut, their images and zones, and columns by themselves.

use super::{INTS, TEXTS};
use std::alloc::Global;
use std::process::Abort;
use std::test::Fail;
use tt_partition::{ColumnValues, Partition, fits};
use tt_value::{Column, Kind, Row, Schema, Sequence, Text, Value};

/// An integer, a date and a text.
type Given<'a> = (Option<i64>, Option<i32>, Option<&'a str>);

/// Five rows; the second column has a NULL, and the third has two.
const FIVE: [Given<'static>; 5] = [
    (Some(3), Some(10), Some("b")),
    (Some(-4), None, Some("a")),
    (Some(i64::MAX), Some(-719_162), None),
    (Some(0), Some(2_932_896), None),
    (None, None, Some("é")),
];

fn schema(alloc: Global, kinds: &[Kind]) -> Result<Schema, Fail> {
    let mut columns = Vec::new(alloc);
    for kind in kinds {
        columns.push(Column {
            name: Text::from_str(alloc, "C").ok().ok_or("no text")?,
            kind: *kind,
            nullable: true,
        })?;
    }
    Ok(Schema {
        columns: Sequence::from_vec(columns),
    })
}

fn three_kinds(alloc: Global) -> Result<Schema, Fail> {
    schema(alloc, &[Kind::Int, Kind::Date, Kind::Varchar])
}

fn int_of(number: Option<i64>) -> Value {
    match number {
        None => Value::Null,
        Some(number) => Value::Int(number),
    }
}

fn date_of(day: Option<i32>) -> Value {
    match day {
        None => Value::Null,
        Some(day) => Value::Date(day),
    }
}

fn text_of(alloc: Global, text: Option<&str>) -> Result<Value, Fail> {
    match text {
        None => Ok(Value::Null),
        Some(text) => Ok(Value::Text(Text::from_str(alloc, text).ok().ok_or("no text")?)),
    }
}

fn row_of(alloc: Global, given: Given<'_>) -> Result<Row, Fail> {
    let mut values = Vec::new(alloc);
    values.push(int_of(given.0))?;
    values.push(date_of(given.1))?;
    values.push(text_of(alloc, given.2)?)?;
    Ok(Row {
        values: Sequence::from_vec(values),
    })
}

fn rows_of(alloc: Global, given: &[Given<'_>]) -> Result<Vec<Row>, Fail> {
    let mut rows = Vec::new(alloc);
    for one in given {
        rows.push(row_of(alloc, *one)?)?;
    }
    Ok(rows)
}

/// Rows of one integer each.
fn int_rows(alloc: Global, numbers: &[Option<i64>]) -> Result<Vec<Row>, Fail> {
    let mut rows = Vec::new(alloc);
    for number in numbers {
        let mut values = Vec::new(alloc);
        values.push(int_of(*number))?;
        rows.push(Row {
            values: Sequence::from_vec(values),
        })?;
    }
    Ok(rows)
}

fn build<R: Abort + AllocGlobal>(
    rt: &R,
    schema: &Schema,
    rows: &[Row],
    cap: u32,
) -> Result<Vec<Partition>, Fail> {
    assert!(rt; schema.columns.len() >= 1 && schema.columns.len() <= 32);
    assert!(rt; cap >= 1 && cap <= 65_536);
    assert!(rt; fits(schema, rows));
    let parts = Partition::build(rt.alloc(), schema, rows, cap)?;
    Ok(parts)
}

/// That the parts have these numbers of rows, and together the rows in their order, also when their images are read.
fn assert_cut<R: Abort + AllocGlobal>(
    rt: &R,
    parts: &[Partition],
    counts: &[u32],
    rows: &[Row],
) -> Result<(), Fail> {
    assert_eq!(rt; parts.len(), counts.len());
    let mut rest = rows;
    for (part, count) in parts.iter().zip(counts) {
        assert_eq!(rt; part.row_count(), *count);
        assert!(rt; *count as usize <= rest.len());
        let (here, after) = rest.split_at(*count as usize);
        assert!(rt; part.rows()?.as_slice() == here);
        let read = Partition::from_image(rt.alloc(), part.image())
            .ok()
            .ok_or("refused")?;
        assert!(rt; read.rows()?.as_slice() == here);
        rest = after;
    }
    assert!(rt; rest.is_empty());
    Ok(())
}

#[test]
fn rows_are_cut_every_cap_rows(rt: HostRuntime) -> Result<(), Fail> {
    let rows = rows_of(rt.alloc(), &FIVE)?;
    let schema = three_kinds(rt.alloc())?;
    let cuts: [(u32, &[u32]); 6] = [
        (1, &[1, 1, 1, 1, 1]),
        (2, &[2, 2, 1]),
        (3, &[3, 2]),
        (4, &[4, 1]),
        (5, &[5]),
        (65_536, &[5]),
    ];
    for (cap, counts) in cuts {
        let parts = build(&rt, &schema, &rows, cap)?;
        assert_cut(&rt, &parts, counts, &rows)?;
    }
    let none = build(&rt, &schema, &[], 2)?;
    assert!(rt; none.is_empty());
    Ok(())
}

#[test]
fn a_partition_has_up_to_65_536_rows(rt: HostRuntime) -> Result<(), Fail> {
    let mut numbers = Vec::new(rt.alloc());
    for at in 0..65_537_i64 {
        numbers.push(Some(at % 5))?;
    }
    let rows = int_rows(rt.alloc(), &numbers)?;
    let parts = build(&rt, &schema(rt.alloc(), &[Kind::Int])?, &rows, 65_536)?;
    assert_cut(&rt, &parts, &[65_536, 1], &rows)
}

#[test]
fn the_images_are_the_vectors(rt: HostRuntime) -> Result<(), Fail> {
    let ints = schema(rt.alloc(), &[Kind::Int])?;
    let rows = int_rows(rt.alloc(), &[Some(2), Some(1), Some(2)])?;
    let parts = build(&rt, &ints, &rows, 3)?;
    assert_eq!(rt; parts.len(), 1);
    assert_eq!(rt; parts[0].image(), INTS.as_slice());
    let mut texts = Vec::new(rt.alloc());
    for text in [Some("a"), None] {
        let mut values = Vec::new(rt.alloc());
        values.push(text_of(rt.alloc(), text)?)?;
        texts.push(Row {
            values: Sequence::from_vec(values),
        })?;
    }
    let parts = build(&rt, &schema(rt.alloc(), &[Kind::Varchar])?, &texts, 2)?;
    assert_eq!(rt; parts.len(), 1);
    assert_eq!(rt; parts[0].image(), TEXTS.as_slice());
    Ok(())
}

#[test]
fn images_are_as_long_as_their_encodings(rt: HostRuntime) -> Result<(), Fail> {
    let ints = schema(rt.alloc(), &[Kind::Int])?;
    // one row: 8 bytes as they are. Two with a difference of 15: a frame of 9 bytes and one of twice 4 bits. With one of 16: two bytes
    let lengths: [(&[Option<i64>], usize); 5] = [
        (&[Some(7)], 29),
        (&[Some(0), Some(15)], 31),
        (&[Some(0), Some(16)], 32),
        (&[Some(2), Some(1), Some(2)], 31),
        // NULL alone: the bitmap
        (&[None], 22),
    ];
    for (numbers, length) in lengths {
        let rows = int_rows(rt.alloc(), numbers)?;
        let parts = build(&rt, &ints, &rows, 10)?;
        assert_eq!(rt; parts.len(), 1);
        assert_eq!(rt; parts[0].image().len(), length);
    }
    Ok(())
}

#[test]
fn zones_are_those_of_each_part(rt: HostRuntime) -> Result<(), Fail> {
    let rows = rows_of(rt.alloc(), &FIVE)?;
    let parts = build(&rt, &three_kinds(rt.alloc())?, &rows, 2)?;
    // of each part, least and greatest of each column, and how many are NULL
    let zones: [(Given<'_>, Given<'_>, [u32; 3]); 3] = [
        (
            (Some(-4), Some(10), Some("a")),
            (Some(3), Some(10), Some("b")),
            [0, 1, 0],
        ),
        (
            (Some(0), Some(-719_162), None),
            (Some(i64::MAX), Some(2_932_896), None),
            [0, 0, 2],
        ),
        ((None, None, Some("é")), (None, None, Some("é")), [1, 1, 0]),
    ];
    assert_eq!(rt; parts.len(), zones.len());
    for (part, (least, greatest, nulls)) in parts.iter().zip(zones) {
        let least = row_of(rt.alloc(), least)?;
        let greatest = row_of(rt.alloc(), greatest)?;
        assert_eq!(rt; part.zones().len(), 3);
        assert_eq!(rt; least.values.len(), 3);
        assert_eq!(rt; greatest.values.len(), 3);
        for at in 0..3 {
            let zone = &part.zones()[at];
            assert!(rt; zone.least == least.values.items()[at]);
            assert!(rt; zone.greatest == greatest.values.items()[at]);
            assert_eq!(rt; zone.nulls, nulls[at]);
            assert_eq!(rt; zone.rows, part.row_count());
        }
    }
    Ok(())
}

/// That these are the integers of the five rows.
fn assert_integers(rt: &impl Abort, column: &ColumnValues<'_>) {
    let numbers = [Some(3), Some(-4), Some(i64::MAX), Some(0), None];
    match column {
        ColumnValues::Ints(found) => assert_eq!(rt; found.items(), numbers.as_slice()),
        _ => assert!(rt; false),
    }
}

/// That these are the texts of the five rows.
fn assert_texts(rt: &impl Abort, column: &ColumnValues<'_>) {
    match column {
        ColumnValues::Texts(found) => {
            assert_eq!(rt; found.len(), FIVE.len());
            for (text, given) in found.items().iter().zip(FIVE) {
                match (text, given.2) {
                    (None, None) => {}
                    (Some(text), Some(given)) => assert_eq!(rt; text.bytes(), given.as_bytes()),
                    _ => assert!(rt; false),
                }
            }
        }
        _ => assert!(rt; false),
    }
}

#[test]
fn a_column_is_read_by_itself(rt: HostRuntime) -> Result<(), Fail> {
    let rows = rows_of(rt.alloc(), &FIVE)?;
    let parts = build(&rt, &three_kinds(rt.alloc())?, &rows, 5)?;
    assert_eq!(rt; parts.len(), 1);
    let part = &parts[0];
    assert_eq!(rt; part.column_count(), 3);
    assert_integers(&rt, &part.column(0)?);
    let days = [Some(10), None, Some(-719_162), Some(2_932_896), None];
    match part.column(1)? {
        ColumnValues::Dates(found) => assert_eq!(rt; found.items(), days.as_slice()),
        _ => assert!(rt; false),
    }
    assert_texts(&rt, &part.column(2)?);
    Ok(())
}

#[test]
fn columns_are_read_in_the_order_asked_for(rt: HostRuntime) -> Result<(), Fail> {
    let rows = rows_of(rt.alloc(), &FIVE)?;
    let parts = build(&rt, &three_kinds(rt.alloc())?, &rows, 5)?;
    assert_eq!(rt; parts.len(), 1);
    assert_eq!(rt; parts[0].column_count(), 3);
    let columns = parts[0].columns(&[2, 0, 2])?;
    assert_eq!(rt; columns.len(), 3);
    assert_texts(&rt, &columns[0]);
    assert_integers(&rt, &columns[1]);
    assert_texts(&rt, &columns[2]);
    assert!(rt; parts[0].columns(&[])?.is_empty());
    Ok(())
}

#[test]
fn rows_that_do_not_fit_are_told(rt: HostRuntime) -> Result<(), Fail> {
    let alloc = rt.alloc();
    let three = three_kinds(alloc)?;
    let two = schema(alloc, &[Kind::Int, Kind::Date])?;
    let turned = schema(alloc, &[Kind::Date, Kind::Int, Kind::Varchar])?;
    let row = rows_of(alloc, &[(Some(1), Some(2), Some("a"))])?;
    assert!(rt; fits(&three, &row));
    assert!(rt; !fits(&two, &row));
    assert!(rt; !fits(&turned, &row));
    assert!(rt; fits(&turned, &rows_of(alloc, &[(None, None, None)])?));
    assert!(rt; !fits(&three, &rows_of(alloc, &[(None, Some(-719_163), None)])?));
    assert!(rt; !fits(&three, &rows_of(alloc, &[(None, Some(2_932_897), None)])?));
    assert!(rt; fits(&two, &[]));
    Ok(())
}
