//! Partitions: images worked out by hand, and what is no image.

mod building;

use std::alloc::Global;
use std::process::Abort;
use std::test::Fail;
use tt_partition::{ImageError, Partition};
use tt_value::{Row, Value};

/// One column of integers: 2, 1, 2.
const INTS: [u8; 31] = [
    84, 84, 80, 49, 3, 0, 0, 0, 1, 0, 1, 1, 0, 10, 0, 0, 0, 0, 0, 0, 0, 1, 0, 0, 0, 0, 0, 0, 0, 1,
    5,
];

/// One column of texts: a, NULL.
const TEXTS: [u8; 25] = [
    84, 84, 80, 49, 2, 0, 0, 0, 1, 0, 3, 0, 1, 3, 0, 0, 0, 0, 0, 0, 0, 2, 1, 0, 97,
];

/// The place at which bytes are refused.
fn place_of(alloc: Global, bytes: &[u8]) -> Option<u64> {
    match Partition::from_image(alloc, bytes) {
        Ok(_) => None,
        Err(ImageError::BadImage(bad)) => Some(bad.place),
        Err(ImageError::Memory) => Some(u64::MAX),
    }
}

fn number_of(row: &Row) -> Option<i64> {
    match row.values.get(0) {
        Some(Value::Int(number)) => Some(*number),
        _ => None,
    }
}

#[test]
fn the_vectors_are_read(rt: HostRuntime) -> Result<(), Fail> {
    let alloc = rt.alloc();
    let part = Partition::from_image(alloc, &INTS).ok().ok_or("refused")?;
    assert_eq!(rt; part.row_count(), 3);
    assert_eq!(rt; part.image(), INTS.as_slice());
    let rows = part.rows()?;
    assert_eq!(rt; rows.len(), 3);
    assert_eq!(rt; number_of(&rows[0]), Some(2));
    assert_eq!(rt; number_of(&rows[1]), Some(1));
    assert_eq!(rt; number_of(&rows[2]), Some(2));
    let part = Partition::from_image(alloc, &TEXTS).ok().ok_or("refused")?;
    assert_eq!(rt; part.row_count(), 2);
    Ok(())
}

#[test]
fn each_cut_is_refused_at_its_end(rt: HostRuntime) -> Result<(), Fail> {
    let alloc = rt.alloc();
    for end in 0..INTS.len() {
        assert_eq!(rt; place_of(alloc, &INTS[..end]), Some(end as u64));
    }
    for end in 0..TEXTS.len() {
        assert_eq!(rt; place_of(alloc, &TEXTS[..end]), Some(end as u64));
    }
    Ok(())
}

/// A changed image is refused, or is the image of other rows.
fn is_refused_or_other(
    alloc: Global,
    rt: &impl Abort,
    rows: &[Row],
    bytes: &[u8],
) -> Result<(), Fail> {
    match Partition::from_image(alloc, bytes) {
        Ok(part) => {
            assert_eq!(rt; part.image(), bytes);
            assert!(rt; part.rows()?.as_slice() != rows);
        }
        Err(ImageError::BadImage(bad)) => assert!(rt; bad.place <= bytes.len() as u64),
        Err(ImageError::Memory) => assert!(rt; false),
    }
    Ok(())
}

fn changes(alloc: Global, rt: &impl Abort, bytes: &[u8]) -> Result<(), Fail> {
    let part = Partition::from_image(alloc, bytes).ok().ok_or("refused")?;
    let rows = part.rows()?;
    for at in 0..bytes.len() {
        for mask in [1, 2, 255] {
            let mut other = bytes.to_vec(alloc)?;
            other[at] ^= mask;
            is_refused_or_other(alloc, rt, &rows, &other)?;
        }
    }
    Ok(())
}

#[test]
fn each_change_is_refused_or_another_image(rt: HostRuntime) -> Result<(), Fail> {
    changes(rt.alloc(), &rt, &INTS)?;
    changes(rt.alloc(), &rt, &TEXTS)
}

fn with(alloc: Global, bytes: &[u8], at: usize, byte: u8) -> Result<Vec<u8>, Fail> {
    let mut other = bytes.to_vec(alloc)?;
    if at < other.len() {
        other[at] = byte;
    }
    Ok(other)
}

#[test]
fn a_fault_has_the_place_of_its_part(rt: HostRuntime) -> Result<(), Fail> {
    // a byte of the integers' image that is changed, what it becomes, and the place
    let ints: [(usize, u8, Option<u64>); 14] = [
        // the four bytes in front, no rows, too many rows, no column, too many columns
        (2, 81, Some(0)),
        (4, 0, Some(4)),
        (6, 2, Some(4)),
        (8, 0, Some(8)),
        (8, 33, Some(8)),
        // no such kind, a frame of texts, no such encoding, no such flag
        (10, 4, Some(10)),
        (10, 3, Some(11)),
        (11, 4, Some(11)),
        (12, 2, Some(12)),
        // the body is said to be shorter, and longer: the end of what is said, and the end of the last part
        (13, 9, Some(30)),
        (13, 11, Some(31)),
        // a width one too great: the packed numbers. A bit behind the last number: the same
        (29, 2, Some(30)),
        (30, 13, Some(30)),
        // two columns are said to be there: the end
        (8, 2, Some(31)),
    ];
    for (at, byte, place) in ints {
        let bytes = with(rt.alloc(), &INTS, at, byte)?;
        assert_eq!(rt; place_of(rt.alloc(), &bytes), place, "{at}");
    }
    // the same of the texts' image
    let texts: [(usize, u8, Option<u64>); 6] = [
        // no NULL in the bitmap, a bit behind the last row: the bitmap
        (21, 0, Some(21)),
        (21, 6, Some(21)),
        // a text longer than the body: its end
        (22, 2, Some(25)),
        // a control character: the text with its length
        (24, 31, Some(22)),
        // both are NULL, so that the text stands behind the last part
        (21, 3, Some(22)),
        // without the flag: two texts, of which the first begins with the bitmap's byte, and 513 bytes are not there
        (12, 0, Some(24)),
    ];
    for (at, byte, place) in texts {
        let bytes = with(rt.alloc(), &TEXTS, at, byte)?;
        assert_eq!(rt; place_of(rt.alloc(), &bytes), place, "{at}");
    }
    Ok(())
}

#[test]
fn the_encoding_is_judged_last(rt: HostRuntime) -> Result<(), Fail> {
    let alloc = rt.alloc();
    // 0, 1, 2 as they are, where a frame is shorter: the byte of the encoding; with a byte missing: the end
    let plain: [u8; 45] = [
        84, 84, 80, 49, 3, 0, 0, 0, 1, 0, 1, 0, 0, 24, 0, 0, 0, 0, 0, 0, 0, 0, 0, 0, 0, 0, 0, 0, 0,
        1, 0, 0, 0, 0, 0, 0, 0, 2, 0, 0, 0, 0, 0, 0, 0,
    ];
    assert_eq!(rt; place_of(alloc, &plain), Some(11));
    assert_eq!(rt; place_of(alloc, &plain[..44]), Some(44));
    // the body is said to have one more byte than there are: the end of the last part, before the encoding is judged
    assert_eq!(rt; place_of(alloc, &with(alloc, &plain, 13, 25)?), Some(45));
    // a frame of no values is met before the body is looked at, also where there is none
    let frame: [u8; 22] = [
        84, 84, 80, 49, 1, 0, 0, 0, 1, 0, 1, 1, 1, 9, 0, 0, 0, 0, 0, 0, 0, 1,
    ];
    assert_eq!(rt; place_of(alloc, &frame), Some(11));
    // all NULL: no body
    let null: [u8; 22] = [
        84, 84, 80, 49, 1, 0, 0, 0, 1, 0, 1, 0, 1, 0, 0, 0, 0, 0, 0, 0, 0, 1,
    ];
    assert_eq!(rt; place_of(alloc, &null), None);
    Ok(())
}
