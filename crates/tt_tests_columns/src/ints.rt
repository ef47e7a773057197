//! Columns of integers and dates: their bytes and their faults, worked out by hand.

ghost use Rattle.std.specs.Prelude.{◌≢◌, ◌<◌, ◌^◌, length};

use std::alloc::Global;
use std::process::Abort;
use std::test::*;
use tt_intcol::{BadColumn, DecodeError, FaultAt, IntColumn, decode, encode};
use tt_value::{Kind, Sequence};

/// Encodes integers, compares each part, and reads the rows back.
fn encodes(
    alloc: Global,
    rt: &impl Abort,
    rows: &[Option<i64>],
    encoding: u8,
    bitmap: &[u8],
    body: &[u8],
) -> Result<(), Fail>
    requires { length rows.now < 2 ^ 32 }
{
    let column = encode(alloc, Kind::Int, rows).ok().ok_or("no memory")?;
    assert_eq!(rt; column.encoding, encoding);
    assert_eq!(rt; column.nulls, !bitmap.is_empty());
    assert_eq!(rt; column.bitmap.items(), bitmap);
    assert_eq!(rt; column.body.items(), body);
    let read = decode(alloc, Kind::Int, rows.len() as u32, &column)
        .ok()
        .ok_or("not read")?;
    assert_eq!(rt; read.as_slice(), rows);
    Ok(())
}

#[test]
fn each_encoding_is_taken_where_it_is_the_shortest(rt: HostRuntime) -> Result<(), Fail> {
    let alloc = rt.alloc();
    // no rows, and one value: plain
    encodes(alloc, &rt, &[], 0, &[], &[])?;
    encodes(alloc, &rt, &[Some(7)], 0, &[], &[7, 0, 0, 0, 0, 0, 0, 0])?;
    // 2, 1, 2: the least value, the width 1, and the bits 1, 0, 1
    let frame = [1, 0, 0, 0, 0, 0, 0, 0, 1, 5];
    encodes(alloc, &rt, &[Some(2), Some(1), Some(2)], 1, &[], &frame)?;
    // all NULL: three bits, and no values
    encodes(alloc, &rt, &[None, None, None], 0, &[7], &[])?;
    // equal values: a frame of the width 0, however many they are
    let equal = vec![in alloc; Some(-1); 65_536]?;
    encodes(
        alloc,
        &rt,
        &equal,
        1,
        &[],
        &[255, 255, 255, 255, 255, 255, 255, 255, 0],
    )?;
    Ok(())
}

#[test]
fn extremes_are_encoded(rt: HostRuntime) -> Result<(), Fail> {
    let alloc = rt.alloc();
    let (low, high) = (Some(i64::MIN), Some(i64::MAX));
    // two of them: plain, and the NULL between them in bit 1
    let plain = [
        0, 0, 0, 0, 0, 0, 0, 128, 255, 255, 255, 255, 255, 255, 255, 127,
    ];
    encodes(alloc, &rt, &[low, None, high], 0, &[2], &plain)?;
    // in turn: a dictionary with the indexes 0, 1, 0, 1, 1
    let dictionary = [
        2, 0, 0, 0, 0, 0, 0, 0, 0, 0, 0, 128, 255, 255, 255, 255, 255, 255, 255, 127, 26,
    ];
    encodes(
        alloc,
        &rt,
        &[low, high, low, high, high],
        3,
        &[],
        &dictionary,
    )?;
    // one after the other 64 times: 28 bytes as runs and as a dictionary, so runs
    let mut rows = vec![in alloc; low; 60]?;
    rows.resize(64, high)?;
    let runs = [
        2, 0, 0, 0, 0, 0, 0, 0, 0, 0, 0, 128, 60, 0, 0, 0, 255, 255, 255, 255, 255, 255, 255, 127,
        4, 0, 0, 0,
    ];
    encodes(alloc, &rt, &rows, 2, &[], &runs)?;
    Ok(())
}

fn column(
    alloc: Global,
    encoding: u8,
    nulls: bool,
    bitmap: &[u8],
    body: &[u8],
) -> Result<IntColumn, Fail> {
    Ok(IntColumn {
        encoding,
        nulls,
        bitmap: Sequence::from_vec(bitmap.to_vec(alloc)?),
        body: Sequence::from_vec(body.to_vec(alloc)?),
    })
}

/// A fault at that byte of bitmap and body.
fn byte(place: u64) -> Option<BadColumn> {
    let at = FaultAt::Byte;
    Some(BadColumn { place, at })
}

/// A fault at the byte of the encoding.
fn encoding(at: FaultAt) -> Option<BadColumn> {
    Some(BadColumn { place: 0, at })
}

/// Where a column is refused.
fn refused(
    alloc: Global,
    kind: Kind,
    rows: u32,
    column: &IntColumn,
) -> Result<Option<BadColumn>, Fail>
    requires { kind ≢ Kind.Varchar }
{
    match decode(alloc, kind, rows, column) {
        Ok(_) => Ok(None),
        Err(DecodeError::BadColumn(bad)) => Ok(Some(bad)),
        Err(DecodeError::Memory) => Ok(byte(u64::MAX)),
    }
}

#[test]
fn a_fault_has_the_place_of_its_part(rt: HostRuntime) -> Result<(), Fail> {
    let alloc = rt.alloc();
    // one date: 31 December 9999 and the day behind it, 1 January 1 and the day before it
    let dates: [([u8; 4], Option<BadColumn>); 4] = [
        ([160, 192, 44, 0], None),
        ([161, 192, 44, 0], byte(0)),
        ([198, 6, 245, 255], None),
        ([197, 6, 245, 255], byte(0)),
    ];
    for (body, place) in dates {
        let column = column(alloc, 0, false, &[], &body)?;
        assert!(rt; refused(alloc, Kind::Date, 1, &column)? == place);
    }
    // three integers: the encoding, whether there is a NULL, the bitmap, the body, and the place
    let frame: &[u8] = &[1, 0, 0, 0, 0, 0, 0, 0, 1, 5];
    let ints: [(u8, bool, &[u8], &[u8], Option<BadColumn>); 23] = [
        (1, false, &[], frame, None),
        // another encoding
        (4, false, &[], frame, encoding(FaultAt::Encoding)),
        // a byte is missing: the end
        (1, false, &[], &[1, 0, 0, 0, 0, 0, 0, 0, 1], byte(9)),
        (1, false, &[], &[1, 0, 0, 0], byte(4)),
        (1, false, &[], &[1, 0, 0, 0, 0, 0, 0, 0, 65], byte(9)),
        (0, true, &[1], &[1, 0, 0, 0, 0, 0, 0, 0, 2, 0, 0], byte(12)),
        // a byte too many: that byte
        (1, false, &[], &[1, 0, 0, 0, 0, 0, 0, 0, 1, 5, 0], byte(10)),
        // a bit behind the last number, a width one too great, no difference 0: the packed numbers
        (1, false, &[], &[1, 0, 0, 0, 0, 0, 0, 0, 1, 13], byte(9)),
        (1, false, &[], &[1, 0, 0, 0, 0, 0, 0, 0, 2, 17], byte(9)),
        (1, false, &[], &[1, 0, 0, 0, 0, 0, 0, 0, 1, 7], byte(9)),
        // a flag without a NULL, an unused bit, a bitmap without a flag, a bitmap too long
        (1, true, &[0], frame, byte(0)),
        (1, true, &[9], frame, byte(0)),
        (1, false, &[0], frame, byte(0)),
        (1, true, &[1, 0], frame, byte(1)),
        // a frame of no values
        (1, true, &[7], frame, encoding(FaultAt::Encoding)),
        // no runs, two runs of one value, a run too long, runs that are too short
        (2, false, &[], &[0, 0, 0, 0], byte(0)),
        (
            2,
            false,
            &[],
            &[
                2, 0, 0, 0, 5, 0, 0, 0, 0, 0, 0, 0, 1, 0, 0, 0, 5, 0, 0, 0, 0, 0, 0, 0, 2, 0, 0, 0,
            ],
            byte(16),
        ),
        (
            2,
            false,
            &[],
            &[1, 0, 0, 0, 5, 0, 0, 0, 0, 0, 0, 0, 4, 0, 0, 0],
            byte(12),
        ),
        (
            2,
            false,
            &[],
            &[1, 0, 0, 0, 5, 0, 0, 0, 0, 0, 0, 0, 2, 0, 0, 0],
            byte(12),
        ),
        // entries that do not ascend, an entry that is not used, an index past the last entry
        (
            3,
            false,
            &[],
            &[
                2, 0, 0, 0, 5, 0, 0, 0, 0, 0, 0, 0, 5, 0, 0, 0, 0, 0, 0, 0, 5,
            ],
            byte(12),
        ),
        (
            3,
            false,
            &[],
            &[
                2, 0, 0, 0, 5, 0, 0, 0, 0, 0, 0, 0, 6, 0, 0, 0, 0, 0, 0, 0, 0,
            ],
            byte(20),
        ),
        (
            3,
            false,
            &[],
            &[
                3, 0, 0, 0, 5, 0, 0, 0, 0, 0, 0, 0, 6, 0, 0, 0, 0, 0, 0, 0, 7, 0, 0, 0, 0, 0, 0, 0,
                52,
            ],
            byte(28),
        ),
        // not the shortest: plain, where the frame is shorter
        (
            0,
            false,
            &[],
            &[
                2, 0, 0, 0, 0, 0, 0, 0, 1, 0, 0, 0, 0, 0, 0, 0, 2, 0, 0, 0, 0, 0, 0, 0,
            ],
            encoding(FaultAt::Longer),
        ),
    ];
    for (encoding, nulls, bitmap, body, place) in ints {
        let column = column(alloc, encoding, nulls, bitmap, body)?;
        assert!(rt; refused(alloc, Kind::Int, 3, &column)? == place);
    }
    Ok(())
}

/// A column is refused at a place within it or behind it, or is the column of other rows.
fn is_exact(alloc: Global, rt: &impl Abort, rows: u32, column: &IntColumn) -> Result<(), Fail> {
    match decode(alloc, Kind::Int, rows, column) {
        Ok(values) => {
            let again = encode(alloc, Kind::Int, &values).ok().ok_or("no memory")?;
            assert_eq!(rt; again.encoding, column.encoding);
            assert_eq!(rt; again.nulls, column.nulls);
            assert_eq!(rt; again.bitmap.items(), column.bitmap.items());
            assert_eq!(rt; again.body.items(), column.body.items());
        }
        Err(DecodeError::BadColumn(bad)) => {
            let bytes = column.bitmap.len() as u128 + column.body.len() as u128;
            assert!(rt; u128::from(bad.place) <= bytes);
        }
        Err(DecodeError::Memory) => assert!(rt; false),
    }
    Ok(())
}

/// Each byte of the body changed to each byte, and the body cut before each byte.
fn changes_are_exact(
    alloc: Global,
    rt: &impl Abort,
    rows: u32,
    encoding: u8,
    bitmap: &[u8],
    body: &[u8],
) -> Result<(), Fail> {
    let nulls = !bitmap.is_empty();
    for place in 0..body.len() {
        for byte in 0..=255u8 {
            let mut other = body.to_vec(alloc)?;
            other[place] = byte;
            is_exact(
                alloc,
                rt,
                rows,
                &column(alloc, encoding, nulls, bitmap, &other)?,
            )?;
        }
        is_exact(
            alloc,
            rt,
            rows,
            &column(alloc, encoding, nulls, bitmap, &body[..place])?,
        )?;
    }
    Ok(())
}

#[test]
fn what_is_read_is_the_column_of_its_rows(rt: HostRuntime) -> Result<(), Fail> {
    let alloc = rt.alloc();
    let frame = [1, 0, 0, 0, 0, 0, 0, 0, 1, 5];
    changes_are_exact(alloc, &rt, 3, 1, &[], &frame)?;
    changes_are_exact(alloc, &rt, 4, 1, &[4], &frame)?;
    let runs = [
        2, 0, 0, 0, 0, 0, 0, 0, 0, 0, 0, 128, 60, 0, 0, 0, 255, 255, 255, 255, 255, 255, 255, 127,
        4, 0, 0, 0,
    ];
    changes_are_exact(alloc, &rt, 64, 2, &[], &runs)?;
    let dictionary = [
        2, 0, 0, 0, 0, 0, 0, 0, 0, 0, 0, 128, 255, 255, 255, 255, 255, 255, 255, 127, 26,
    ];
    changes_are_exact(alloc, &rt, 5, 3, &[], &dictionary)?;
    Ok(())
}
