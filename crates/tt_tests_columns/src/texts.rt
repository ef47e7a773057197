//! Columns of texts: their bytes and their faults, worked out by hand.

use std::alloc::Global;
use std::process::Abort;
use std::test::Fail;
use tt_textcol::{BadColumn, DecodeError, FaultAt, TextColumn, decode, encode};
use tt_value::{Sequence, Text};

fn text_of(alloc: Global, text: &str) -> Result<Text, Fail> {
    Ok(Text::from_str(alloc, text).ok().ok_or("no text")?)
}

fn rows_of(alloc: Global, texts: &[Option<&str>]) -> Result<Vec<Option<Text>>, Fail> {
    let mut rows = Vec::new(alloc);
    for text in texts {
        match text {
            None => rows.push(None)?,
            Some(text) => rows.push(Some(text_of(alloc, text)?))?,
        }
    }
    Ok(rows)
}

fn column_of(
    alloc: Global,
    encoding: u8,
    nulls: bool,
    bitmap: &[u8],
    body: &[u8],
) -> Result<TextColumn, Fail> {
    Ok(TextColumn {
        encoding,
        nulls,
        bitmap: Sequence::from_vec(bitmap.to_vec(alloc)?),
        body: Sequence::from_vec(body.to_vec(alloc)?),
    })
}

/// Encodes the rows, compares each part, and reads them back.
fn encodes(
    alloc: Global,
    rt: &impl Abort,
    texts: &[Option<&str>],
    encoding: u8,
    bitmap: &[u8],
    body: &[u8],
) -> Result<(), Fail> {
    let rows = rows_of(alloc, texts)?;
    assert!(rt; rows.len() < 100_000);
    let column = encode(alloc, &rows).ok().ok_or("no memory")?;
    assert_eq!(rt; column.encoding, encoding);
    assert_eq!(rt; column.nulls, !bitmap.is_empty());
    assert_eq!(rt; column.bitmap.items(), bitmap);
    assert_eq!(rt; column.body.items(), body);
    let read = decode(alloc, rows.len() as u32, &column)
        .ok()
        .ok_or("not read")?;
    assert!(rt; read == rows);
    Ok(())
}

#[test]
fn each_encoding_is_taken_where_it_is_the_shortest(rt: HostRuntime) -> Result<(), Fail> {
    let (a, b) = (Some("aa"), Some("bb"));
    let cases = [
        // no rows, the empty text, one text, the format's vector, and NULL alone: plain
        (&[][..], 0, &[][..], &[][..]),
        (&[Some("")], 0, &[], &[0, 0]),
        (&[Some("é")], 0, &[], &[2, 0, 0xc3, 0xa9]),
        (&[Some("a"), None], 0, &[2], &[1, 0, 97]),
        (&[None, None, None], 0, &[7], &[]),
        // 8 bytes as they are and 8 as a dictionary: the lesser code
        (&[a, a], 0, &[], &[2, 0, 97, 97, 2, 0, 97, 97]),
        // one distinct text, whose indexes have no bits: 8 bytes against 12
        (&[a, a, a], 3, &[], &[1, 0, 0, 0, 2, 0, 97, 97]),
        // two, and the bits 1, 0, 1, 0, 1, 0, 1
        (
            &[b, a, b, a, b, a, b],
            3,
            &[],
            &[2, 0, 0, 0, 2, 0, 97, 97, 2, 0, 98, 98, 0x55],
        ),
    ];
    for (texts, encoding, bitmap, body) in cases {
        encodes(rt.alloc(), &rt, texts, encoding, bitmap, body)?;
    }
    Ok(())
}

#[test]
fn long_runs_are_runs(rt: HostRuntime) -> Result<(), Fail> {
    let alloc = rt.alloc();
    // 32 of each: two runs of 7 bytes, or two texts of 3 bytes and 64 bits. Both have 18 bytes.
    let mut texts = Vec::new(alloc);
    for _turn in 0..32 {
        texts.push(Some("a"))?;
    }
    for _turn in 0..32 {
        texts.push(Some("b"))?;
    }
    encodes(
        alloc,
        &rt,
        &texts,
        2,
        &[],
        &[2, 0, 0, 0, 1, 0, 97, 32, 0, 0, 0, 1, 0, 98, 32, 0, 0, 0],
    )
}

#[test]
fn the_longest_text_and_the_most_rows(rt: HostRuntime) -> Result<(), Fail> {
    let alloc = rt.alloc();
    let mut text = String::new(alloc);
    for _turn in 0..65_535 {
        text.push('x')?;
    }
    let rows = rows_of(alloc, &[Some(text.as_str())])?;
    assert_eq!(rt; rows.len(), 1);
    let column = encode(alloc, &rows).ok().ok_or("no memory")?;
    assert_eq!(rt; column.body.len(), 65_537);
    assert_eq!(rt; column.body.get(0), Some(&255));
    assert_eq!(rt; column.body.get(1), Some(&255));
    let read = decode(alloc, 1, &column).ok().ok_or("not read")?;
    assert!(rt; read == rows);
    let mut texts = Vec::new(alloc);
    for _turn in 0..65_536 {
        texts.push(Some("a"))?;
    }
    encodes(alloc, &rt, &texts, 3, &[], &[1, 0, 0, 0, 1, 0, 97])
}

/// A fault at that byte of bitmap and body.
fn byte(place: u64) -> Option<BadColumn> {
    let at = FaultAt::Byte;
    Some(BadColumn { place, at })
}

/// A fault at the byte of the encoding.
fn encoding(at: FaultAt) -> Option<BadColumn> {
    Some(BadColumn { place: 0, at })
}

/// Where a column is refused.
fn refused(alloc: Global, rows: u32, column: &TextColumn) -> Option<BadColumn> {
    match decode(alloc, rows, column) {
        Ok(_) => None,
        Err(DecodeError::BadColumn(bad)) => Some(bad),
        Err(DecodeError::Memory) => byte(u64::MAX),
    }
}

#[test]
fn a_fault_has_the_place_of_its_part(rt: HostRuntime) -> Result<(), Fail> {
    let cases = [
        // two texts, and encodings that there are not
        (2, 0, None, &[1, 0, 97, 1, 0, 98][..], None),
        (
            2,
            1,
            None,
            &[1, 0, 97, 1, 0, 98],
            encoding(FaultAt::Encoding),
        ),
        (
            2,
            4,
            None,
            &[1, 0, 97, 1, 0, 98],
            encoding(FaultAt::Encoding),
        ),
        // a text that is longer than what is left: the end
        (2, 0, None, &[1, 0, 97, 9, 0, 98], byte(6)),
        // a control character, DEL, a byte that is no UTF-8, and an overlong form: the text with its length
        (2, 0, None, &[1, 0, 97, 1, 0, 31], byte(3)),
        (2, 0, None, &[1, 0, 97, 1, 0, 127], byte(3)),
        (2, 0, None, &[1, 0, 97, 1, 0, 255], byte(3)),
        (2, 0, None, &[1, 0, 97, 2, 0, 0xc1, 0x81], byte(3)),
        // a byte too many
        (2, 0, None, &[1, 0, 97, 1, 0, 98, 0], byte(6)),
        // behind a bitmap
        (3, 0, Some(&[2][..]), &[1, 0, 97, 1, 0, 98], None),
        (3, 0, Some(&[2]), &[1, 0, 97, 1, 0, 31], byte(4)),
        // a flag without a NULL, an unused bit, no bitmap, a bitmap too long
        (2, 0, Some(&[0]), &[1, 0, 97, 1, 0, 98], byte(0)),
        (3, 0, Some(&[10]), &[1, 0, 97, 1, 0, 98], byte(0)),
        (3, 0, Some(&[]), &[1, 0, 97, 1, 0, 98], byte(0)),
        (3, 0, Some(&[2, 0]), &[1, 0, 97, 1, 0, 98], byte(1)),
        // not the shortest: three texts as they are, as a run, and two as a dictionary
        (
            3,
            0,
            None,
            &[2, 0, 97, 97, 2, 0, 97, 97, 2, 0, 97, 97],
            encoding(FaultAt::Longer),
        ),
        (
            3,
            2,
            None,
            &[1, 0, 0, 0, 2, 0, 97, 97, 3, 0, 0, 0],
            encoding(FaultAt::Longer),
        ),
        (
            2,
            3,
            None,
            &[1, 0, 0, 0, 2, 0, 97, 97],
            encoding(FaultAt::Longer),
        ),
    ];
    for (rows, encoding, bitmap, body, place) in cases {
        let bits = bitmap.unwrap_or(&[]);
        let column = column_of(rt.alloc(), encoding, bitmap.is_some(), bits, body)?;
        assert!(rt; refused(rt.alloc(), rows, &column) == place, "{body:?}");
    }
    Ok(())
}

#[test]
fn runs_and_dictionaries_have_one_form(rt: HostRuntime) -> Result<(), Fail> {
    let cases = [
        // 64 texts in two runs
        (
            64,
            2,
            &[2, 0, 0, 0, 1, 0, 97, 32, 0, 0, 0, 1, 0, 98, 32, 0, 0, 0][..],
            None,
        ),
        // no run, and more than texts
        (64, 2, &[0, 0, 0, 0], byte(0)),
        (64, 2, &[65, 0, 0, 0, 1, 0, 97], byte(0)),
        // a run that joins the one before
        (
            64,
            2,
            &[2, 0, 0, 0, 1, 0, 97, 32, 0, 0, 0, 1, 0, 97, 32, 0, 0, 0],
            byte(11),
        ),
        // lengths 0, past the number of texts, and short of it at the last
        (64, 2, &[2, 0, 0, 0, 1, 0, 97, 0, 0, 0, 0], byte(7)),
        (64, 2, &[2, 0, 0, 0, 1, 0, 97, 65, 0, 0, 0], byte(7)),
        (
            64,
            2,
            &[2, 0, 0, 0, 1, 0, 97, 32, 0, 0, 0, 1, 0, 98, 31, 0, 0, 0],
            byte(14),
        ),
        // seven texts of two
        (7, 3, &[2, 0, 0, 0, 2, 0, 97, 97, 2, 0, 98, 98, 0x55], None),
        // more distinct ones than texts
        (7, 3, &[8, 0, 0, 0, 2, 0, 97, 97], byte(0)),
        // the same twice, and one below the one before
        (
            7,
            3,
            &[2, 0, 0, 0, 2, 0, 97, 97, 2, 0, 97, 97, 0x55],
            byte(8),
        ),
        (
            7,
            3,
            &[2, 0, 0, 0, 2, 0, 98, 98, 2, 0, 97, 97, 0x55],
            byte(8),
        ),
        // one that no index names, a bit behind the last index, a byte too many
        (7, 3, &[2, 0, 0, 0, 2, 0, 97, 97, 2, 0, 98, 98, 0], byte(12)),
        (
            7,
            3,
            &[2, 0, 0, 0, 2, 0, 97, 97, 2, 0, 98, 98, 0xd5],
            byte(12),
        ),
        (
            7,
            3,
            &[2, 0, 0, 0, 2, 0, 97, 97, 2, 0, 98, 98, 0x55, 0],
            byte(13),
        ),
        // of three texts the one of number 3
        (
            7,
            3,
            &[3, 0, 0, 0, 1, 0, 97, 1, 0, 98, 1, 0, 99, 0b1110_0100, 0],
            byte(13),
        ),
    ];
    for (rows, encoding, body, place) in cases {
        let column = column_of(rt.alloc(), encoding, false, &[], body)?;
        assert!(rt; refused(rt.alloc(), rows, &column) == place, "{body:?}");
    }
    Ok(())
}

/// Reads the bytes as a column; where it is one, its rows have this column.
fn is_refused_or_exact(
    alloc: Global,
    rt: &impl Abort,
    rows: u32,
    column: &TextColumn,
) -> Result<(), Fail> {
    match decode(alloc, rows, column) {
        Err(DecodeError::Memory) => assert!(rt; false),
        Err(DecodeError::BadColumn(bad)) => {
            let bytes = column.bitmap.len() as u128 + column.body.len() as u128;
            assert!(rt; u128::from(bad.place) <= bytes);
        }
        Ok(read) => {
            let again = encode(alloc, &read).ok().ok_or("no memory")?;
            assert_eq!(rt; again.bitmap.items(), column.bitmap.items());
            assert_eq!(rt; again.body.items(), column.body.items());
            assert_eq!(rt; again.encoding, column.encoding);
        }
    }
    Ok(())
}

fn with_byte(alloc: Global, bytes: &[u8], at: usize, byte: u8) -> Result<Vec<u8>, Fail> {
    let mut changed = bytes.to_vec(alloc)?;
    if at < changed.len() {
        changed[at] = byte;
    }
    Ok(changed)
}

#[test]
fn each_cut_is_refused_and_each_change_has_one_spelling(rt: HostRuntime) -> Result<(), Fail> {
    let cases = [
        (2, 0, &[2][..], &[1, 0, 97][..]),
        (
            64,
            2,
            &[],
            &[2, 0, 0, 0, 1, 0, 97, 32, 0, 0, 0, 1, 0, 98, 32, 0, 0, 0],
        ),
        (7, 3, &[], &[2, 0, 0, 0, 2, 0, 97, 97, 2, 0, 98, 98, 0x55]),
    ];
    for (rows, encoding, bitmap, body) in cases {
        let nulls = !bitmap.is_empty();
        for (end, _byte) in body.iter().enumerate() {
            let cut = column_of(rt.alloc(), encoding, nulls, bitmap, &body[..end])?;
            let place = bitmap.len() as u64 + end as u64;
            assert!(rt; refused(rt.alloc(), rows, &cut) == byte(place));
            for byte in 0..=255 {
                let body = with_byte(rt.alloc(), body, end, byte)?;
                let changed = column_of(rt.alloc(), encoding, nulls, bitmap, &body)?;
                is_refused_or_exact(rt.alloc(), &rt, rows, &changed)?;
            }
        }
        for byte in 0..=255 {
            let bitmap = with_byte(rt.alloc(), bitmap, 0, byte)?;
            let changed = column_of(rt.alloc(), encoding, nulls, &bitmap, body)?;
            is_refused_or_exact(rt.alloc(), &rt, rows, &changed)?;
        }
    }
    Ok(())
}
