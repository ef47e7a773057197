//! Values: their order, rows and bags of rows, how they are written, texts and lists.

ghost use Rattle.tt_value.specs.values.RowText.{IsPrintableValue};
ghost use Rattle.std.specs.Prelude.{◌∷◌, [], ◌++◌, All};

use std::alloc::Global;
use std::cmp::Ordering;
use std::test::Fail;
use tt_value::{BadText, Bag, Row, Sequence, Text, Value, compare, compare_rows, write_row};

fn text_of(alloc: Global, text: &str) -> Result<Text, Fail> {
    Ok(Text::from_str(alloc, text).ok().ok_or("no text")?)
}

fn text(alloc: Global, text: &str) -> Result<Value, Fail> {
    Ok(Value::Text(text_of(alloc, text)?))
}

fn number_row(alloc: Global, numbers: &[i64]) -> Result<Row, Fail> {
    let mut values = Sequence::new(alloc);
    for number in numbers {
        values.push(Value::Int(*number))?;
    }
    Ok(Row { values })
}

fn number_bag(alloc: Global, numbers: &[i64]) -> Result<Bag, Fail> {
    let mut rows = Vec::new(alloc);
    for number in numbers {
        rows.push(number_row(alloc, &[*number])?)?;
    }
    Ok(Bag::from_rows(alloc, rows)?)
}

fn numbers(alloc: Global, bag: &Bag) -> Result<Vec<i64>, Fail> {
    let mut numbers = Vec::new(alloc);
    for row in bag.rows() {
        for value in row.values.items() {
            if let Value::Int(number) = value {
                numbers.push(*number)?;
            }
        }
    }
    Ok(numbers)
}

#[test]
fn values_stand_by_kind_then_by_content(rt: HostRuntime) -> Result<(), Fail> {
    let alloc = rt.alloc();
    let ascending = vec![in alloc;
        Value::Int(i64::MIN),
        Value::Int(-1),
        Value::Int(i64::MAX),
        Value::Date(-719_162),
        Value::Date(0),
        text(alloc, "")?,
        text(alloc, "Z")?,
        text(alloc, "a")?,
        text(alloc, "a ")?,
        text(alloc, "é")?,
        Value::Null,
    ]?;
    for (i, first) in ascending.iter().enumerate() {
        for (j, second) in ascending.iter().enumerate() {
            assert!(rt; compare(first, second) == i.cmp(&j), "{i} and {j}");
        }
    }
    Ok(())
}

#[test]
fn rows_stand_value_by_value(rt: HostRuntime) -> Result<(), Fail> {
    let alloc = rt.alloc();
    let rows = [
        (&[][..], &[1][..], Ordering::Less),
        (&[1], &[1, 0], Ordering::Less),
        (&[2], &[1, 9], Ordering::Greater),
        (&[1, 2], &[1, 2], Ordering::Equal),
        (&[1, 3], &[1, 2], Ordering::Greater),
    ];
    for (at, (first, second, wanted)) in rows.into_iter().enumerate() {
        let first = number_row(alloc, first)?;
        let second = number_row(alloc, second)?;
        assert!(rt; compare_rows(&first, &second) == wanted, "{at}");
        assert_eq!(rt; first == second, wanted == Ordering::Equal, "{at}");
    }
    Ok(())
}

#[test]
fn a_bag_is_sorted_and_keeps_copies(rt: HostRuntime) -> Result<(), Fail> {
    let alloc = rt.alloc();
    let bag = number_bag(alloc, &[3, 1, 2, 1, 3, 1])?;
    assert_eq!(rt;
        numbers(alloc, &bag)?.as_slice(),
        [1, 1, 1, 2, 3, 3].as_slice()
    );
    let copy = bag.clone()?;
    assert_eq!(rt;
        numbers(alloc, &copy)?.as_slice(),
        [1, 1, 1, 2, 3, 3].as_slice()
    );
    Ok(())
}

#[test]
fn plus_keeps_the_copies_of_both(rt: HostRuntime) -> Result<(), Fail> {
    let alloc = rt.alloc();
    let first = number_bag(alloc, &[5, 1, 1])?;
    let second = number_bag(alloc, &[1, 3, 7])?;
    let both = first.plus(&second)?;
    assert_eq!(rt;
        numbers(alloc, &both)?.as_slice(),
        [1, 1, 1, 3, 5, 7].as_slice()
    );
    Ok(())
}

#[test]
fn minus_takes_one_copy_for_each_copy(rt: HostRuntime) -> Result<(), Fail> {
    let alloc = rt.alloc();
    let first = number_bag(alloc, &[1, 1, 1, 2, 4, 4])?;
    let second = number_bag(alloc, &[0, 1, 1, 3, 4, 9])?;
    let left = first.minus(&second)?;
    assert_eq!(rt; numbers(alloc, &left)?.as_slice(), [1, 2, 4].as_slice());
    Ok(())
}

fn line(alloc: Global, values: Vec<Value>) -> Result<Vec<u8>, Fail>
    requires { All IsPrintableValue values.items }
{
    let row = Row {
        values: Sequence::from_vec(values),
    };
    let mut out = Vec::new(alloc);
    write_row(&row, &mut out)?;
    Ok(out)
}

fn line_of_one(alloc: Global, value: Value) -> Result<Vec<u8>, Fail>
    requires { IsPrintableValue value }
{
    let mut values = Vec::new(alloc);
    values.push(value)?;
    line(alloc, values)
}

#[test]
fn values_are_written(rt: HostRuntime) -> Result<(), Fail> {
    let alloc = rt.alloc();
    assert_eq!(rt; line(alloc, Vec::new(alloc))?.as_slice(), b"".as_slice());
    assert_eq!(rt;
        line_of_one(alloc, Value::Null)?.as_slice(),
        b"NULL".as_slice()
    );
    for (number, wanted) in [
        (1, "1"),
        (-7, "-7"),
        (i64::MIN, "-9223372036854775808"),
        (i64::MAX, "9223372036854775807"),
    ] {
        let out = line_of_one(alloc, Value::Int(number))?;
        assert_eq!(rt; out.as_slice(), wanted.as_bytes());
    }
    for (day, wanted) in [
        (-719_162, "0001-01-01"),
        (-1, "1969-12-31"),
        (0, "1970-01-01"),
        (11_016, "2000-02-29"),
        (2_932_896, "9999-12-31"),
    ] {
        assert!(rt; -719_162 <= day && day <= 2_932_896);
        let out = line_of_one(alloc, Value::Date(day))?;
        assert_eq!(rt; out.as_slice(), wanted.as_bytes());
    }
    for (content, wanted) in [
        ("", "''"),
        ("a,b", "'a,b'"),
        ("o'clock", "'o''clock'"),
        ("'", "''''"),
        ("é", "'é'"),
    ] {
        let out = line_of_one(alloc, Value::Text(text_of(alloc, content)?))?;
        assert_eq!(rt; out.as_slice(), wanted.as_bytes());
    }
    Ok(())
}

#[test]
fn commas_stand_between_values(rt: HostRuntime) -> Result<(), Fail> {
    let alloc = rt.alloc();
    let mut values = Vec::new(alloc);
    values.push(Value::Int(-3))?;
    values.push(Value::Date(-719_162))?;
    values.push(Value::Text(text_of(alloc, "it's")?))?;
    values.push(Value::Date(2_932_896))?;
    values.push(Value::Null)?;
    let out = line(alloc, values)?;
    assert_eq!(rt;
        out.as_slice(),
        b"-3,0001-01-01,'it''s',9999-12-31,NULL".as_slice()
    );
    Ok(())
}

#[test]
fn texts_are_judged_by_length_then_by_characters(rt: HostRuntime) -> Result<(), Fail> {
    let alloc = rt.alloc();
    for (content, wanted) in [
        ("", None),
        (" ~", None),
        ("\u{80}é", None),
        ("\u{0}", Some(BadText::Control(0))),
        ("\nab", Some(BadText::Control(0))),
        ("ab\u{1f}c\n", Some(BadText::Control(2))),
        ("é\u{7f}", Some(BadText::Control(2))),
    ] {
        let found = Text::from_str(alloc, content).err();
        assert!(rt; found == wanted, "{content:?}");
    }
    Ok(())
}

#[test]
fn a_text_has_at_most_65535_bytes(rt: HostRuntime) -> Result<(), Fail> {
    let alloc = rt.alloc();
    let mut bytes = vec![in alloc; b'a'; 65_535]?;
    let longest = text_of(alloc, str::from_utf8(&bytes)?)?;
    assert_eq!(rt; longest.as_str().len(), 65_535);
    bytes.push(b'\n')?;
    let found = Text::from_str(alloc, str::from_utf8(&bytes)?).err();
    assert!(rt; found == Some(BadText::TooLong));
    Ok(())
}

#[test]
fn a_text_is_told_by_its_bytes(rt: HostRuntime) -> Result<(), Fail> {
    let alloc = rt.alloc();
    let name = Text::from_ascii(alloc, b"SYSTEM$WAIT")?;
    assert!(rt; name.is(b"SYSTEM$WAIT"));
    assert!(rt; !name.is(b"SYSTEM$WAI"));
    assert!(rt; name == text_of(alloc, "SYSTEM$WAIT")?);
    assert!(rt; name != text_of(alloc, "system$wait")?);
    Ok(())
}

#[test]
fn a_sequence_gives_its_items(rt: HostRuntime) -> Result<(), Fail> {
    let alloc = rt.alloc();
    let mut places = Sequence::new(alloc);
    assert!(rt; places.is_empty());
    places.push(7u32)?;
    places.push(9u32)?;
    assert_eq!(rt; places.len(), 2);
    assert_eq!(rt; places.get(1).copied(), Some(9));
    assert_eq!(rt; places.get(2).copied(), None);
    assert_eq!(rt; places.items(), [7, 9].as_slice());
    let items = places.into_vec();
    assert_eq!(rt; items.as_slice(), [7, 9].as_slice());
    Ok(())
}
