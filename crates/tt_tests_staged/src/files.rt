//! The rows of staged files, and the record and column at which one is refused.
use std::alloc::Global;
use std::process::Abort;
use std::test::Fail;
use tt_csvin::{StagedError, rows};
use tt_history::Refusal;
use tt_value::{Column, Kind, Row, Schema, Sequence, Text, Value};

/// A number, a date and a text, of which each may be NULL or not.
fn schema(alloc: Global, nullable: [bool; 3]) -> Result<Schema, Fail> {
    let [number, date, text] = nullable;
    let mut columns = Vec::new(alloc);
    for (kind, nullable) in [
        (Kind::Int, number),
        (Kind::Date, date),
        (Kind::Varchar, text),
    ] {
        let name = Text::from_str(alloc, "C").ok().ok_or("no text")?;
        columns.push(Column {
            name,
            kind,
            nullable,
        })?;
    }
    Ok(Schema {
        columns: Sequence::from_vec(columns),
    })
}

/// The values of a row, each with a semicolon behind it; a date is its day's number.
fn line(alloc: Global, row: &Row) -> Result<String, Fail> {
    let mut line = String::new(alloc);
    for value in row.values.items() {
        let part = match value {
            Value::Null => format!(in alloc; "NULL;")?,
            Value::Int(number) => format!(in alloc; "{number};")?,
            Value::Date(day) => format!(in alloc; "day {day};")?,
            Value::Text(text) => format!(in alloc; "{};", text.as_str())?,
        };
        line.push_str(&part)?;
    }
    Ok(line)
}

fn read<R: Abort + AllocGlobal>(
    rt: &R,
    nullable: [bool; 3],
    file: &str,
) -> Result<Result<Vec<Row>, StagedError>, Fail> {
    let schema = schema(rt.alloc(), nullable)?;
    assert!(rt; file.len() < 1_000_000);
    assert!(rt; schema.columns.len() < 100);
    Ok(rows(rt.alloc(), file, &schema))
}

/// A file has these rows, in a table whose columns may all be NULL.
fn assert_rows<R: Abort + AllocGlobal>(rt: &R, file: &str, wanted: &[&str]) -> Result<(), Fail> {
    let Ok(rows) = read(rt, [true, true, true], file)? else {
        panic!(rt; "refused: {file:?}");
    };
    assert_eq!(rt; rows.len(), wanted.len(), "in {file:?}");
    for (row, wanted) in rows.iter().zip(wanted.iter()) {
        assert_eq!(rt; line(rt.alloc(), row)?.as_str(), *wanted, "in {file:?}");
    }
    Ok(())
}

fn assert_refused<R: Abort + AllocGlobal>(
    rt: &R,
    nullable: [bool; 3],
    file: &str,
    wanted: Refusal,
) -> Result<(), Fail> {
    match read(rt, nullable, file)? {
        Err(error) => assert!(rt; error == StagedError::Refused(wanted), "in {file:?}"),
        Ok(_) => panic!(rt; "not refused: {file:?}"),
    }
    Ok(())
}

#[test]
fn records_are_cut_at_line_ends_and_commas(rt: HostRuntime) -> Result<(), Fail> {
    assert_rows(&rt, "", &[])?;
    assert_rows(&rt, "\n\r\n\n", &[])?;
    assert_rows(&rt, "\u{FEFF}", &[])?;
    assert_rows(&rt, "\u{FEFF}7,,\n", &["7;NULL;NULL;"])?;
    assert_rows(&rt, "1,,a\n2,,b", &["1;NULL;a;", "2;NULL;b;"])?;
    assert_rows(&rt, "1,,a\r\n\r\n\n2,,b\r\n", &["1;NULL;a;", "2;NULL;b;"])?;
    assert_rows(&rt, "1,,a\r2,,b\r", &["1;NULL;a;", "2;NULL;b;"])?;
    assert_rows(&rt, ",, a \n", &["NULL;NULL; a ;"])?;
    Ok(())
}

#[test]
fn quotes_keep_commas_and_stand_for_themselves_in_pairs(rt: HostRuntime) -> Result<(), Fail> {
    assert_rows(
        &rt,
        "1,,\"say \"\"hi\"\", now\"\n",
        &["1;NULL;say \"hi\", now;"],
    )?;
    assert_rows(&rt, "\"\",\"\",\"\"\n", &["NULL;NULL;NULL;"])?;
    assert_rows(&rt, "\"12\",\"1970-01-01\",\"x\"", &["12;day 0;x;"])?;
    assert_rows(&rt, ",,a\"b", &["NULL;NULL;a\"b;"])?;
    assert_rows(&rt, ",,\"a\"b", &["NULL;NULL;ab;"])?;
    assert_rows(&rt, ",,\"a,b", &["NULL;NULL;a,b;"])?;
    assert_rows(&rt, ",,\"\"\"\"", &["NULL;NULL;\";"])?;
    Ok(())
}

#[test]
fn fields_are_read_by_kind(rt: HostRuntime) -> Result<(), Fail> {
    assert_rows(&rt, "-0,,", &["0;NULL;NULL;"])?;
    assert_rows(&rt, "007,,", &["7;NULL;NULL;"])?;
    assert_rows(
        &rt,
        "-9223372036854775808,,",
        &["-9223372036854775808;NULL;NULL;"],
    )?;
    assert_rows(
        &rt,
        "9223372036854775807,,",
        &["9223372036854775807;NULL;NULL;"],
    )?;
    assert_rows(&rt, ",0001-01-01,", &["NULL;day -719162;NULL;"])?;
    assert_rows(&rt, ",9999-12-31,", &["NULL;day 2932896;NULL;"])?;
    assert_rows(&rt, ",2000-02-29,NULL", &["NULL;day 11016;NULL;"])?;
    assert_rows(&rt, ",,\u{E9}\u{20AC}", &["NULL;NULL;\u{E9}\u{20AC};"])?;
    Ok(())
}

#[test]
fn a_field_that_cannot_be_read_is_refused_at_its_column(rt: HostRuntime) -> Result<(), Fail> {
    for number in [
        "12345678901234567890",
        "9223372036854775808",
        "-9223372036854775809",
        "+1",
        "1.0",
        " 1",
        "-",
        "--1",
        "NULL",
    ] {
        let file = format!(in rt.alloc(); "1,,a\n{number},,b\n")?;
        assert_refused(
            &rt,
            [true, true, true],
            file.as_str(),
            Refusal::BadData(2, 1),
        )?;
    }
    for date in ["0000-01-01", "2001-02-29", "2001-2-3", "10000-01-01"] {
        let file = format!(in rt.alloc(); ",{date},\n")?;
        assert_refused(
            &rt,
            [true, true, true],
            file.as_str(),
            Refusal::BadData(1, 2),
        )?;
    }
    assert_refused(
        &rt,
        [true, true, true],
        ",,\"a\nb\"",
        Refusal::BadData(1, 3),
    )?;
    assert_refused(&rt, [true, true, true], ",,a\tb", Refusal::BadData(1, 3))?;
    Ok(())
}

#[test]
fn the_first_record_and_in_it_the_first_column_decide(rt: HostRuntime) -> Result<(), Fail> {
    for (file, wanted) in [
        ("1,2000-01-01,a\n2,2000-01-01\n", Refusal::BadData(2, 0)),
        ("1,2000-01-01,a,\n", Refusal::BadData(1, 0)),
        ("x,\n", Refusal::BadData(1, 0)),
        ("1\n", Refusal::BadData(1, 0)),
        ("1,,a\n", Refusal::NullInRow(2)),
        (
            "1,2000-01-01,a\n2,,b\nx,2000-01-01,c\n",
            Refusal::NullInRow(2),
        ),
        (
            "1,2000-01-01,a\nx,2000-01-01,c\n2,,b\n",
            Refusal::BadData(2, 1),
        ),
        (",x,a\n", Refusal::NullInRow(1)),
        ("x,,a\n", Refusal::BadData(1, 1)),
        ("1,x,\"\"\n", Refusal::BadData(1, 2)),
        ("1,2000-01-01,\"\"\n", Refusal::NullInRow(3)),
    ] {
        assert_refused(&rt, [false, false, false], file, wanted)?;
    }
    Ok(())
}
