//! One condition.

use super::{ONE, THREE, WITH_NULLS, assert_possible};
use std::test::Fail;

#[test]
fn numbers_are_compared_by_their_ranges(rt: HostRuntime) -> Result<(), Fail> {
    assert_possible(
        &rt,
        THREE,
        &[
            ("X = 2", "F"),
            ("X = 3", "TF"),
            ("X = 5", "TF"),
            ("X = 4", "TF"),
            ("X = 7", "TF"),
            ("X = 8", "F"),
            ("X <> 5", "TF"),
            ("X <> 2", "T"),
            ("X < 3", "F"),
            ("X < 4", "TF"),
            ("X < 7", "TF"),
            ("X < 8", "T"),
            ("X <= 2", "F"),
            ("X <= 3", "TF"),
            ("X <= 6", "TF"),
            ("X <= 7", "T"),
            ("X > 7", "F"),
            ("X > 6", "TF"),
            ("X > 3", "TF"),
            ("X > 2", "T"),
            ("X >= 8", "F"),
            ("X >= 7", "TF"),
            ("X >= 4", "TF"),
            ("X >= 3", "T"),
            ("2 = X", "F"),
            ("8 > X", "T"),
            ("X = X", "TF"),
            ("X < X", "TF"),
            ("5 = 5", "T"),
            ("5 = 6", "F"),
            ("5 < 6", "T"),
            ("6 <= 5", "F"),
        ],
    )
}

#[test]
fn one_row_is_known(rt: HostRuntime) -> Result<(), Fail> {
    assert_possible(
        &rt,
        ONE,
        &[
            ("X = 5", "T"),
            ("X <> 5", "F"),
            ("X = 4", "F"),
            ("X < 5", "F"),
            ("X <= 5", "T"),
            ("X = Y", "F"),
            ("Y < X", "T"),
            ("X < Y", "F"),
            ("X = X", "T"),
            ("S = 'ab'", "T"),
            ("S < 'b'", "T"),
            ("D = '2024-02-29'", "T"),
            ("STARTSWITH(S, 'a')", "T"),
            ("STARTSWITH(S, 'b')", "F"),
            ("X IS NULL", "F"),
        ],
    )
}

#[test]
fn null_is_unknown(rt: HostRuntime) -> Result<(), Fail> {
    assert_possible(
        &rt,
        THREE,
        &[
            ("X = NULL", "U"),
            ("NULL <> X", "U"),
            ("NULL = NULL", "U"),
            ("Y = 5", "U"),
            ("Y <> 5", "U"),
            ("Y = Y", "U"),
            ("X < Y", "U"),
            ("Y IS NULL", "T"),
            ("Y IS NOT NULL", "F"),
            ("X IS NULL", "F"),
            ("X IS NOT NULL", "T"),
            ("NULL IS NULL", "T"),
            ("5 IS NULL", "F"),
            ("5 IS NOT NULL", "T"),
        ],
    )
}

#[test]
fn some_nulls_leave_unknown_possible(rt: HostRuntime) -> Result<(), Fail> {
    assert_possible(
        &rt,
        WITH_NULLS,
        &[
            ("X = 5", "TFU"),
            ("X = 10", "FU"),
            ("X <> 10", "TU"),
            ("X < 10", "TU"),
            ("X > 9", "FU"),
            ("X = Y", "TFU"),
            ("X IS NULL", "TF"),
            ("X IS NOT NULL", "TF"),
            ("D = '2024-02-10'", "U"),
            ("D IS NULL", "T"),
            ("STARTSWITH(S, 'b')", "TU"),
            ("STARTSWITH(S, 'c')", "FU"),
        ],
    )
}

#[test]
fn a_quoted_text_beside_a_date_is_a_date(rt: HostRuntime) -> Result<(), Fail> {
    assert_possible(
        &rt,
        THREE,
        &[
            ("D = '2024-02-10'", "TF"),
            ("D = DATE'2024-02-10'", "TF"),
            ("D = '2024-03-01'", "F"),
            ("D = DATE'2024-01-31'", "F"),
            ("D < '2024-02-01'", "F"),
            ("D >= '2024-02-01'", "T"),
            ("'2024-03-01' > D", "T"),
            ("D <= '2024-02-28'", "TF"),
            ("D IN ('2024-01-01', '2024-02-29')", "TF"),
            ("D BETWEEN '2024-01-01' AND '2024-01-31'", "F"),
            ("D BETWEEN '2024-02-01' AND '2024-02-29'", "T"),
            ("DATE'2024-02-10' = '2024-02-10'", "T"),
            ("'2024-02-10' < DATE'2024-02-10'", "F"),
            ("'2024-02-10' IN (DATE'2024-02-10', '2024-02-11')", "T"),
            ("'2024-02-10' IN (DATE'2024-02-11', '2024-02-11')", "F"),
            // No dates, so they are refused before; here they are NULL.
            ("D = '2024-02-30'", "U"),
            ("D = '2024-2-10'", "U"),
            ("D = '2024-02-10 '", "U"),
            ("D = '0000-12-31'", "U"),
        ],
    )
}

#[test]
fn texts_begin_with_a_front(rt: HostRuntime) -> Result<(), Fail> {
    assert_possible(
        &rt,
        THREE,
        &[
            ("STARTSWITH(S, '')", "T"),
            ("STARTSWITH(S, 'b')", "T"),
            ("STARTSWITH(S, 'ba')", "TF"),
            ("STARTSWITH(S, 'bb')", "TF"),
            ("STARTSWITH(S, 'bbx')", "TF"),
            ("STARTSWITH(S, 'bc')", "TF"),
            ("STARTSWITH(S, 'bca')", "F"),
            ("STARTSWITH(S, 'bd')", "F"),
            ("STARTSWITH(S, 'c')", "F"),
            ("STARTSWITH(S, 'a')", "F"),
            ("STARTSWITH(S, 'azz')", "F"),
            ("NOT STARTSWITH(S, 'b')", "F"),
            ("NOT STARTSWITH(S, 'c')", "T"),
        ],
    )
}

#[test]
fn a_front_may_end_with_the_greatest_character(rt: HostRuntime) -> Result<(), Fail> {
    assert_possible(
        &rt,
        "INSERT INTO t VALUES (1,1,NULL,'a'),(1,1,NULL,'\u{10ffff}\u{10ffff}b')",
        &[
            ("STARTSWITH(S, '\u{10ffff}')", "TF"),
            ("STARTSWITH(S, '\u{10ffff}\u{10ffff}')", "TF"),
            ("STARTSWITH(S, '\u{10ffff}\u{10ffff}\u{10ffff}')", "F"),
            ("STARTSWITH(S, '\u{ff}')", "TF"),
        ],
    )?;
    assert_possible(
        &rt,
        "INSERT INTO t VALUES (1,1,NULL,'\u{ff}'),(1,1,NULL,'\u{ff}\u{ff}')",
        &[
            ("STARTSWITH(S, '\u{ff}')", "T"),
            ("STARTSWITH(S, '\u{ff}\u{ff}')", "TF"),
            ("STARTSWITH(S, '\u{fe}')", "F"),
            ("STARTSWITH(S, '\u{10ffff}')", "F"),
        ],
    )
}
