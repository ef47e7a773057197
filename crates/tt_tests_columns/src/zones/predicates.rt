//! NOT, AND, OR, IN and BETWEEN.

use super::{THREE, WITH_NULLS, assert_possible};
use std::test::Fail;

#[test]
fn not_turns_true_and_false(rt: HostRuntime) -> Result<(), Fail> {
    assert_possible(
        &rt,
        THREE,
        &[
            ("NOT X = 5", "TF"),
            ("NOT X = 2", "T"),
            ("NOT NOT X = 2", "F"),
            ("NOT X < 8", "F"),
            ("NOT X = NULL", "U"),
            ("NOT Y = 5", "U"),
            ("NOT (Y = 5)", "U"),
            ("NOT (X IS NULL)", "T"),
        ],
    )
}

#[test]
fn and_and_or_take_each_truth_with_each(rt: HostRuntime) -> Result<(), Fail> {
    assert_possible(
        &rt,
        THREE,
        &[
            ("X = 5 AND Y = 5", "FU"),
            ("X = 5 OR Y = 5", "TU"),
            ("X = 2 AND Y = 5", "F"),
            ("X = 2 OR Y = 5", "U"),
            ("X < 8 AND Y = 5", "U"),
            ("X < 8 OR Y = 5", "T"),
            ("Y = 5 OR Y = 6", "U"),
            ("X = 2 OR X = 8", "F"),
            ("X = 2 OR X = 8 OR X = 5", "TF"),
            ("X >= 3 AND X <= 7", "T"),
            ("X >= 3 AND X <= 7 AND X = 8", "F"),
            // No row has both, but each by itself may be.
            ("X = 4 AND X = 6", "TF"),
            // AND binds more than OR.
            ("X = 2 OR X = 5 AND Y IS NULL", "TF"),
            ("X < 8 OR X < 8 AND X = 2", "T"),
            ("(X < 8 OR X < 8) AND X = 2", "F"),
            ("NOT (X = 5 AND Y = 5)", "TU"),
            ("NOT (X = 2 OR Y = 5)", "U"),
        ],
    )
}

#[test]
fn unknown_goes_through_and_and_or(rt: HostRuntime) -> Result<(), Fail> {
    assert_possible(
        &rt,
        WITH_NULLS,
        &[
            ("X = 5 OR X IS NULL", "TFU"),
            ("X = 10 AND X IS NULL", "FU"),
            ("X = 10 OR X IS NULL", "TFU"),
            ("X < 10 AND Y = 3", "F"),
            ("X < 10 AND Y < 3", "TU"),
            ("X < 10 OR Y < 3", "T"),
        ],
    )
}

#[test]
fn in_is_the_or_of_its_equalities(rt: HostRuntime) -> Result<(), Fail> {
    assert_possible(
        &rt,
        THREE,
        &[
            ("X IN (5)", "TF"),
            ("X IN (1, 2)", "F"),
            ("X IN (1, 8, 6)", "TF"),
            ("X IN (1, NULL)", "U"),
            ("X IN (NULL)", "U"),
            ("X IN (5, NULL)", "TU"),
            ("X NOT IN (1, 2)", "T"),
            ("X NOT IN (1, NULL)", "U"),
            ("X NOT IN (5, NULL)", "FU"),
            ("Y IN (1, 2)", "U"),
            ("5 IN (5, NULL)", "T"),
            ("NULL IN (5)", "U"),
            ("S IN ('a', 'bd')", "F"),
            ("S IN ('a', 'bbb')", "TF"),
        ],
    )
}

#[test]
fn between_is_the_and_of_its_bounds(rt: HostRuntime) -> Result<(), Fail> {
    assert_possible(
        &rt,
        THREE,
        &[
            ("X BETWEEN 4 AND 6", "TF"),
            ("X BETWEEN 3 AND 7", "T"),
            ("X BETWEEN 8 AND 9", "F"),
            ("X BETWEEN 1 AND 2", "F"),
            ("X BETWEEN 7 AND 9", "TF"),
            // The bounds are reversed: no row is between them, but each by itself may hold.
            ("X BETWEEN 6 AND 4", "TF"),
            ("X BETWEEN 8 AND 2", "F"),
            ("X NOT BETWEEN 8 AND 2", "T"),
            ("X NOT BETWEEN 3 AND 7", "F"),
            ("X BETWEEN NULL AND 7", "U"),
            ("X BETWEEN NULL AND 2", "F"),
            ("X NOT BETWEEN NULL AND 2", "T"),
            ("Y BETWEEN 1 AND 2", "U"),
            ("S BETWEEN 'b' AND 'bd'", "T"),
            ("S BETWEEN 'bca' AND 'bd'", "F"),
        ],
    )
}

#[test]
fn ranges_may_overlap_with_no_match(rt: HostRuntime) -> Result<(), Fail> {
    assert_possible(
        &rt,
        "INSERT INTO t VALUES (1,9,NULL,'a'),(9,1,NULL,'c')",
        &[
            ("X = 5", "TF"),
            ("X = Y", "TF"),
            ("S = 'b'", "TF"),
            ("STARTSWITH(S, 'b')", "TF"),
            ("X = 1 AND Y = 1", "TF"),
        ],
    )
}

#[test]
fn a_column_that_is_not_there_is_null(rt: HostRuntime) -> Result<(), Fail> {
    assert_possible(
        &rt,
        THREE,
        &[
            ("Z = 5", "U"),
            ("Z IS NULL", "T"),
            ("STARTSWITH(Z, 'a')", "U"),
        ],
    )
}
