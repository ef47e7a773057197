//! Kinds of sides, of what is calculated with, and of what goes into a column.

use super::{Table, assert_found};
use std::test::Fail;
use tt_history::Refusal;

#[test]
fn two_sides_have_one_kind(rt: HostRuntime) -> Result<(), Fail> {
    assert_found(
        &rt,
        &[
            ("SELECT X FROM T WHERE X = Y", &[Table::T], None),
            (
                "SELECT X FROM T WHERE X = '1'",
                &[Table::T],
                Some(Refusal::TypeMismatch(26)),
            ),
            (
                "SELECT X FROM T WHERE S < X",
                &[Table::T],
                Some(Refusal::TypeMismatch(26)),
            ),
            ("SELECT X FROM T WHERE X IN (1,2,3)", &[Table::T], None),
            (
                "SELECT X FROM T WHERE X IN (1,'2',3)",
                &[Table::T],
                Some(Refusal::TypeMismatch(30)),
            ),
            (
                "SELECT X FROM T WHERE D IN ('2024-02-29', 5)",
                &[Table::T],
                Some(Refusal::TypeMismatch(42)),
            ),
            (
                "SELECT X FROM T WHERE X NOT BETWEEN 1 AND 2",
                &[Table::T],
                None,
            ),
            (
                "SELECT X FROM T WHERE X BETWEEN 1 AND '2'",
                &[Table::T],
                Some(Refusal::TypeMismatch(38)),
            ),
            (
                "INSERT INTO T (X,S) SELECT K, V FROM U",
                &[Table::T, Table::U],
                None,
            ),
            (
                "INSERT INTO T (X,S) SELECT K, E FROM U",
                &[Table::T, Table::U],
                Some(Refusal::TypeMismatch(30)),
            ),
        ],
    )
}

#[test]
fn arithmetic_and_sums_are_of_numbers(rt: HostRuntime) -> Result<(), Fail> {
    assert_found(
        &rt,
        &[
            ("SELECT X + Y * 2 FROM T", &[Table::T], None),
            (
                "SELECT X + S FROM T",
                &[Table::T],
                Some(Refusal::TypeMismatch(11)),
            ),
            (
                "SELECT D * 2 FROM T",
                &[Table::T],
                Some(Refusal::TypeMismatch(7)),
            ),
            (
                "SELECT - S FROM T",
                &[Table::T],
                Some(Refusal::TypeMismatch(9)),
            ),
            (
                "SELECT X + (S) FROM T",
                &[Table::T],
                Some(Refusal::TypeMismatch(11)),
            ),
            ("SELECT SUM(X), MIN(S), MAX(D) FROM T", &[Table::T], None),
            (
                "SELECT SUM(S) FROM T",
                &[Table::T],
                Some(Refusal::TypeMismatch(11)),
            ),
            ("SELECT X FROM T WHERE STARTSWITH(S,'a')", &[Table::T], None),
            (
                "SELECT X FROM T WHERE STARTSWITH(X,'a')",
                &[Table::T],
                Some(Refusal::TypeMismatch(33)),
            ),
        ],
    )
}

#[test]
fn a_sum_is_found_inside_of_brackets(rt: HostRuntime) -> Result<(), Fail> {
    assert_found(
        &rt,
        &[
            ("SELECT (X + Y) * 2 FROM T", &[Table::T], None),
            (
                "SELECT (X + S) FROM T",
                &[Table::T],
                Some(Refusal::TypeMismatch(12)),
            ),
            (
                "SELECT (S + X) * 2 FROM T",
                &[Table::T],
                Some(Refusal::TypeMismatch(8)),
            ),
            (
                "SELECT X + (Y + S) FROM T",
                &[Table::T],
                Some(Refusal::TypeMismatch(16)),
            ),
            (
                "SELECT (S) + X FROM T",
                &[Table::T],
                Some(Refusal::TypeMismatch(7)),
            ),
            (
                "UPDATE T SET S = X + S",
                &[Table::T],
                Some(Refusal::TypeMismatch(17)),
            ),
            (
                "UPDATE T SET X = X + S",
                &[Table::T],
                Some(Refusal::TypeMismatch(21)),
            ),
            (
                "INSERT INTO T (S) SELECT K + V FROM U",
                &[Table::T, Table::U],
                Some(Refusal::TypeMismatch(25)),
            ),
        ],
    )
}

#[test]
fn a_set_has_the_kind_of_its_column(rt: HostRuntime) -> Result<(), Fail> {
    assert_found(
        &rt,
        &[
            ("UPDATE T SET X = Y + 1", &[Table::T], None),
            (
                "UPDATE T SET X = S",
                &[Table::T],
                Some(Refusal::TypeMismatch(17)),
            ),
        ],
    )
}

#[test]
fn a_star_goes_into_columns_in_order(rt: HostRuntime) -> Result<(), Fail> {
    assert_found(
        &rt,
        &[
            ("INSERT INTO T SELECT * FROM T", &[Table::T, Table::T], None),
            (
                "INSERT INTO U (K, V) SELECT * FROM R",
                &[Table::U, Table::R],
                None,
            ),
            (
                "INSERT INTO U (V, K) SELECT * FROM R",
                &[Table::U, Table::R],
                Some(Refusal::TypeMismatch(28)),
            ),
            (
                "INSERT INTO U SELECT * FROM R",
                &[Table::U, Table::R],
                Some(Refusal::WrongCount(14)),
            ),
        ],
    )
}

#[test]
fn an_aggregate_goes_into_a_column_of_its_kind(rt: HostRuntime) -> Result<(), Fail> {
    assert_found(
        &rt,
        &[
            (
                "INSERT INTO U (K, V) SELECT COUNT(*), MAX(S) FROM T",
                &[Table::U, Table::T],
                None,
            ),
            (
                "INSERT INTO U (E) SELECT MIN(D) FROM T",
                &[Table::U, Table::T],
                None,
            ),
            (
                "INSERT INTO U (E) SELECT COUNT(*) FROM T",
                &[Table::U, Table::T],
                Some(Refusal::TypeMismatch(25)),
            ),
            (
                "INSERT INTO U (K, E) SELECT SUM(X), MIN(S) FROM T",
                &[Table::U, Table::T],
                Some(Refusal::TypeMismatch(36)),
            ),
        ],
    )
}
