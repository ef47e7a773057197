//! Texts in quotes that are dates.

use super::{Table, assert_found};
use std::test::Fail;
use tt_history::Refusal;

#[test]
fn a_quoted_text_beside_a_date_is_a_date(rt: HostRuntime) -> Result<(), Fail> {
    assert_found(
        &rt,
        &[
            ("SELECT X FROM T WHERE D = '2024-02-29'", &[Table::T], None),
            (
                "SELECT X FROM T WHERE D = '2026-02-29'",
                &[Table::T],
                Some(Refusal::TypeMismatch(26)),
            ),
            (
                "SELECT X FROM T WHERE D IN ('2026-01-01',NULL)",
                &[Table::T],
                None,
            ),
            (
                "SELECT X FROM T WHERE D IN ('2026-01-01','x')",
                &[Table::T],
                Some(Refusal::TypeMismatch(41)),
            ),
            (
                "SELECT X FROM T WHERE D BETWEEN '2026-01-01' AND '2026-12-31'",
                &[Table::T],
                None,
            ),
            (
                "SELECT X FROM T WHERE D BETWEEN '' AND '2026-12-31'",
                &[Table::T],
                Some(Refusal::TypeMismatch(32)),
            ),
            (
                "INSERT INTO T VALUES (1,'2026-12-01','a',2)",
                &[Table::T],
                None,
            ),
            (
                "INSERT INTO T VALUES (1,'2026-12-32','a',2)",
                &[Table::T],
                Some(Refusal::TypeMismatch(24)),
            ),
            ("UPDATE T SET D = '2026-01-01'", &[Table::T], None),
            (
                "UPDATE T SET D = 'x'",
                &[Table::T],
                Some(Refusal::TypeMismatch(17)),
            ),
            (
                "INSERT INTO T SELECT K, '2026-01-01', V, K FROM U",
                &[Table::T, Table::U],
                None,
            ),
            (
                "INSERT INTO T SELECT K, 'x', V, K FROM U",
                &[Table::T, Table::U],
                Some(Refusal::TypeMismatch(24)),
            ),
        ],
    )
}

#[test]
fn each_comparison_is_taken_by_itself(rt: HostRuntime) -> Result<(), Fail> {
    assert_found(
        &rt,
        &[
            ("SELECT X FROM T WHERE '2026-02-28' = D", &[Table::T], None),
            (
                "SELECT X FROM T WHERE '2026-02-30' = D",
                &[Table::T],
                Some(Refusal::TypeMismatch(22)),
            ),
            (
                "SELECT X FROM T WHERE DATE '2026-01-01' IN ('2026-01-02', '2026-01-03')",
                &[Table::T],
                None,
            ),
            (
                "SELECT X FROM T WHERE DATE '2026-01-01' IN ('2026-01-02', 'x')",
                &[Table::T],
                Some(Refusal::TypeMismatch(58)),
            ),
            (
                "SELECT X FROM T WHERE '2026-01-01' IN (DATE '2026-01-02', 'x')",
                &[Table::T],
                None,
            ),
            (
                "SELECT X FROM T WHERE 'x' IN (DATE '2026-01-02', 'y')",
                &[Table::T],
                Some(Refusal::TypeMismatch(22)),
            ),
            (
                "SELECT X FROM T WHERE 'x' BETWEEN 'a' AND DATE '2026-01-02'",
                &[Table::T],
                Some(Refusal::TypeMismatch(22)),
            ),
            (
                "SELECT X FROM T WHERE 'x' IN ('y', 1)",
                &[Table::T],
                Some(Refusal::TypeMismatch(35)),
            ),
            (
                "SELECT X FROM T WHERE X NOT IN (1, 'a')",
                &[Table::T],
                Some(Refusal::TypeMismatch(35)),
            ),
        ],
    )
}

#[test]
fn a_text_in_brackets_is_no_date(rt: HostRuntime) -> Result<(), Fail> {
    assert_found(
        &rt,
        &[
            (
                "UPDATE T SET D = ('2026-01-01')",
                &[Table::T],
                Some(Refusal::TypeMismatch(17)),
            ),
            ("UPDATE T SET S = ('a')", &[Table::T], None),
            (
                "INSERT INTO T SELECT K, ('2026-01-01'), V, K FROM U",
                &[Table::T, Table::U],
                Some(Refusal::TypeMismatch(24)),
            ),
        ],
    )
}
