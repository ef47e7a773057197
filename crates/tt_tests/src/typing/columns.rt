//! Names that are columns, keys that are items, and items that are columns of the group.

use super::{Table, assert_found};
use std::test::Fail;
use tt_history::Refusal;

#[test]
fn names_are_columns(rt: HostRuntime) -> Result<(), Fail> {
    assert_found(
        &rt,
        &[
            (
                "SELECT COUNT(Z) FROM T",
                &[Table::T],
                Some(Refusal::UnknownColumn(13)),
            ),
            (
                "SELECT X FROM T WHERE Z IS NULL",
                &[Table::T],
                Some(Refusal::UnknownColumn(22)),
            ),
            (
                "EXPLAIN SELECT X FROM T WHERE NOT (Z = 1)",
                &[Table::T],
                Some(Refusal::UnknownColumn(35)),
            ),
            (
                "UPDATE T SET Z = 1",
                &[Table::T],
                Some(Refusal::UnknownColumn(13)),
            ),
            (
                "UPDATE T SET X = Z",
                &[Table::T],
                Some(Refusal::UnknownColumn(17)),
            ),
            (
                "DELETE FROM T WHERE Z = 1",
                &[Table::T],
                Some(Refusal::UnknownColumn(20)),
            ),
            ("CREATE TABLE N (A INT, B INT) CLUSTER BY (B)", &[], None),
            ("ALTER TABLE T CLUSTER BY (X)", &[Table::T], None),
            (
                "ALTER TABLE T CLUSTER BY (Z)",
                &[Table::T],
                Some(Refusal::UnknownColumn(26)),
            ),
        ],
    )
}

#[test]
fn keys_are_positions_or_items(rt: HostRuntime) -> Result<(), Fail> {
    assert_found(
        &rt,
        &[
            ("SELECT X FROM T ORDER BY 1 DESC", &[Table::T], None),
            (
                "SELECT X FROM T ORDER BY 0",
                &[Table::T],
                Some(Refusal::UnknownColumn(25)),
            ),
            (
                "SELECT X FROM T ORDER BY 2",
                &[Table::T],
                Some(Refusal::UnknownColumn(25)),
            ),
            (
                "SELECT X FROM T ORDER BY Y",
                &[Table::T],
                Some(Refusal::UnknownColumn(25)),
            ),
            ("SELECT * FROM T ORDER BY Y, 4", &[Table::T], None),
            (
                "SELECT * FROM T ORDER BY 5",
                &[Table::T],
                Some(Refusal::UnknownColumn(25)),
            ),
            ("SELECT X, X FROM T ORDER BY X", &[Table::T], None),
        ],
    )
}

#[test]
fn a_plain_column_is_a_name_alone(rt: HostRuntime) -> Result<(), Fail> {
    assert_found(
        &rt,
        &[
            (
                "SELECT (X) FROM T GROUP BY X",
                &[Table::T],
                Some(Refusal::TypeMismatch(7)),
            ),
            (
                "SELECT COUNT(*), NULL FROM T",
                &[Table::T],
                Some(Refusal::TypeMismatch(17)),
            ),
            ("SELECT X, COUNT(*) FROM T GROUP BY X, X", &[Table::T], None),
            (
                "SELECT (X) FROM T ORDER BY X",
                &[Table::T],
                Some(Refusal::UnknownColumn(27)),
            ),
            (
                "SELECT MIN(X) FROM T ORDER BY X",
                &[Table::T],
                Some(Refusal::UnknownColumn(30)),
            ),
            (
                "SELECT * FROM T ORDER BY Z",
                &[Table::T],
                Some(Refusal::UnknownColumn(25)),
            ),
        ],
    )
}

#[test]
fn items_beside_aggregates_are_group_columns(rt: HostRuntime) -> Result<(), Fail> {
    assert_found(
        &rt,
        &[
            ("SELECT X, COUNT(*) FROM T GROUP BY X", &[Table::T], None),
            (
                "SELECT Y, COUNT(*) FROM T GROUP BY X",
                &[Table::T],
                Some(Refusal::TypeMismatch(7)),
            ),
            (
                "SELECT X, COUNT(*) FROM T",
                &[Table::T],
                Some(Refusal::TypeMismatch(7)),
            ),
            (
                "SELECT * FROM T GROUP BY X",
                &[Table::T],
                Some(Refusal::TypeMismatch(7)),
            ),
            (
                "SELECT X + 1 FROM T GROUP BY X",
                &[Table::T],
                Some(Refusal::TypeMismatch(7)),
            ),
            (
                "SELECT X, COUNT(*) FROM T GROUP BY Z",
                &[Table::T],
                Some(Refusal::UnknownColumn(35)),
            ),
        ],
    )
}
