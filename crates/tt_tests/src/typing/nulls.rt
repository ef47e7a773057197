//! Where NULL fits, and where none may stand.

use super::{Table, assert_found};
use std::test::Fail;
use tt_history::Refusal;

#[test]
fn null_fits_every_kind(rt: HostRuntime) -> Result<(), Fail> {
    assert_found(
        &rt,
        &[
            ("SELECT X FROM T WHERE D = NULL", &[Table::T], None),
            ("SELECT X FROM T WHERE S IN (NULL)", &[Table::T], None),
            (
                "INSERT INTO T VALUES (NULL,NULL,'a',NULL)",
                &[Table::T],
                None,
            ),
            ("UPDATE T SET X = NULL", &[Table::T], None),
            (
                "INSERT INTO T VALUES (NULL,NULL,NULL,NULL)",
                &[Table::T],
                Some(Refusal::NullInNotNull(32)),
            ),
            (
                "UPDATE T SET S = NULL",
                &[Table::T],
                Some(Refusal::NullInNotNull(17)),
            ),
            (
                "INSERT INTO T SELECT K, E, NULL, K FROM U",
                &[Table::T, Table::U],
                Some(Refusal::NullInNotNull(27)),
            ),
        ],
    )
}

#[test]
fn null_fits_on_each_side_and_as_a_bound(rt: HostRuntime) -> Result<(), Fail> {
    assert_found(
        &rt,
        &[
            ("SELECT X FROM T WHERE NULL = D", &[Table::T], None),
            (
                "SELECT X FROM T WHERE D BETWEEN NULL AND NULL",
                &[Table::T],
                None,
            ),
            (
                "SELECT X FROM T WHERE X BETWEEN NULL AND 'a'",
                &[Table::T],
                Some(Refusal::TypeMismatch(41)),
            ),
            ("SELECT NULL + X, Y * NULL FROM T", &[Table::T], None),
            ("SELECT 1 + NULL FROM T", &[Table::T], None),
            (
                "INSERT INTO T SELECT NULL, NULL, V, NULL FROM U",
                &[Table::T, Table::U],
                None,
            ),
        ],
    )
}

#[test]
fn only_the_literal_alone_is_a_written_null(rt: HostRuntime) -> Result<(), Fail> {
    assert_found(
        &rt,
        &[
            ("UPDATE T SET S = (NULL)", &[Table::T], None),
            (
                "UPDATE R SET X = NULL",
                &[Table::R],
                Some(Refusal::NullInNotNull(17)),
            ),
            ("UPDATE R SET X = NULL + 1", &[Table::R], None),
            ("UPDATE R SET X = -NULL", &[Table::R], None),
            (
                "UPDATE T SET S = -NULL",
                &[Table::T],
                Some(Refusal::TypeMismatch(17)),
            ),
            (
                "INSERT INTO T SELECT K, E, (NULL), K FROM U",
                &[Table::T, Table::U],
                None,
            ),
            (
                "INSERT INTO R SELECT -NULL, V FROM U",
                &[Table::R, Table::U],
                None,
            ),
        ],
    )
}

#[test]
fn columns_that_are_left_out_take_null(rt: HostRuntime) -> Result<(), Fail> {
    assert_found(
        &rt,
        &[
            ("INSERT INTO T (X,S) VALUES (1,'a')", &[Table::T], None),
            (
                "INSERT INTO T (X) VALUES (1)",
                &[Table::T],
                Some(Refusal::NullInNotNull(12)),
            ),
            (
                "INSERT INTO T (X) SELECT K FROM U",
                &[Table::T, Table::U],
                Some(Refusal::NullInNotNull(12)),
            ),
        ],
    )
}
