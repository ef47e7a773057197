//! Which refusal comes first.

use super::{Table, assert_found};
use std::test::Fail;
use tt_history::Refusal;

#[test]
fn the_least_number_comes_first_and_then_the_leftmost_place(rt: HostRuntime) -> Result<(), Fail> {
    assert_found(
        &rt,
        &[
            (
                "SELECT X + S, Z FROM T",
                &[Table::T],
                Some(Refusal::UnknownColumn(14)),
            ),
            (
                "SELECT Z, X + S FROM T",
                &[Table::T],
                Some(Refusal::UnknownColumn(7)),
            ),
            (
                "SELECT Z, W FROM T",
                &[Table::T],
                Some(Refusal::UnknownColumn(7)),
            ),
            (
                "INSERT INTO T (Z) VALUES (NULL, 1)",
                &[Table::T],
                Some(Refusal::UnknownColumn(15)),
            ),
            (
                "CREATE TABLE N (A INT, A INT) CLUSTER BY (B)",
                &[],
                Some(Refusal::UnknownColumn(42)),
            ),
            (
                "INSERT INTO T VALUES ('a',NULL,NULL,1),(1)",
                &[Table::T],
                Some(Refusal::WrongCount(39)),
            ),
            (
                "INSERT INTO T VALUES ('a',NULL,NULL,1)",
                &[Table::T],
                Some(Refusal::TypeMismatch(22)),
            ),
            (
                "INSERT INTO T VALUES (1,NULL,NULL,'a')",
                &[Table::T],
                Some(Refusal::TypeMismatch(34)),
            ),
            (
                "UPDATE T SET S = NULL, X = 1, X = 'a'",
                &[Table::T],
                Some(Refusal::WrongCount(30)),
            ),
        ],
    )
}
