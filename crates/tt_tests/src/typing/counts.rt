//! Numbers of values and columns, and names that stand twice.

use super::{Table, assert_found};
use std::test::Fail;
use tt_history::Refusal;

#[test]
fn numbers_of_values_and_columns_agree(rt: HostRuntime) -> Result<(), Fail> {
    assert_found(
        &rt,
        &[
            (
                "INSERT INTO T VALUES (1,NULL,'a',2),(1,NULL,'a')",
                &[Table::T],
                Some(Refusal::WrongCount(36)),
            ),
            (
                "INSERT INTO T VALUES (1,NULL,'a',2,3)",
                &[Table::T],
                Some(Refusal::WrongCount(21)),
            ),
            (
                "INSERT INTO T (X,S) VALUES (1)",
                &[Table::T],
                Some(Refusal::WrongCount(27)),
            ),
            (
                "INSERT INTO T SELECT K FROM U",
                &[Table::T, Table::U],
                Some(Refusal::WrongCount(14)),
            ),
            ("UPDATE T SET X = 1, Y = 2", &[Table::T], None),
            (
                "INSERT INTO T (X,X) VALUES (1,2)",
                &[Table::T],
                Some(Refusal::WrongCount(17)),
            ),
            (
                "CREATE TABLE N (A INT, B INT, A INT)",
                &[],
                Some(Refusal::WrongCount(30)),
            ),
            (
                "CREATE TABLE N (C1 INT,C2 INT,C3 INT,C4 INT,C5 INT,C6 INT,C7 INT,C8 INT,C9 INT,C10 INT,C11 INT,C12 INT,C13 INT,C14 INT,C15 INT,C16 INT,C17 INT,C18 INT,C19 INT,C20 INT,C21 INT,C22 INT,C23 INT,C24 INT,C25 INT,C26 INT,C27 INT,C28 INT,C29 INT,C30 INT,C31 INT,C32 INT)",
                &[],
                None,
            ),
            (
                "CREATE TABLE N (C1 INT,C2 INT,C3 INT,C4 INT,C5 INT,C6 INT,C7 INT,C8 INT,C9 INT,C10 INT,C11 INT,C12 INT,C13 INT,C14 INT,C15 INT,C16 INT,C17 INT,C18 INT,C19 INT,C20 INT,C21 INT,C22 INT,C23 INT,C24 INT,C25 INT,C26 INT,C27 INT,C28 INT,C29 INT,C30 INT,C31 INT,C32 INT,C33 INT,C34 INT)",
                &[],
                Some(Refusal::WrongCount(263)),
            ),
        ],
    )
}
