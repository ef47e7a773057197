//! Layouts of tables, their changes and the pieces of the chain, by hand.
ghost use Rattle.std.specs.Prelude.{◌≡◌, ◌+◌, ◌^◌, ◌<◌, length, IfOk};

use std::alloc::{AllocError, Global};
use std::process::Abort;
use std::test::Fail;
use tt_layout::{Layouts, Piece};

fn list_of(alloc: Global, numbers: &[u64]) -> Result<Vec<u64>, Fail>
    ensures { IfOk result (λ list. list.items ≡ numbers.now) }
{
    let mut list = Vec::new(alloc);
    list.extend_from_slice(numbers)?;
    Ok(list)
}

/// A table in which each of so many changes adds the next part, from moment 2 on.
fn chain_of(alloc: Global, count: u64) -> Result<Layouts, Fail>
    requires { count < 2 ^ 32 }
    ensures { IfOk result (λ layouts. length layouts ≡ count + 1) }
{
    let mut layouts = Layouts::new(alloc, 1, Vec::new(alloc))?;
    for number in 0..count {
        layouts.push(number + 2, &[], &[number + 1])?;
    }
    Ok(layouts)
}

/// An equal value of its own.
fn copy_of(layouts: &Layouts) -> Result<Layouts, AllocError>
    ensures { IfOk result (λ copy. copy ≡ layouts.now) }
{
    layouts.clone()
}

/// At each moment the numbers, none before the first layout.
fn assert_layouts<R: Abort>(
    rt: &R,
    layouts: &Layouts,
    rows: &[(u64, Option<&[u64]>)],
) -> Result<(), Fail> {
    for (moment, wanted) in rows {
        let found = layouts.at(*moment)?;
        match (&found, wanted) {
            (Some(numbers), Some(list)) => assert_eq!(rt; numbers.as_slice(), *list, "at {moment}"),
            (None, None) => {}
            _ => panic!(rt; "at {moment}"),
        }
    }
    Ok(())
}

#[test]
fn changes_and_moments(rt: HostRuntime) -> Result<(), Fail> {
    let alloc = rt.alloc();
    let mut layouts = Layouts::new(alloc, 5, list_of(alloc, &[1, 2, 9])?)?;
    layouts.push(10, &[2], &[4, 12])?;
    layouts.push(10, &[1, 12], &[])?;
    layouts.push(20, &[], &[2])?;
    assert_layouts(
        &rt,
        &layouts,
        &[
            (0, None),
            (4, None),
            (5, Some(&[1, 2, 9])),
            (9, Some(&[1, 2, 9])),
            (10, Some(&[4, 9])),
            (19, Some(&[4, 9])),
            (20, Some(&[2, 4, 9])),
            (u64::MAX, Some(&[2, 4, 9])),
        ],
    )?;
    assert_eq!(rt; layouts.current()?.as_slice(), [2, 4, 9].as_slice());
    layouts.pop();
    assert_eq!(rt; layouts.current()?.as_slice(), [4, 9].as_slice());
    layouts.pop();
    assert_eq!(rt; layouts.current()?.as_slice(), [1, 4, 9, 12].as_slice());
    layouts.pop();
    assert_eq!(rt; layouts.current()?.as_slice(), [1, 2, 9].as_slice());
    Ok(())
}

/// Piece k begins at k + 1; it is full where 64 divides k, with the parts 1 to k, and else adds the part k.
fn assert_pieces<R: Abort>(rt: &R, layouts: &Layouts, count: usize) {
    let pieces = layouts.pieces();
    assert_eq!(rt; pieces.len(), count);
    let mut place: u64 = 0;
    for (begun, piece) in pieces {
        assert!(rt; place < 1_000);
        assert_eq!(rt; *begun, place + 1);
        match piece {
            Piece::Full(numbers) => {
                assert!(rt;
                    place == 0 || place == 64 || place == 128,
                    "full at {place}"
                );
                assert_eq!(rt; numbers.len() as u64, place);
                assert_eq!(rt; numbers.items().last().copied().unwrap_or(0), place);
            }
            Piece::Change { gone, added } => {
                assert!(rt;
                    place != 0 && place != 64 && place != 128,
                    "a change at {place}"
                );
                assert!(rt; gone.is_empty());
                assert_eq!(rt; added.items(), [place].as_slice());
            }
        }
        place += 1;
    }
}

#[test]
fn each_64th_piece_is_full(rt: HostRuntime) -> Result<(), Fail> {
    let layouts = chain_of(rt.alloc(), 130)?;
    assert_pieces(&rt, &layouts, 131);
    for (moment, count) in [
        (1, 0),
        (64, 63),
        (65, 64),
        (66, 65),
        (131, 130),
        (1_000, 130),
    ] {
        let Some(numbers) = layouts.at(moment)? else {
            panic!(rt; "none at {moment}")
        };
        assert_eq!(rt; numbers.len(), count, "at {moment}");
        assert_eq!(rt;
            numbers.last().copied().unwrap_or(0),
            count as u64,
            "at {moment}"
        );
    }
    assert_eq!(rt; layouts.current()?.len(), 130);
    Ok(())
}

#[test]
fn a_full_piece_is_taken_back(rt: HostRuntime) -> Result<(), Fail> {
    let mut layouts = chain_of(rt.alloc(), 64)?;
    assert_pieces(&rt, &layouts, 65);
    layouts.pop();
    assert_pieces(&rt, &layouts, 64);
    assert_eq!(rt; layouts.current()?.len(), 63);
    let mut shorter = chain_of(rt.alloc(), 63)?;
    shorter.pop();
    assert_pieces(&rt, &shorter, 63);
    assert_eq!(rt; shorter.current()?.len(), 62);
    Ok(())
}

#[test]
fn a_copy_is_a_value_of_its_own(rt: HostRuntime) -> Result<(), Fail> {
    let mut layouts = Layouts::new(rt.alloc(), 5, list_of(rt.alloc(), &[1, 2])?)?;
    layouts.push(10, &[2], &[4])?;
    let copy = copy_of(&layouts)?;
    layouts.pop();
    assert_layouts(
        &rt,
        &copy,
        &[(4, None), (9, Some(&[1, 2])), (10, Some(&[1, 4]))],
    )?;
    assert_eq!(rt; layouts.current()?.as_slice(), [1, 2].as_slice());
    Ok(())
}
