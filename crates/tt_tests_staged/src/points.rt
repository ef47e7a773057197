//! The moments that clauses mean, and why they are refused.
use sqlite_items::Items;
use std::alloc::Global;
use std::process::Abort;
use std::test::Fail;
use tt_history::Refusal;
use tt_script::{Program, read};
use tt_sql::{Clause, Moment, Number, Offset, Quoted, Side};
use tt_travel::point;
use tt_value::Text;

/// The points of the four statements of session `a1`: one that has ended, one that has an entry and no point, one without an
/// entry, and one that ended last.
const POINTS: [Option<u64>; 4] = [Some(5), Some(u64::MAX), None, Some(7)];

fn program<R: Abort + AllocGlobal>(rt: &R) -> Result<Program, Fail> {
    let mut bytes = Vec::new(rt.alloc());
    bytes.extend_from_slice(b"%session a1\na;b;c;d\n")?;
    assert!(rt; bytes.len() < 1_000);
    Ok(read(rt.alloc(), bytes).ok().ok_or("no program")?)
}

fn assert_point<R: Abort + AllocGlobal>(
    rt: &R,
    side: Side,
    moment: Moment,
    now: u64,
    wanted: Result<i64, Refusal>,
) -> Result<(), Fail> {
    let clause = Clause { side, moment };
    assert!(rt; now < 4_611_686_018_427_387_904);
    let found = point(&clause, now, POINTS.as_slice(), &program(rt)?);
    match (found, wanted) {
        (Ok(x), Ok(y)) => assert_eq!(rt; x, y, "at {now}"),
        (Err(x), Err(y)) => assert!(rt; x == y, "at {now}"),
        (Ok(x), Err(_)) => panic!(rt; "{x} at {now}"),
        (Err(_), Ok(y)) => panic!(rt; "refused at {now}, and not {y}"),
    }
    Ok(())
}

fn offset(alloc: Global, negative: bool, numbers: &[u64]) -> Result<Moment, Fail> {
    let mut factors = Items::new(alloc);
    for value in numbers {
        factors.push(Number {
            value: *value,
            place: 0,
        })?;
    }
    Ok(Moment::Offset(Offset { negative, factors }))
}

#[test]
fn timestamps_are_judged_on_their_side(rt: HostRuntime) -> Result<(), Fail> {
    let last = 4_611_686_018_427_387_903;
    for (side, x, now, wanted) in [
        (Side::At, 5, 5, Ok(5)),
        (Side::At, 6, 5, Err(Refusal::InFuture)),
        (Side::Before, 6, 5, Ok(5)),
        (Side::Before, 7, 5, Err(Refusal::InFuture)),
        (Side::At, 0, 5, Ok(0)),
        (Side::Before, 0, 5, Ok(-1)),
        (Side::At, -1, 5, Ok(-1)),
        (Side::At, -1_000, 5, Ok(-1)),
        (Side::Before, i64::MIN, 5, Ok(-1)),
        (Side::At, i64::MAX, last, Err(Refusal::InFuture)),
        (
            Side::Before,
            4_611_686_018_427_387_904,
            last,
            Ok(4_611_686_018_427_387_903),
        ),
    ] {
        assert_point(&rt, side, Moment::Timestamp(x), now, wanted)?;
    }
    Ok(())
}

#[test]
fn offsets_are_seconds_from_now(rt: HostRuntime) -> Result<(), Fail> {
    let most = 999_999_999;
    for (side, negative, numbers, now, wanted) in [
        (Side::At, true, [1, 1, 1], 5_000, Ok(4_000)),
        (Side::Before, true, [1, 1, 1], 5_000, Ok(3_999)),
        (Side::At, false, [0, 1, 1], 5_000, Ok(5_000)),
        (Side::Before, false, [0, 1, 1], 5_000, Ok(4_999)),
        (Side::At, false, [1, 1, 1], 5_000, Err(Refusal::InFuture)),
        (
            Side::Before,
            false,
            [1, 1, 1],
            5_000,
            Err(Refusal::InFuture),
        ),
        (Side::At, true, [5, 1, 1], 5_000, Ok(0)),
        (Side::Before, true, [5, 1, 1], 5_000, Ok(-1)),
        (Side::At, true, [6, 1, 1], 5_000, Ok(-1)),
        (Side::At, true, [24, 60, 60], 100_000_000, Ok(13_600_000)),
        (Side::At, true, [most, most, most], 5_000, Ok(-1)),
        (
            Side::At,
            false,
            [most, most, most],
            5_000,
            Err(Refusal::InFuture),
        ),
        (Side::At, true, [most, most, 0], 5_000, Ok(5_000)),
    ] {
        let moment = offset(rt.alloc(), negative, numbers.as_slice())?;
        assert_point(&rt, side, moment, now, wanted)?;
    }
    Ok(())
}

#[test]
fn statements_have_the_points_of_their_ends(rt: HostRuntime) -> Result<(), Fail> {
    for (side, id, now, wanted) in [
        (Side::At, "a1-1", 9, Ok(5)),
        (Side::Before, "a1-1", 9, Ok(4)),
        (Side::At, "a1-2", 9, Err(Refusal::StatementOpen)),
        (Side::Before, "a1-2", 9, Err(Refusal::StatementOpen)),
        (Side::At, "a1-3", 9, Err(Refusal::UnknownStatement)),
        (Side::At, "a1-4", 7, Ok(7)),
        (Side::At, "a1-4", 6, Err(Refusal::InFuture)),
        (Side::Before, "a1-4", 6, Ok(6)),
        (Side::At, "a1-5", 9, Err(Refusal::UnknownStatement)),
        (Side::At, "a1-0", 9, Err(Refusal::UnknownStatement)),
        (Side::At, "a1-01", 9, Err(Refusal::UnknownStatement)),
        (Side::At, "a1-+1", 9, Err(Refusal::UnknownStatement)),
        (Side::At, "a1-", 9, Err(Refusal::UnknownStatement)),
        (Side::At, "a1", 9, Err(Refusal::UnknownStatement)),
        (Side::At, "A1-1", 9, Err(Refusal::UnknownStatement)),
        (Side::At, "a1-1 ", 9, Err(Refusal::UnknownStatement)),
        (Side::At, "a-1", 9, Err(Refusal::UnknownStatement)),
        (
            Side::At,
            "a1-99999999999999999999",
            9,
            Err(Refusal::UnknownStatement),
        ),
        (Side::At, "", 9, Err(Refusal::UnknownStatement)),
    ] {
        let text = Text::from_str(rt.alloc(), id).ok().ok_or("no text")?;
        assert_point(
            &rt,
            side,
            Moment::Statement(Quoted { text, place: 0 }),
            now,
            wanted,
        )?;
    }
    Ok(())
}
