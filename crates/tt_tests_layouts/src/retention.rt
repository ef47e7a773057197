//! Horizons, stages and days, counted by hand. A day is 86,400,000 milliseconds, 90 days are 7,776,000,000.
ghost use Rattle.std.specs.Prelude.{◌≡◌, IfOk};

use std::alloc::AllocError;
use std::process::Abort;
use std::test::Fail;
use tt_retain::{Regimes, Stage};

/// An equal value of its own.
fn copy_of(regimes: &Regimes) -> Result<Regimes, AllocError>
    ensures { IfOk result (λ copy. copy ≡ regimes.now) }
{
    regimes.clone()
}

/// At each moment the horizon.
fn assert_horizons<R: Abort>(rt: &R, regimes: &Regimes, rows: &[(i64, i64)]) {
    for (moment, wanted) in rows {
        assert!(rt; *moment >= -1);
        assert_eq!(rt; regimes.horizon(*moment), *wanted, "at {moment}");
    }
}

/// At each moment the stage of a span that ended at `ended`.
fn assert_stages<R: Abort>(rt: &R, regimes: &Regimes, ended: u64, rows: &[(u64, Stage)]) {
    for (moment, wanted) in rows {
        assert!(rt; *moment < 253_402_300_800_000);
        assert!(rt; regimes.stage(ended, *moment) == *wanted, "at {moment}");
    }
}

#[test]
fn one_retention(rt: HostRuntime) -> Result<(), Fail> {
    let none = Regimes::new(rt.alloc(), 5, 0, false)?;
    assert_horizons(
        &rt,
        &none,
        &[
            (-1, -7_776_000_001),
            (4, -7_775_999_996),
            (5, 5),
            (6, 6),
            (1_000_000_000_000, 1_000_000_000_000),
        ],
    );
    let day = Regimes::new(rt.alloc(), 1, 1, false)?;
    assert_horizons(
        &rt,
        &day,
        &[
            (0, -7_776_000_000),
            (1, -86_399_999),
            (86_400_001, 1),
            (86_400_007, 7),
        ],
    );
    let most = Regimes::new(rt.alloc(), 0, 90, false)?;
    assert_horizons(
        &rt,
        &most,
        &[
            (0, -7_776_000_000),
            (7_776_000_000, 0),
            (i64::MAX, 9_223_372_029_078_775_807),
        ],
    );
    Ok(())
}

#[test]
fn what_expired_stays_expired(rt: HostRuntime) -> Result<(), Fail> {
    let mut regimes = Regimes::new(rt.alloc(), 1, 90, false)?;
    regimes.set(6, 0)?;
    assert_eq!(rt; regimes.days(), 0);
    regimes.set(7, 90)?;
    assert_eq!(rt; regimes.days(), 90);
    assert_horizons(
        &rt,
        &regimes,
        &[
            (5, -7_775_999_995),
            (6, 6),
            (7, 7),
            (8, 7),
            (7_776_000_007, 7),
            (7_776_000_008, 8),
        ],
    );
    assert_stages(
        &rt,
        &regimes,
        5,
        &[
            (5, Stage::TimeTravel),
            (6, Stage::FailSafe),
            (8, Stage::FailSafe),
            (604_800_005, Stage::FailSafe),
            (604_800_006, Stage::Gone),
            (9_000_000_000, Stage::Gone),
        ],
    );
    Ok(())
}

#[test]
fn lowered_and_raised(rt: HostRuntime) -> Result<(), Fail> {
    let mut lowered = Regimes::new(rt.alloc(), 0, 10, false)?;
    lowered.set(1_000, 1)?;
    assert_horizons(
        &rt,
        &lowered,
        &[(999, -863_999_001), (1_000, -86_399_000), (86_400_000, 0)],
    );
    let mut raised = Regimes::new(rt.alloc(), 0, 1, false)?;
    raised.set(8_640_000_000, 2)?;
    assert_horizons(
        &rt,
        &raised,
        &[
            (8_639_999_999, 8_553_599_999),
            (8_640_000_000, 8_553_600_000),
            (8_700_000_000, 8_553_600_000),
            (8_726_400_000, 8_553_600_000),
            (8_726_400_001, 8_553_600_001),
        ],
    );
    let mut twice = Regimes::new(rt.alloc(), 0, 1, false)?;
    twice.set(10, 2)?;
    twice.set(10, 0)?;
    assert_horizons(&rt, &twice, &[(9, -86_399_991), (10, 10), (11, 11)]);
    Ok(())
}

#[test]
fn fail_safe_and_none(rt: HostRuntime) -> Result<(), Fail> {
    let kept = Regimes::new(rt.alloc(), 1, 1, false)?;
    assert!(rt; !kept.is_transient());
    assert_stages(
        &rt,
        &kept,
        2,
        &[
            (2, Stage::TimeTravel),
            (86_400_001, Stage::TimeTravel),
            (86_400_002, Stage::FailSafe),
            (691_200_001, Stage::FailSafe),
            (691_200_002, Stage::Gone),
        ],
    );
    let transient = Regimes::new(rt.alloc(), 1, 1, true)?;
    assert!(rt; transient.is_transient());
    assert_stages(
        &rt,
        &transient,
        2,
        &[(86_400_001, Stage::TimeTravel), (86_400_002, Stage::Gone)],
    );
    let none = Regimes::new(rt.alloc(), 1, 0, true)?;
    assert_stages(&rt, &none, 5, &[(4, Stage::TimeTravel), (5, Stage::Gone)]);
    assert_stages(&rt, &none, u64::MAX, &[(5, Stage::TimeTravel)]);
    Ok(())
}

#[test]
fn an_end_keeps_nothing(rt: HostRuntime) -> Result<(), Fail> {
    let mut regimes = Regimes::new(rt.alloc(), 1, 1, true)?;
    regimes.end(100);
    assert_eq!(rt; regimes.days(), 0);
    assert_horizons(
        &rt,
        &regimes,
        &[(99, -86_399_901), (100, 100), (1_000, 1_000)],
    );
    assert_stages(
        &rt,
        &regimes,
        100,
        &[(99, Stage::TimeTravel), (100, Stage::Gone)],
    );
    let mut changed = Regimes::new(rt.alloc(), 1, 1, true)?;
    changed.set(50, 0)?;
    changed.end(50);
    assert_horizons(&rt, &changed, &[(49, -86_399_951), (50, 50), (51, 51)]);
    Ok(())
}

#[test]
fn a_clone_takes_the_days_of_now(rt: HostRuntime) -> Result<(), Fail> {
    let mut source = Regimes::new(rt.alloc(), 1, 1, false)?;
    assert_eq!(rt; source.clone_days(false), 1);
    assert_eq!(rt; source.clone_days(true), 1);
    source.set(20, 90)?;
    assert_eq!(rt; source.clone_days(false), 90);
    assert_eq!(rt; source.clone_days(true), 1);
    source.set(30, 0)?;
    assert_eq!(rt; source.clone_days(false), 0);
    assert_eq!(rt; source.clone_days(true), 0);
    let clone = Regimes::new(rt.alloc(), 50, 90, false)?;
    assert_horizons(
        &rt,
        &clone,
        &[
            (49, -7_775_999_951),
            (50, -7_775_999_950),
            (7_776_000_050, 50),
        ],
    );
    Ok(())
}

#[test]
fn a_copy_is_a_value_of_its_own(rt: HostRuntime) -> Result<(), Fail> {
    let mut regimes = Regimes::new(rt.alloc(), 1, 90, false)?;
    regimes.set(6, 0)?;
    let copy = copy_of(&regimes)?;
    regimes.end(7);
    assert_horizons(&rt, &copy, &[(5, -7_775_999_995), (6, 6), (7, 7)]);
    assert!(rt; !copy.is_transient());
    Ok(())
}
