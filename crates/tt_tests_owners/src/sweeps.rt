//! What nothing names, moment by moment.
use crate::stories::{OWN, SHARED, STRAY, clone, facts_of, replaced, source};
use std::alloc::Global;
use std::process::Abort;
use std::test::Fail;
use tt_layout::{Facts, PartFacts};
use tt_sweep::sweep::doomed;

/// At each moment the stored partitions that nothing names.
fn assert_doomed<R: Abort>(
    rt: &R,
    alloc: Global,
    facts: &mut Facts,
    rows: &[(u64, &[u64])],
) -> Result<(), Fail> {
    for (at, wanted) in rows {
        assert!(rt; *at < 1_000_000_000_000);
        facts.at = *at;
        let list = doomed(alloc, facts)?;
        assert_eq!(rt; list.at, *at);
        assert_eq!(rt; list.parts.as_slice(), *wanted, "at {at}");
    }
    Ok(())
}

#[test]
fn what_was_lost_is_kept_through_fail_safe(rt: HostRuntime) -> Result<(), Fail> {
    let alloc = rt.alloc();
    let mut facts = facts_of(alloc, &[SHARED, STRAY])?;
    facts.tables.push(source(alloc, false, None)?)?;
    assert_doomed(
        &rt,
        alloc,
        &mut facts,
        &[
            (7, &[7]),
            (86_400_005, &[7]),
            (86_400_006, &[7]),
            (691_200_005, &[7]),
            (691_200_006, &[1, 7]),
        ],
    )
}

#[test]
fn a_transient_table_keeps_time_travel_alone(rt: HostRuntime) -> Result<(), Fail> {
    let alloc = rt.alloc();
    let mut facts = facts_of(alloc, &[SHARED])?;
    facts.tables.push(source(alloc, true, None)?)?;
    assert_doomed(
        &rt,
        alloc,
        &mut facts,
        &[(86_400_005, &[]), (86_400_006, &[1])],
    )
}

#[test]
fn a_clone_and_a_pin_keep_a_partition(rt: HostRuntime) -> Result<(), Fail> {
    let alloc = rt.alloc();
    let mut facts = facts_of(alloc, &[SHARED, OWN, STRAY])?;
    facts.pins.push(7)?;
    facts.tables.push(source(alloc, false, Some(8))?)?;
    assert_doomed(
        &rt,
        alloc,
        &mut facts,
        &[(691_200_006, &[1, 2]), (691_200_008, &[1, 2])],
    )?;
    facts.tables.push(clone(alloc)?)?;
    assert_doomed(&rt, alloc, &mut facts, &[(691_200_008, &[])])
}

/// Partitions 1 to 70, by number, of table 3.
fn assert_first_doomed<R: Abort>(rt: &R, alloc: Global, at: u64, count: usize) -> Result<(), Fail> {
    let mut parts: Vec<PartFacts> = Vec::new(alloc);
    for number in 1..71 {
        parts.push(PartFacts {
            number,
            origin: 3,
            rows: 1,
            bytes: 1,
        })?;
    }
    let mut facts = facts_of(alloc, &parts)?;
    facts.tables.push(replaced(alloc)?)?;
    assert!(rt; at < 1_000_000_000_000);
    facts.at = at;
    let list = doomed(alloc, &facts)?;
    assert_eq!(rt; list.parts.len(), count, "at {at}");
    assert_eq!(rt;
        list.parts.last().copied().unwrap_or(0),
        count as u64,
        "at {at}"
    );
    Ok(())
}

#[test]
fn a_long_chain_is_held_from_any_place_on(rt: HostRuntime) -> Result<(), Fail> {
    let alloc = rt.alloc();
    for (past, count) in [
        (1, 0),
        (2, 1),
        (40, 39),
        (64, 63),
        (65, 64),
        (66, 65),
        (70, 69),
        (1_000, 69),
    ] {
        assert_first_doomed(&rt, alloc, 691_200_000 + past, count)?;
    }
    Ok(())
}
