//! Owners, classes and rows of the metrics view, moment by moment.
use crate::stories::{OWN, SHARED, STRAY, clone, facts_of, source};
use std::alloc::Global;
use std::process::Abort;
use std::test::Fail;
use tt_layout::{Class, Facts, PartFacts};
use tt_owner::{metrics, owner_class};

/// At each moment the owner and the class of a partition.
fn assert_owners<R: Abort>(
    rt: &R,
    facts: &mut Facts,
    part: &PartFacts,
    rows: &[(u64, u32, Class)],
) {
    for (at, owner, class) in rows {
        assert!(rt; *at < 1_000_000_000_000);
        facts.at = *at;
        let (found, found_class) = owner_class(facts, part);
        assert_eq!(rt; found, *owner, "at {at}");
        assert!(rt; found_class == *class, "at {at}");
    }
}

/// The rows at a moment: the number of a table, and its bytes as active, in Time Travel, in Fail-safe, kept for a
/// clone and pending.
fn assert_rows<R: Abort>(
    rt: &R,
    alloc: Global,
    facts: &mut Facts,
    at: u64,
    wanted: &[(u32, [u128; 5])],
) -> Result<(), Fail> {
    assert!(rt; at < 1_000_000_000_000);
    facts.at = at;
    let rows = metrics(alloc, facts)?;
    assert_eq!(rt; rows.len(), wanted.len(), "at {at}");
    for (row, (table, bytes)) in rows.iter().zip(wanted) {
        assert_eq!(rt; row.table, *table, "at {at}");
        assert!(rt; row.group == 1 && row.name.as_str() == "T");
        assert_eq!(rt; row.active, bytes[0], "at {at}");
        assert_eq!(rt; row.time_travel, bytes[1], "at {at}");
        assert_eq!(rt; row.failsafe, bytes[2], "at {at}");
        assert_eq!(rt; row.retained, bytes[3], "at {at}");
        assert_eq!(rt; row.pending, bytes[4], "at {at}");
    }
    Ok(())
}

#[test]
fn a_partition_alone_grows_old(rt: HostRuntime) -> Result<(), Fail> {
    let alloc = rt.alloc();
    let mut facts = facts_of(alloc, &[SHARED])?;
    facts.tables.push(source(alloc, false, None)?)?;
    assert_owners(
        &rt,
        &mut facts,
        &SHARED,
        &[
            (7, 1, Class::TimeTravel),
            (86_400_005, 1, Class::TimeTravel),
            (86_400_006, 1, Class::FailSafe),
            (691_200_005, 1, Class::FailSafe),
            (691_200_006, 1, Class::Pending),
        ],
    );
    assert_owners(&rt, &mut facts, &STRAY, &[(7, 9, Class::Pending)]);
    Ok(())
}

#[test]
fn a_shared_partition_goes_over_to_the_clone(rt: HostRuntime) -> Result<(), Fail> {
    let alloc = rt.alloc();
    let mut facts = facts_of(alloc, &[SHARED, OWN])?;
    facts.tables.push(source(alloc, false, Some(691_200_010))?)?;
    facts.tables.push(clone(alloc)?)?;
    assert_owners(
        &rt,
        &mut facts,
        &SHARED,
        &[
            (7, 1, Class::TimeTravel),
            (86_400_006, 1, Class::RetainedForClone),
            (777_600_009, 1, Class::RetainedForClone),
            (777_600_010, 2, Class::Active),
        ],
    );
    assert_owners(&rt, &mut facts, &OWN, &[(7, 2, Class::Active)]);
    Ok(())
}

#[test]
fn each_byte_counts_once(rt: HostRuntime) -> Result<(), Fail> {
    let alloc = rt.alloc();
    let mut facts = facts_of(alloc, &[SHARED, OWN])?;
    facts.tables.push(source(alloc, false, Some(691_200_010))?)?;
    facts.tables.push(clone(alloc)?)?;
    assert_rows(
        &rt,
        alloc,
        &mut facts,
        7,
        &[(1, [0, 29, 0, 0, 0]), (2, [40, 0, 0, 0, 0])],
    )?;
    assert_rows(
        &rt,
        alloc,
        &mut facts,
        777_600_009,
        &[(1, [0, 0, 0, 29, 0]), (2, [40, 0, 0, 0, 0])],
    )?;
    assert_rows(
        &rt,
        alloc,
        &mut facts,
        777_600_010,
        &[(2, [69, 0, 0, 0, 0])],
    )
}

#[test]
fn a_table_that_is_gone_still_owns_what_nobody_holds(rt: HostRuntime) -> Result<(), Fail> {
    let alloc = rt.alloc();
    let mut facts = facts_of(alloc, &[SHARED])?;
    facts.tables.push(source(alloc, false, Some(8))?)?;
    assert_rows(&rt, alloc, &mut facts, 86_400_007, &[(1, [0, 0, 29, 0, 0])])?;
    assert_rows(&rt, alloc, &mut facts, 86_400_008, &[(1, [0, 0, 29, 0, 0])])?;
    assert_rows(
        &rt,
        alloc,
        &mut facts,
        691_200_006,
        &[(1, [0, 0, 0, 0, 29])],
    )
}
