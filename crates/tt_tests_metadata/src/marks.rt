//! Marks of sessions on tables.

use std::alloc::{AllocError, Global};
use std::test::Fail;
use tt_marks::Marks;

fn share(marks: &mut Marks, session: u32, table: u32) -> Result<(), AllocError> {
    marks.reserve()?;
    marks.share(session, table);
    Ok(())
}

/// The session that stands in the way of an exclusive mark.
fn exclude(marks: &mut Marks, session: u32, table: u32) -> Result<Option<u32>, AllocError> {
    marks.reserve()?;
    match marks.try_exclusive(session, table) {
        Ok(()) => Ok(None),
        Err(held) => Ok(Some(held.session)),
    }
}

/// The session that stands in the way of a drop.
fn keeper(marks: &Marks, session: u32, table: u32) -> Option<u32> {
    match marks.try_drop(session, table) {
        Ok(()) => None,
        Err(held) => Some(held.session),
    }
}

/// Makes a mark that stands shared again.
fn restore_shared(marks: &mut Marks, session: u32, table: u32) -> bool {
    if marks.held(session, table).is_none() {
        return false;
    }
    marks.restore(session, table, Some(false));
    true
}

/// Leaves an exclusive mark that stands exclusive.
fn restore_exclusive(marks: &mut Marks, session: u32, table: u32) -> bool {
    let Some(exclusive) = marks.held(session, table) else {
        return false;
    };
    if exclusive {
        marks.restore(session, table, Some(true));
    }
    exclusive
}

/// One call with what it takes, and at the end its answer.
#[derive(Clone, Copy)]
enum Step {
    Share(u32, u32),
    Exclude(u32, u32, Option<u32>),
    Held(u32, u32, Option<bool>),
    Exclusive(u32, Option<u32>),
    Keeper(u32, u32, Option<u32>),
    RestoreShared(u32, u32),
    RestoreExclusive(u32, u32),
    TakeBack(u32, u32),
    Release(u32),
    Count(usize),
}

/// Calls that change marks. A call whose answer is not this one gives false.
fn changes_so(marks: &mut Marks, step: &Step) -> Result<bool, AllocError> {
    match step {
        Step::Share(session, table) => {
            share(marks, *session, *table)?;
            Ok(true)
        }
        Step::Exclude(session, table, held) => Ok(exclude(marks, *session, *table)? == *held),
        Step::RestoreShared(session, table) => Ok(restore_shared(marks, *session, *table)),
        Step::RestoreExclusive(session, table) => Ok(restore_exclusive(marks, *session, *table)),
        Step::TakeBack(session, table) => {
            marks.restore(*session, *table, None);
            Ok(true)
        }
        Step::Release(session) => {
            marks.release(*session);
            Ok(true)
        }
        _ => Ok(true),
    }
}

/// Calls that change nothing.
fn tells_so(marks: &Marks, step: &Step) -> bool {
    match step {
        Step::Held(session, table, exclusive) => marks.held(*session, *table) == *exclusive,
        Step::Exclusive(table, session) => marks.exclusive(*table) == *session,
        Step::Keeper(session, table, held) => keeper(marks, *session, *table) == *held,
        Step::Count(count) => marks.list().len() == *count,
        _ => true,
    }
}

/// The first of these calls, from 0, that answers otherwise.
fn first_other(alloc: Global, steps: &[Step]) -> Result<Option<usize>, AllocError> {
    let mut marks = Marks::new(alloc);
    for (place, step) in steps.iter().enumerate() {
        if !changes_so(&mut marks, step)? || !tells_so(&marks, step) {
            return Ok(Some(place));
        }
    }
    Ok(None)
}

#[test]
fn shared_marks_stand_side_by_side(rt: HostRuntime) -> Result<(), Fail> {
    let steps = [
        Step::Held(0, 1, None),
        Step::Share(2, 1),
        Step::Share(0, 1),
        Step::Share(0, 1),
        Step::Held(0, 1, Some(false)),
        Step::Held(2, 1, Some(false)),
        Step::Held(1, 1, None),
        Step::Held(0, 2, None),
        Step::Exclusive(1, None),
        Step::Count(2),
    ];
    assert_eq!(rt; first_other(rt.alloc(), &steps)?, None);
    Ok(())
}

#[test]
fn one_session_has_the_exclusive_mark(rt: HostRuntime) -> Result<(), Fail> {
    let steps = [
        Step::Share(0, 7),
        Step::Exclude(3, 7, None),
        Step::Exclusive(7, Some(3)),
        Step::Exclude(0, 7, Some(3)),
        Step::Held(0, 7, Some(false)),
        Step::Exclude(3, 7, None),
        Step::Share(3, 7),
        Step::Held(3, 7, Some(true)),
        Step::Share(9, 7),
        Step::Held(9, 7, Some(false)),
        Step::Exclude(0, 8, None),
        Step::Exclusive(8, Some(0)),
        Step::Exclusive(7, Some(3)),
    ];
    assert_eq!(rt; first_other(rt.alloc(), &steps)?, None);
    Ok(())
}

#[test]
fn a_shared_mark_becomes_exclusive(rt: HostRuntime) -> Result<(), Fail> {
    let steps = [
        Step::Share(4, 1),
        Step::Exclude(4, 1, None),
        Step::Held(4, 1, Some(true)),
        Step::Count(1),
    ];
    assert_eq!(rt; first_other(rt.alloc(), &steps)?, None);
    Ok(())
}

#[test]
fn a_drop_names_the_first_other_session(rt: HostRuntime) -> Result<(), Fail> {
    let steps = [
        Step::Keeper(1, 5, None),
        Step::Share(1, 5),
        Step::Keeper(1, 5, None),
        Step::Share(6, 5),
        Step::Share(3, 5),
        Step::Share(0, 4),
        Step::Keeper(1, 5, Some(3)),
        Step::Keeper(3, 5, Some(1)),
        Step::Keeper(2, 5, Some(1)),
        Step::Keeper(2, 6, None),
    ];
    assert_eq!(rt; first_other(rt.alloc(), &steps)?, None);
    Ok(())
}

#[test]
fn a_mark_is_again_what_it_was(rt: HostRuntime) -> Result<(), Fail> {
    let steps = [
        Step::Share(1, 1),
        Step::Held(1, 1, Some(false)),
        Step::Exclude(1, 1, None),
        Step::RestoreShared(1, 1),
        Step::Held(1, 1, Some(false)),
        Step::Exclude(2, 1, None),
        Step::RestoreExclusive(2, 1),
        Step::Held(2, 1, Some(true)),
        Step::TakeBack(2, 1),
        Step::Held(2, 1, None),
        Step::TakeBack(2, 1),
        Step::Held(1, 1, Some(false)),
        Step::Count(1),
    ];
    assert_eq!(rt; first_other(rt.alloc(), &steps)?, None);
    Ok(())
}

#[test]
fn a_release_ends_all_marks_of_a_session(rt: HostRuntime) -> Result<(), Fail> {
    let steps = [
        Step::Share(1, 1),
        Step::Exclude(1, 2, None),
        Step::Share(1, 3),
        Step::Share(0, 2),
        Step::Share(2, 2),
        Step::Release(1),
        Step::Held(1, 1, None),
        Step::Held(1, 2, None),
        Step::Held(1, 3, None),
        Step::Held(0, 2, Some(false)),
        Step::Held(2, 2, Some(false)),
        Step::Count(2),
        Step::Exclude(2, 2, None),
    ];
    assert_eq!(rt; first_other(rt.alloc(), &steps)?, None);
    Ok(())
}
