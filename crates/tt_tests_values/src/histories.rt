//! The places of a session's entries in a history.

use std::test::Fail;
use tt_history::{Actor, Entry, EntryKind, History, Told};

fn start(moment: u64, actor: Actor) -> Entry {
    Entry {
        moment,
        actor,
        index: 1,
        kind: EntryKind::Start(Told::Done),
    }
}

#[test]
fn a_session_has_the_places_of_its_entries(rt: HostRuntime) -> Result<(), Fail> {
    let alloc = rt.alloc();
    let mut history = History::with_room(alloc, 3)?;
    history.push(start(1, Actor::Session(1)));
    history.push(start(2, Actor::Session(0)));
    history.push(start(3, Actor::Session(1)));
    assert_eq!(rt; history.project(alloc, 1)?.as_slice(), [0, 2].as_slice());
    assert_eq!(rt; history.project(alloc, 0)?.as_slice(), [1].as_slice());
    assert!(rt; history.project(alloc, 2)?.is_empty());
    Ok(())
}

#[test]
fn an_empty_history_has_no_places(rt: HostRuntime) -> Result<(), Fail> {
    let history = History::new(rt.alloc());
    assert!(rt; history.project(rt.alloc(), 0)?.is_empty());
    Ok(())
}
