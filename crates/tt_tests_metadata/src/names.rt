//! Names of tables: bound, dropped and brought back.

use std::alloc::Global;
use std::test::Fail;
use tt_names::Names;
use tt_value::Text;

fn text_of(alloc: Global, name: &str) -> Result<Text, Fail> {
    Ok(Text::from_str(alloc, name).ok().ok_or("no text")?)
}

/// Binds a name that is free.
fn bind(alloc: Global, names: &mut Names, name: &str, table: u32) -> Result<bool, Fail> {
    let name = text_of(alloc, name)?;
    if names.live(&name).is_some() {
        return Ok(false);
    }
    names.bind(name, table)?;
    Ok(true)
}

fn live(alloc: Global, names: &Names, name: &str) -> Result<Option<u32>, Fail> {
    let name = text_of(alloc, name)?;
    Ok(names.live(&name))
}

fn drops_are(alloc: Global, names: &Names, name: &str, drops: &[(u32, u64)]) -> Result<bool, Fail> {
    let name = text_of(alloc, name)?;
    Ok(names.dropped(&name) == drops)
}

fn unbind(alloc: Global, names: &mut Names, name: &str, moment: u64) -> Result<Option<u32>, Fail> {
    let name = text_of(alloc, name)?;
    Ok(names.unbind(&name, moment)?)
}

/// Renames a table that is live to a name that is free.
fn rename(alloc: Global, names: &mut Names, old: &str, new: &str) -> Result<bool, Fail> {
    let old = text_of(alloc, old)?;
    let new = text_of(alloc, new)?;
    if names.live(&old).is_none() || names.live(&new).is_some() {
        return Ok(false);
    }
    names.rename(&old, new)?;
    Ok(true)
}

/// The table that was replaced, where one was live.
fn replace(
    alloc: Global,
    names: &mut Names,
    name: &str,
    table: u32,
    moment: u64,
) -> Result<Option<u32>, Fail> {
    let name = text_of(alloc, name)?;
    if names.live(&name).is_none() {
        return Ok(None);
    }
    Ok(Some(names.replace(&name, table, moment)?))
}

/// Swaps two names that are live.
fn swap(alloc: Global, names: &mut Names, a: &str, b: &str) -> Result<bool, Fail> {
    let a = text_of(alloc, a)?;
    let b = text_of(alloc, b)?;
    if names.live(&a).is_none() || names.live(&b).is_none() {
        return Ok(false);
    }
    names.swap(&a, &b);
    Ok(true)
}

/// Brings a table back by its place among the drops under a free name.
fn undrop(alloc: Global, names: &mut Names, name: &str, place: usize) -> Result<bool, Fail> {
    let name = text_of(alloc, name)?;
    if names.live(&name).is_some() {
        return Ok(false);
    }
    let drops = names.dropped(&name);
    if place >= drops.len() {
        return Ok(false);
    }
    let table = drops[place].0;
    names.undrop(&name, table)?;
    Ok(true)
}

/// One call with what it takes, and at the end its answer.
#[derive(Clone, Copy)]
enum Step<'a> {
    Bind(&'a str, u32, bool),
    Live(&'a str, Option<u32>),
    Drops(&'a str, &'a [(u32, u64)]),
    Unbind(&'a str, u64, Option<u32>),
    Rename(&'a str, &'a str, bool),
    Replace(&'a str, u32, u64, Option<u32>),
    Swap(&'a str, &'a str, bool),
    Undrop(&'a str, usize, bool),
}

/// Whether the call gives this answer.
fn answers_so(alloc: Global, names: &mut Names, step: &Step<'_>) -> Result<bool, Fail> {
    match step {
        Step::Bind(name, table, done) => Ok(bind(alloc, names, name, *table)? == *done),
        Step::Live(name, table) => Ok(live(alloc, names, name)? == *table),
        Step::Drops(name, drops) => drops_are(alloc, names, name, drops),
        Step::Unbind(name, moment, table) => Ok(unbind(alloc, names, name, *moment)? == *table),
        Step::Rename(old, new, done) => Ok(rename(alloc, names, old, new)? == *done),
        Step::Replace(name, table, moment, old) => {
            Ok(replace(alloc, names, name, *table, *moment)? == *old)
        }
        Step::Swap(a, b, done) => Ok(swap(alloc, names, a, b)? == *done),
        Step::Undrop(name, place, done) => Ok(undrop(alloc, names, name, *place)? == *done),
    }
}

/// The first of these calls, from 0, that answers otherwise.
fn first_other(alloc: Global, steps: &[Step<'_>]) -> Result<Option<usize>, Fail> {
    let mut names = Names::new(alloc);
    for (place, step) in steps.iter().enumerate() {
        if !answers_so(alloc, &mut names, step)? {
            return Ok(Some(place));
        }
    }
    Ok(None)
}

#[test]
fn a_name_has_its_table(rt: HostRuntime) -> Result<(), Fail> {
    let steps = [
        Step::Live("A", None),
        Step::Bind("A", 1, true),
        Step::Bind("AB", 2, true),
        Step::Bind("A", 3, false),
        Step::Live("A", Some(1)),
        Step::Live("AB", Some(2)),
        Step::Live("B", None),
        Step::Drops("A", &[]),
    ];
    assert_eq!(rt; first_other(rt.alloc(), &steps)?, None);
    Ok(())
}

#[test]
fn the_last_drop_stands_first(rt: HostRuntime) -> Result<(), Fail> {
    let steps = [
        Step::Bind("A", 1, true),
        Step::Unbind("A", 10, Some(1)),
        Step::Live("A", None),
        Step::Unbind("A", 11, None),
        Step::Bind("A", 2, true),
        Step::Unbind("A", 20, Some(2)),
        Step::Bind("B", 3, true),
        Step::Unbind("B", 30, Some(3)),
        Step::Drops("A", &[(2, 20), (1, 10)]),
        Step::Drops("B", &[(3, 30)]),
    ];
    assert_eq!(rt; first_other(rt.alloc(), &steps)?, None);
    Ok(())
}

#[test]
fn a_dropped_table_comes_back(rt: HostRuntime) -> Result<(), Fail> {
    let steps = [
        Step::Bind("A", 1, true),
        Step::Unbind("A", 10, Some(1)),
        Step::Bind("A", 2, true),
        Step::Unbind("A", 20, Some(2)),
        Step::Undrop("A", 0, true),
        Step::Live("A", Some(2)),
        Step::Drops("A", &[(1, 10)]),
        Step::Undrop("A", 0, false),
        Step::Unbind("A", 30, Some(2)),
        Step::Undrop("A", 1, true),
        Step::Live("A", Some(1)),
        Step::Drops("A", &[(2, 30)]),
        Step::Unbind("A", 40, Some(1)),
        Step::Undrop("A", 1, true),
        Step::Drops("A", &[(1, 40)]),
    ];
    assert_eq!(rt; first_other(rt.alloc(), &steps)?, None);
    Ok(())
}

#[test]
fn a_rename_moves_the_live_table_alone(rt: HostRuntime) -> Result<(), Fail> {
    let steps = [
        Step::Bind("A", 1, true),
        Step::Unbind("A", 10, Some(1)),
        Step::Bind("A", 2, true),
        Step::Rename("A", "A", false),
        Step::Rename("A", "C", true),
        Step::Live("A", None),
        Step::Live("C", Some(2)),
        Step::Drops("A", &[(1, 10)]),
        Step::Drops("C", &[]),
    ];
    assert_eq!(rt; first_other(rt.alloc(), &steps)?, None);
    Ok(())
}

#[test]
fn a_replaced_table_is_dropped(rt: HostRuntime) -> Result<(), Fail> {
    let steps = [
        Step::Replace("A", 1, 5, None),
        Step::Bind("A", 1, true),
        Step::Replace("A", 2, 10, Some(1)),
        Step::Replace("A", 3, 20, Some(2)),
        Step::Live("A", Some(3)),
        Step::Drops("A", &[(2, 20), (1, 10)]),
    ];
    assert_eq!(rt; first_other(rt.alloc(), &steps)?, None);
    Ok(())
}

#[test]
fn a_swap_exchanges_live_tables(rt: HostRuntime) -> Result<(), Fail> {
    let steps = [
        Step::Bind("A", 1, true),
        Step::Swap("A", "B", false),
        Step::Bind("B", 2, true),
        Step::Replace("B", 3, 10, Some(2)),
        Step::Swap("A", "B", true),
        Step::Live("A", Some(3)),
        Step::Live("B", Some(1)),
        Step::Drops("B", &[(2, 10)]),
        Step::Drops("A", &[]),
        Step::Swap("A", "A", true),
        Step::Live("A", Some(3)),
    ];
    assert_eq!(rt; first_other(rt.alloc(), &steps)?, None);
    Ok(())
}
