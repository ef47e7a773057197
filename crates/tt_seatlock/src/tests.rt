//! A book of notes, each with the number of its pass and a value, under threads.

ghost use Rattle.std.specs.Prelude.{◌≡◌, ◌+◌, ◌<◌, ◌^◌, [], ◌∷◌, ◌++◌, if◌then◌else◌, vec_len, All, IfOk};
ghost use mathlib.Core.List.{IsPrefix};
ghost use Rattle.tt_seatlock.specs.History.{made_by};
ghost use Rattle.tt_seatlock.specs.Crowds.{having_made, IsFirstStill, AreNumbered, HaveNumbersOf, own_entries};
ghost use Rattle.tt_seatlock.specs.Passes.{known, nothing_seen, IsPassOf, IsSamePass, most_passes};

use crate::{Book, Pass, SeatLock};
use std::alloc::{AllocError, Global};
use std::sync::Wait;
use std::test::Fail;
use std::thread;
use std::thread::{Threads, join};

#[derive(Clone, Copy)]
pub struct Note {
    pub number: u32,
    pub value: u64,
}

#[derive(Drop)]
pub struct Notebook {
    pub lines: u64,
    pub notes: Vec<Note>,
}

impl Book for Notebook {
    type Entry = Note;

    type Ground = u64;

    ghost entries = { λ b. b.notes.items };

    ghost number = { λ note. note.number };

    ghost ground_of = { λ b. b.lines };

    fn length(&self) -> u64 {
        self.notes.len() as u64
    }
}

fn opened(alloc: Global, passes: u32) -> Result<(SeatLock<Notebook>, Pass<Notebook>), AllocError>
    requires { 0 < passes }
    ensures lock { IfOk result (λ r. IsPassOf r.0 r.1 × (most_passes r.0 ≡ passes)) }
    ensures pass { IfOk result (λ r. known r.1 ≡ nothing_seen) }
{
    let book = Notebook {
        lines: 3,
        notes: Vec::new(alloc),
    };
    SeatLock::new(alloc, book, passes)
}

// Adds one note, and says whether there was memory for it.
fn add_note<R: Wait>(
    rt: &R,
    lock: &SeatLock<Notebook>,
    pass: Pass<Notebook>,
    value: u64,
) -> (Pass<Notebook>, bool)
    requires { IsPassOf lock.now pass }
    ensures lock { IsPassOf lock.now result.0 }
    ensures pass { IsSamePass (known pass) (known result.0) }
    ensures seen { IsPrefix (known pass).seen (known result.0).seen }
    ensures own { (known result.0).own ≡ (known pass).own ++ (if result.1 then record { number = (known pass).number; value = value } ∷ [] else []) }
{
    let number = pass.number();
    let mut held = lock.enter(rt, pass);
    let added = held.book().notes.push(Note { number, value }).is_ok();
    (SeatLock::leave(held), added)
}

// Notes with the values from 0 on, until memory runs out.
fn add_notes<R: Wait>(
    rt: &R,
    lock: &SeatLock<Notebook>,
    mut pass: Pass<Notebook>,
    count: u64,
) -> Pass<Notebook>
    requires { IsPassOf lock.now pass }
    ensures lock { IsPassOf lock.now result }
    ensures pass { IsSamePass (known pass) (known result) }
{
    for value in 0..count {
        let (next, added) = add_note(rt, lock, pass, value);
        pass = next;
        if !added {
            break;
        }
    }
    pass
}

// Two threads add a note each. Where both had memory, the closed book has just these notes of theirs.
fn both<R: Threads + Wait + Sync>(
    rt: &R,
    alloc: Global,
    a: u64,
    b: u64,
) -> Result<(Notebook, bool, bool), AllocError>
    ensures none { IfOk result (λ r. made_by (λ note. note.number) 0 r.0.notes.items ≡ []) }
    ensures first { IfOk result (λ r. made_by (λ note. note.number) 1 r.0.notes.items ≡ (if r.1 then record { number = 1; value = a } ∷ [] else [])) }
    ensures second { IfOk result (λ r. made_by (λ note. note.number) 2 r.0.notes.items ≡ (if r.2 then record { number = 2; value = b } ∷ [] else [])) }
{
    let (lock, mut last) = opened(alloc, 3)?;
    let shared = &lock;
    let one = shared.pass(&mut last, 1);
    let two = shared.pass(&mut last, 2);
    let ((one, a_added), (two, b_added)) = join(
        rt,
        || -> (Pass<Notebook>, bool)
            requires { IsPassOf shared.now one }
            ensures lock { IsPassOf shared.entry.now result.0 }
            ensures pass { IsSamePass (known one) (known result.0) }
            ensures own { (known result.0).own ≡ (known one).own ++ (if result.1 then record { number = (known one).number; value = a } ∷ [] else []) }
        { add_note(rt, shared, one, a) },
        || -> (Pass<Notebook>, bool)
            requires { IsPassOf shared.now two }
            ensures lock { IsPassOf shared.entry.now result.0 }
            ensures pass { IsSamePass (known two) (known result.0) }
            ensures own { (known result.0).own ≡ (known two).own ++ (if result.1 then record { number = (known two).number; value = b } ∷ [] else []) }
        { add_note(rt, shared, two, b) },
    );
    shared.join(&mut last, one);
    shared.join(&mut last, two);
    let book = lock.close(last);
    Ok((book, a_added, b_added))
}

// The passes of the numbers from 1 to count.
fn make_passes(
    alloc: Global,
    lock: &SeatLock<Notebook>,
    first: &mut Pass<Notebook>,
    count: u32,
) -> Result<Vec<Pass<Notebook>>, AllocError>
    requires lock { IsPassOf lock.now first.old }
    requires first { known first.old ≡ nothing_seen }
    requires room { count < most_passes lock.now }
    ensures lock { IsPassOf lock.now first.new }
    ensures first { IfOk result (λ v. known first.new ≡ having_made (count + 1)) }
    ensures len { IfOk result (λ v. vec_len v ≡ count) }
    ensures all { IfOk result (λ v. All (IsPassOf lock.now) v.items) }
    ensures numbers { IfOk result AreNumbered }
{
    let mut passes = Vec::new(alloc);
    for made in 0..count {
        passes.push(lock.pass(first, made + 1))?;
    }
    Ok(passes)
}

// Each pass adds its notes in a thread of its own.
fn each<R: Threads + Wait + Sync>(
    rt: &R,
    lock: &SeatLock<Notebook>,
    passes: Vec<Pass<Notebook>>,
    count: u64,
) -> Result<Vec<Pass<Notebook>>, AllocError>
    requires { All (IsPassOf lock.now) passes.items }
    ensures len { IfOk result (λ v. vec_len v ≡ vec_len passes) }
    ensures all { IfOk result (λ v. All (IsPassOf lock.now) v.items) }
    ensures numbers { IfOk result (HaveNumbersOf passes) }
{
    thread::map_vec(rt, passes, &|pass| add_notes(rt, lock, pass, count))
}

// Joins all passes.
fn gather(lock: &SeatLock<Notebook>, into: &mut Pass<Notebook>, passes: Vec<Pass<Notebook>>)
    requires lock { IsPassOf lock.now into.old }
    requires into { (known into.old).number ≡ 0 }
    requires all { All (IsPassOf lock.now) passes.items }
    requires numbers { All (λ p. 0 < (known p).number) passes.items }
    ensures lock { IsPassOf lock.now into.new }
    ensures into { IsFirstStill (known into.old) (known into.new) }
    ensures kept { (known into.new).kept ≡ (known into.old).kept ++ own_entries passes.items }
{
    for pass in passes {
        lock.join(into, pass);
    }
}

// As many passes as are wanted add notes in threads of their own, and the closed book comes back.
fn crowd<R: Threads + Wait + Sync>(
    rt: &R,
    alloc: Global,
    passes: u32,
    count: u64,
) -> Result<Notebook, AllocError>
    requires { passes + 1 < 2 ^ 32 }
{
    let (lock, mut last) = opened(alloc, passes + 1)?;
    let made = make_passes(alloc, &lock, &mut last, passes)?;
    let ended = each(rt, &lock, made, count)?;
    gather(&lock, &mut last, ended);
    Ok(lock.close(last))
}

// Two passes take turns in one thread.
fn in_turn<R: Wait>(rt: &R, alloc: Global) -> Result<Notebook, AllocError> {
    let (lock, mut last) = opened(alloc, 2)?;
    let other = lock.pass(&mut last, 1);
    let (last, _) = add_note(rt, &lock, last, 10);
    let (other, _) = add_note(rt, &lock, other, 20);
    let (last, _) = add_note(rt, &lock, last, 11);
    let (other, _) = add_note(rt, &lock, other, 21);
    let (other, _) = add_note(rt, &lock, other, 22);
    let mut last = last;
    lock.join(&mut last, other);
    Ok(lock.close(last))
}

#[test]
fn passes_take_turns_in_one_thread(rt: HostRuntime) -> Result<(), Fail> {
    let book = in_turn(&rt, rt.alloc())?;
    let want = [(0, 10), (1, 20), (0, 11), (1, 21), (1, 22)];
    assert_eq!(rt; book.notes.len(), want.len());
    for (note, (number, value)) in book.notes.iter().zip(want) {
        assert!(rt; note.number == number && note.value == value);
    }
    Ok(())
}

#[test]
fn two_threads_add_a_note_each(rt: HostRuntime) -> Result<(), Fail> {
    let (book, a_added, b_added) = both(&rt, rt.alloc(), 7, 8)?;
    assert!(rt; a_added && b_added && book.lines == 3);
    assert_eq!(rt; book.notes.len(), 2);
    for note in &book.notes {
        assert_eq!(rt; note.value, u64::from(note.number) + 6);
    }
    Ok(())
}

#[test]
fn each_pass_of_a_crowd_adds_in_its_own_order(rt: HostRuntime) -> Result<(), Fail> {
    let book = crowd(&rt, rt.alloc(), 6, 500)?;
    assert_eq!(rt; book.notes.len(), 3000);
    let mut next = [0u64; 7];
    for note in &book.notes {
        let place = note.number as usize;
        assert!(rt; place < 7);
        assert_eq!(rt; note.value, next[place]);
        next[place] = next[place].wrapping_add(1);
    }
    assert!(rt; next == [0, 500, 500, 500, 500, 500, 500]);
    Ok(())
}

#[test]
fn a_dropped_pass_leaves_the_lock_to_the_others(rt: HostRuntime) -> Result<(), Fail> {
    let (lock, mut last) = opened(rt.alloc(), 2)?;
    let other = lock.pass(&mut last, 1);
    let (other, added) = add_note(&rt, &lock, other, 1);
    assert!(rt; added && other.number() == 1);
    drop(other);
    let (last, added) = add_note(&rt, &lock, last, 2);
    assert!(rt; added && last.number() == 0);
    drop(last);
    drop(lock);
    Ok(())
}
