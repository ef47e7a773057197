//! The lock: entering, leaving, parting and joining passes, and its end.

ghost use Rattle.std.specs.Prelude.{◌≡◌};

use crate::book::Book;
use crate::held::Held;
use crate::pass::Pass;
use crate::rule::{Compare, Meet, Part, Turns, Win};
use crate::view::View;
use atomic_table::{Refused, Table};
use std::alloc::{AllocError, Global};
use std::snapshot::Snapshot;
use std::sync::Wait;
use std::thread;

/// One book, which one pass at a time may enter. A lock whose passes are lost may be dropped, and its book with it.
#[derive(Drop)]
pub struct SeatLock<B: Book> {
    pub(crate) table: Table<Option<B>, View<B::Entry, B::Ground>, Snapshot<B>, Turns<B>, Global>,
    passes: u32,
    ghost sized: { (table.shared.table_id.words ≡ 1) × (table.shared.table_id.slots ≡ 1) },
}

impl<B: Book> SeatLock<B> {
    ghost use Rattle.std.specs.Prelude.{◌≡◌, ℕ, ◌<◌, ◌≤◌, [], Contains, IfOk};
    ghost use mathlib.Core.List.{IsPrefix};
    ghost use Rattle.tt_seatlock.specs.History.{made_by};
    ghost use Rattle.tt_seatlock.specs.Passes.{known, HasOwn, HasKept, HasNoOther, nothing_seen, with_one_more, next_of, with_joined, KeepsAll, IsPassOf, IsInside, first_book, most_passes, book_of, base_of, holder_of, lock_of};

    /// A lock over an empty book, for at most `passes` numbers, and the pass of number 0. Without memory the book is dropped.
    pub fn new(alloc: Global, book: B, passes: u32) -> Result<(SeatLock<B>, Pass<B>), AllocError>
    where
        B: Drop,
        requires passes { 0 < passes }
        requires empty { B.entries book ≡ [] }
        ensures book { IfOk result (λ r. first_book r.0 ≡ book) }
        ensures passes { IfOk result (λ r. most_passes r.0 ≡ passes) }
        ensures lock { IfOk result (λ r. IsPassOf r.0 r.1) }
        ensures pass { IfOk result (λ r. known r.1 ≡ nothing_seen) }
    {
        let about = Snapshot::of(&book);
        let mut slots = Vec::new(alloc);
        slots.push(Some(book))?;
        match Table::new(alloc, &[0], slots, &about) {
            Ok((table, seat)) => Ok((SeatLock { table, passes }, Pass { seat, number: 0 })),
            Err(Refused { slots: _ }) => Err(AllocError),
        }
    }

    /// The pass of a new number, which has seen what its parent has. The parent is the pass of number 0.
    pub fn pass(&self, parent: &mut Pass<B>, number: u32) -> Pass<B>
        requires lock { IsPassOf self.now parent.old }
        requires parent { (known parent.old).number ≡ 0 }
        requires next { number ≡ (known parent.old).made }
        requires room { number < most_passes self.now }
        ensures lock { IsPassOf self.now parent.new × IsPassOf self.now result }
        ensures parent { known parent.new ≡ with_one_more (known parent.old) }
        ensures pass { known result ≡ next_of (known parent.old) }
    {
        let seat = self.table.shared.split_seat::<Part>(&mut parent.seat);
        Pass { seat, number }
    }

    /// Waits until the book is at home, and takes it.
    pub fn enter<'a, R: Wait>(&'a self, rt: &R, pass: Pass<B>) -> Held<'a, B>
        requires { IsPassOf self.now pass }
        ensures lock { IsInside B.ground_of result × (lock_of result ≡ self.now) }
        ensures pass { holder_of result ≡ known pass }
        ensures base { base_of result ≡ B.entries (book_of result) }
        ensures goes_on { IsPrefix (known pass).seen (B.entries (book_of result)) }
        ensures own { HasOwn B.number (known pass) (B.entries (book_of result)) }
        ensures same_ground { B.ground_of (book_of result) ≡ B.ground_of (first_book self.now) }
    {
        let Pass { mut seat, number } = pass;
        let shared = &self.table.shared;
        for _ in rt.forever() {
            let word = shared.peek(0);
            if word % 2 == 0 {
                let found = shared.compare_exchange::<Win<B>>(&mut seat, 0, word, word + 1);
                if found == word {
                    let Some(book) = shared.exchange(&mut seat, 0, None) else {
                        unreachable!()
                    };
                    return Held {
                        lock: self,
                        seat,
                        number,
                        book,
                    };
                }
            }
            thread::yield_now();
        }
        unreachable!()
    }

    /// Ends a pass: number 0 keeps its number and its entries, and the longer of the two histories that were seen.
    pub fn join(&self, into: &mut Pass<B>, from: Pass<B>)
        requires lock { IsPassOf self.now into.old × IsPassOf self.now from }
        requires into { (known into.old).number ≡ 0 }
        requires from { 0 < (known from).number }
        ensures lock { IsPassOf self.now into.new }
        ensures pass { known into.new ≡ with_joined (known into.old) (known from) }
        ensures first { IsPrefix (known into.old).seen (known into.new).seen }
        ensures second { IsPrefix (known from).seen (known into.new).seen }
    {
        let Pass { seat, number: _ } = from;
        let shared = &self.table.shared;
        shared.join_seat::<Meet>(&mut into.seat, seat);
        shared.load::<Compare>(&mut into.seat, 0);
    }

    /// The book, once each number that was made was joined into number 0.
    pub fn close(self, last: Pass<B>) -> B
        requires lock { IsPassOf self last }
        requires last { (known last).number ≡ 0 }
        requires all { KeepsAll (known last) }
        ensures same_ground { B.ground_of result ≡ B.ground_of (first_book self) }
        ensures goes_on { IsPrefix (known last).seen (B.entries result) }
        ensures own { made_by B.number 0 (B.entries result) ≡ (known last).own }
        ensures kept { HasKept B.number (known last) (B.entries result) }
        ensures no_other { HasNoOther B.number (known last) (B.entries result) }
    {
        let SeatLock { table, passes: _ } = self;
        let Pass { seat, number: _ } = last;
        let mut closed = table.close_with(seat);
        let slot = closed.take(0);
        closed.free();
        let Some(book) = slot else { unreachable!() };
        book
    }
}
