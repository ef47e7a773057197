//! The book while a pass has it.

use crate::book::Book;
use crate::lock::SeatLock;
use crate::pass::Pass;
use crate::rule::Release;
use crate::view::View;
use atomic_table::Seat;

/// The book of a lock, while a pass is inside. `SeatLock::leave` puts it back.
pub struct Held<'a, B: Book> {
    pub(crate) lock: &'a SeatLock<B>,
    pub(crate) seat: Seat<Option<B>, View<B::Entry, B::Ground>>,
    pub(crate) number: u32,
    pub(crate) book: B,
}

impl<B: Book> Held<'_, B> {
    ghost use Rattle.std.specs.Prelude.{◌≡◌};
    ghost use Rattle.std.specs.Borrow.{sem};
    ghost use Rattle.tt_seatlock.specs.Passes.{LendsBook, book_of};

    /// The book, to read and to change.
    pub fn book(&mut self) -> &mut B
        ensures* writes_back { sem 𝓛 (LendsBook B.row B.Entry.row B.Ground.row B.Book self.entry result) }
        ensures value { result.now ≡ book_of self.old }
    {
        &mut self.book
    }
}

impl<B: Book> SeatLock<B> {
    ghost use Rattle.std.specs.Prelude.{◌≡◌};
    ghost use Rattle.tt_seatlock.specs.Passes.{known, known_behind, IsPassOf, IsInside, HasSameGround, AddsItsOwn, lock_of};

    /// Puts the book back. The history may only have grown, by entries of the pass's number.
    pub fn leave(held: Held<'_, B>) -> Pass<B>
        requires inside { IsInside B.ground_of held }
        requires same_ground { HasSameGround B.ground_of held }
        requires adds { AddsItsOwn B.number B.entries held }
        ensures lock { IsPassOf (lock_of held.entry) result }
        ensures pass { known result ≡ known_behind B.number B.entries held.entry }
    {
        let Held {
            lock,
            mut seat,
            number,
            book,
        } = held;
        let length = book.length();
        let shared = &lock.table.shared;
        let taken = shared.exchange(&mut seat, 0, Some(book));
        let None = taken else { unreachable!() };
        shared.store::<Release<B>>(&mut seat, 0, 2 * length);
        Pass { seat, number }
    }
}
