//! Passes, by whose numbers entries are told apart.

ghost use Rattle.std.specs.Prelude.{◌≡◌};
ghost use Rattle.tt_seatlock.specs.Views.{IsIdle};

use crate::book::Book;
use crate::view::View;
use atomic_table::Seat;

/// The right to enter one lock under one number, with what its holder knows of the lock's history: the history that it has
/// seen, and its own entries in it. The pass of number 0 also knows how many numbers were made, and keeps the numbers that
/// were joined into it. A pass that is dropped leaves its lock without a way to be closed.
#[derive(Drop)]
pub struct Pass<B: Book> {
    pub(crate) seat: Seat<Option<B>, View<B::Entry, B::Ground>>,
    pub(crate) number: u32,
    ghost idle: { IsIdle seat.me },
    ghost numbered: { seat.me.0.number ≡ number },
}

impl<B: Book> Pass<B> {
    ghost use Rattle.tt_seatlock.specs.Passes.{known};

    /// The number under which it makes entries.
    pub fn number(&self) -> u32
        ensures { result ≡ (known self.now).number }
    {
        self.number
    }
}
