//! The rule of the lock, and what each step on its word tells.

use crate::book::Book;
use crate::view::View;
use atomic_table::{Join, Play, Split, TableRule};
use std::marker::PhantomData;
use std::snapshot::Snapshot;

/// What always holds of the lock. Its word is twice the length of the history, and one more while a seat has the
/// turn. No value of it is made.
pub struct Turns<B> {
    book: PhantomData<B>,
}

impl<B: Book> TableRule<Option<B>, View<B::Entry, B::Ground>, Snapshot<B>> for Turns<B> {
    ghost use Rattle.tt_seatlock.specs.Views.{opened};
    ghost use Rattle.tt_seatlock.specs.Rule.{Ruled};

    ghost holds = { λ key. Ruled B.entries B.number B.ground_of };

    ghost first = { λ key. opened (B.ground_of key.value) };
}

// A turn is won or lost.
pub(crate) struct Win<B> {
    book: PhantomData<B>,
}

impl<B: Book> Play<Option<B>, View<B::Entry, B::Ground>> for Win<B> {
    ghost use Rattle.tt_seatlock.specs.Rule.{won};

    ghost then = { won B.entries B.number B.ground_of };
}

// A turn ends, with the book at home again.
pub(crate) struct Release<B> {
    book: PhantomData<B>,
}

impl<B: Book> Play<Option<B>, View<B::Entry, B::Ground>> for Release<B> {
    ghost use Rattle.tt_seatlock.specs.Rule.{released};

    ghost then = { released B.entries B.number };
}

// The shorter of two joined histories begins the longer one.
pub(crate) struct Compare;

impl<S, E, G> Play<S, View<E, G>> for Compare {
    ghost use Rattle.tt_seatlock.specs.Rule.{compared};

    ghost then = { compared };
}

// A new number gets a seat.
pub(crate) struct Part;

impl<E, G> Split<View<E, G>> for Part {
    ghost use Rattle.tt_seatlock.specs.Views.{counted, newcomer};

    ghost left = { counted };

    ghost right = { newcomer };
}

// A seat ends, and number 0 keeps what it knew.
pub(crate) struct Meet;

impl<E, G> Join<View<E, G>> for Meet {
    ghost use Rattle.tt_seatlock.specs.Views.{joined, spent};

    ghost both = { joined };

    ghost spent = { spent };
}
