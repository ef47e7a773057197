//! What a pass has seen.

use std::collections::LinkedList;

/// What a seat at the lock knows. No value of it is made: it exists in proofs alone.
pub struct View<E, G> {
    /// False once the seat's knowledge went to another one.
    pub live: bool,
    pub number: u64,
    /// The ground of the book of its lock.
    pub place: Option<G>,
    /// The longest history that was seen.
    pub seen: LinkedList<E>,
    /// The seat's own entries in that history.
    pub mine: LinkedList<E>,
    /// The seat has the book.
    pub turn: bool,
    /// The history of the book as it was taken.
    pub base: LinkedList<E>,
    /// How many numbers were made, which number 0 alone knows.
    pub made: u64,
    /// The numbers that were joined into this seat, each with its entries.
    pub kept: LinkedList<(u64, LinkedList<E>)>,
    /// The shorter of the two histories that were joined last.
    pub shown: LinkedList<E>,
}
