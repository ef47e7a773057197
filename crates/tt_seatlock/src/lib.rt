//! A lock over one book, by which each caller learns that the book's history continues what the caller has seen.
//! One word says how long the history is and whether the book is out, one slot holds the book while it is at home, and
//! a pass says what its holder knows.
#![tactic(auto)]

mod book;
mod held;
mod lock;
mod pass;
mod rule;
#[cfg(test)]
mod tests;
mod view;

pub use book::Book;
pub use held::Held;
pub use lock::SeatLock;
pub use pass::Pass;
