//! What statements answer, why they are refused, and rows that several owners share.

ghost use Rattle.std.specs.Prelude.{◌≡◌, All, IfOk};
ghost use Rattle.tt_value.specs.values.RowText.{IsPrintable};

use std::alloc::{AllocError, Global};
use std::marker::Model;
use std::sync::Arc;
use tt_value::{Bag, Row, Sequence};

/// Why a statement was not carried out, in the order of the refusals' numbers, which go from 1. Where
/// nothing else is said the content is a place, a byte offset from the statement's first token.
#[derive(Clone, Copy, PartialEq, Eq)]
pub enum Refusal {
    Syntax(u32),
    UnknownTable(u32),
    TableExists(u32),
    UnknownColumn(u32),
    WrongCount(u32),
    TypeMismatch(u32),
    NullInNotNull(u32),
    RetentionRange(u32),
    KindMismatch(u32),
    UnknownFile(u32),
    InFuture,
    UnknownStatement,
    StatementOpen,
    /// The moment at which the table was made.
    NotYetMade(u64),
    /// The earliest moment that can be read.
    OutsideRetention(i64),
    NothingToUndrop,
    /// The session that holds the table, from 0.
    LockHeld(u32),
    ClockEnd,
    InTransaction,
    /// A staged record and its column, both from 1. The column is 0 where the record has another number
    /// of fields than the table has columns.
    BadData(u32, u32),
    OutOfRange,
    /// A column, from 1.
    NullInRow(u32),
}

/// A bag that several owners share. Contracts see its rows.
#[derive(Drop)]
pub struct SharedBag {
    bag: Arc<Bag>,
}

// Where the rows of an answer stand. A bag has them in ascending order, and a list in any.
#[derive(Drop)]
enum Kept {
    Bag(Arc<Bag>),
    List(Arc<Sequence<Row>>),
}

/// Rows in an order of their own, each of which can be written, that several owners share. Contracts see the
/// list of them.
#[derive(Drop)]
pub struct SharedRows {
    kept: Kept,
}

/// What a statement answers. The rows of a query come in the order of its answer.
#[derive(Drop)]
pub enum Reply {
    Ok,
    /// How many rows, here and in the two below.
    Inserted(u64),
    Updated(u64),
    Deleted(u64),
    Rows(SharedRows),
    Refused(Refusal),
    Memory,
}

impl Model for SharedBag {
    ghost use Rattle.std.specs.Prelude.{List};
    ghost use Rattle.std.specs.Arc.{arc_value};
    ghost use Rattle.tt_value.specs.declared.value.Row.{Row};
    ghost use Rattle.tt_value.specs.values.RowText.{IsPrintable};
    ghost use Rattle.std.specs.Prelude.{All};

    ghost Value = { List Row };

    ghost view = { λ s. arc_value s.bag };

    ghost invariant = { λ s. All IsPrintable (arc_value s.bag) };
}

impl SharedBag {
    /// The bag with its first owner. Where no memory is found the bag is dropped.
    pub fn new(alloc: Global, bag: Bag) -> Result<SharedBag, AllocError>
        requires { All IsPrintable bag }
        ensures { IfOk result (λ shared. shared ≡ bag) }
    {
        Ok(SharedBag {
            bag: Arc::new(alloc, bag)?,
        })
    }

    /// One more owner of the same bag. No row is copied.
    pub fn share(&self) -> Result<SharedBag, AllocError>
        ensures { IfOk result (λ shared. shared ≡ self.now) }
    {
        Ok(SharedBag {
            bag: Arc::try_clone(&self.bag)?,
        })
    }

    /// The bag that all owners have in common, lent for reading.
    pub fn bag(&self) -> &Bag
        ensures value { result.now ≡ self.now }
        ensures printable { All IsPrintable self.now }
    {
        &self.bag
    }

    /// The bag's rows in ascending order, as those of an answer. No row is copied.
    pub fn in_order(&self) -> Result<SharedRows, AllocError>
        ensures { IfOk result (λ rows. rows ≡ self.now) }
    {
        Ok(SharedRows {
            kept: Kept::Bag(Arc::try_clone(&self.bag)?),
        })
    }
}

impl Model for SharedRows {
    ghost use Rattle.std.specs.Prelude.{List, All};
    ghost use Rattle.tt_value.specs.declared.value.Row.{Row};
    ghost use Rattle.tt_value.specs.values.RowText.{IsPrintable};
    ghost use Rattle.tt_history.specs.KeptRows.{rows_of};

    ghost Value = { List Row };

    ghost view = { λ s. rows_of s.kept };

    ghost invariant = { λ s. All IsPrintable (rows_of s.kept) };
}

impl SharedRows {
    /// The rows in this order, with their first owner. Where no memory is found they are dropped.
    pub fn new(alloc: Global, rows: Vec<Row>) -> Result<SharedRows, AllocError>
        requires { All IsPrintable rows.items }
        ensures { IfOk result (λ shared. shared ≡ rows.items) }
    {
        let rows = Arc::new(alloc, Sequence::from_vec(rows))?;
        Ok(SharedRows {
            kept: Kept::List(rows),
        })
    }

    /// The rows that all owners have in common, lent for reading, in the order of the answer.
    pub fn rows(&self) -> &[Row]
        ensures value { result.now ≡ self.now }
        ensures printable { All IsPrintable self.now }
    {
        match &self.kept {
            Kept::Bag(bag) => bag.rows(),
            Kept::List(rows) => rows.items(),
        }
    }
}
