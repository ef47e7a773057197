//! Why a statement that is asked of the plain store is refused at its first event: refusals 1 to 19, and what is
//! carried out so far.
#![tactic(auto)]

pub mod asked;
pub mod clock_end;
pub mod first;
pub mod in_transaction;
pub mod kind_mismatch;
pub mod lock_held;
pub mod named;
pub mod nothing_to_undrop;
pub mod places;
pub mod reach;
pub mod retention_range;
pub mod table_exists;
pub mod travels;
pub mod typing;
pub mod unknown_file;

pub use asked::{Asked, Read, table_named};
pub use first::refusal_of;
pub use reach::{Reach, is_within};
