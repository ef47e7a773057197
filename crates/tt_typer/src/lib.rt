//! Which statements are refused for their columns, their numbers of values, their kinds or their NULLs.
#![tactic(auto)]

mod alone;
mod checking;
mod columns;
mod counts;
mod found;
mod kinds;
pub mod laws;
mod mismatches;
mod nulls;
mod parts;
mod places;
mod scope;
mod unknown;
mod values;

pub use checking::{check, check_create, check_query, check_values};
pub use places::table_begin;
