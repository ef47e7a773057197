//! How far the language is carried out by now: the one value that the store's definitions leave open.
#![tactic(auto)]

pub mod carried;
pub mod laws;

pub use carried::{built, plain_create, plain_query};
