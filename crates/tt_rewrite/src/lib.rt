//! What a change that takes rows does to the parts of its table.
#![tactic(auto)]

pub mod deleting;
pub mod error;
mod leaving;
mod renewing;
mod setting;
mod taking;
pub mod updating;

pub use deleting::delete_rows;
pub use error::UpdateError;
pub use updating::update_rows;
