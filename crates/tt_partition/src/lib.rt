//! The immutable partition: rows held by columns, as an image of bytes.
#![tactic(auto)]

mod column;
mod error;
mod fitting;
mod head;
mod numbers;
mod partition;
mod picking;
mod reading;
mod rows;
mod values;
mod writing;

pub use column::ColumnValues;
pub use error::{BadImage, ImageError};
pub use fitting::fits;
pub use partition::Partition;
