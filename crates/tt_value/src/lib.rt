//! The values of a table: texts, rows, their order, and bags of rows.
#![tactic(auto)]

pub mod bag;
pub mod column;
pub mod date;
pub mod expression;
pub mod name;
pub mod order;
pub mod packing;
pub mod predicate;
pub mod print;
pub mod sequence;
pub mod text;
pub mod value;

pub use bag::Bag;
pub use column::{BadColumn, FaultAt};
pub use date::write_date;
pub use expression::{Addend, Expr, Factor, Sign, Term};
pub use name::{ColumnName, Literal, Name, Number, Quoted, TableName};
pub use order::{compare, compare_rows};
pub use predicate::{Comparison, Conjunction, Operand, Predicate, Truth, Unit};
pub use print::write_row;
pub use sequence::Sequence;
pub use text::{BadText, Text};
pub use value::{Column, Kind, Row, Schema, Value};
