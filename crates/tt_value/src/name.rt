//! Names, numbers and literals as a statement has them. Each knows the byte offset of its first token in
//! the statement's text.

use crate::text::Text;
use crate::value::Value;

/// A name in upper case, as names are compared.
#[derive(Drop)]
pub struct Name {
    pub text: Text,
    pub place: u32,
}

/// A column's name, with the name of its table where that is written in front.
#[derive(Drop)]
pub struct ColumnName {
    pub table: Option<Name>,
    pub name: Name,
}

/// A value as it is written. Its place is that of its minus or of its word DATE, if it has one.
#[derive(Drop)]
pub struct Literal {
    pub value: Value,
    pub place: u32,
}

/// A text in quotes, without them.
#[derive(Drop)]
pub struct Quoted {
    pub text: Text,
    pub place: u32,
}

/// A table's name, with the name of its schema where that is written in front.
#[derive(Drop)]
pub struct TableName {
    pub schema: Option<Name>,
    pub name: Name,
}

/// A number without a sign, at most 9,223,372,036,854,775,807.
#[derive(Drop)]
pub struct Number {
    pub value: u64,
    pub place: u32,
}
