//! One mark, and why a mark or a drop is refused.

/// A session's mark on a table. The session is given by its place in the script, from 0, and the table
/// by its number.
#[derive(Clone, Copy, PartialEq, Eq)]
pub struct Mark {
    pub session: u32,
    pub table: u32,
    pub exclusive: bool,
}

/// The first other session, in the order of their numbers, whose mark stands in the way.
#[derive(Clone, Copy, PartialEq, Eq)]
pub struct HeldBy {
    pub session: u32,
}
