//! What can still be done with a span that has ended.

/// In Time Travel it answers AT and BEFORE, in Fail-safe it is kept and answers nothing, and what is gone may be purged.
#[derive(Clone, Copy, Drop, PartialEq, Eq)]
pub enum Stage {
    TimeTravel,
    FailSafe,
    Gone,
}
