//! What tables that hold a partition make of its owner and its class.
ghost use Rattle.std.specs.Prelude.{◌≡◌, ◌==◌, ◌&&◌, ◌||◌, not, ℕ, List, ◌++◌, ◌∷◌, []};
ghost use Rattle.tt_layout.specs.Owners.{is_strong, is_active_hold, is_safe_hold};
ghost use Rattle.tt_owner.specs.Holders.{least_holder, seen_of, class_seen, owner_from, holds_strongly};

use tt_layout::{Class, Hold};

/// A partition by its number, a table, whether it stands, and how it holds the partition.
#[derive(Clone, Copy, Drop)]
pub struct Holder {
    pub part: u64,
    pub table: u32,
    pub stands: bool,
    pub hold: Hold,
}

/// Whether the owner holds a partition as active, and as active or in Time Travel; whether another table that stands
/// does the latter; and whether any table holds it in Fail-safe.
#[derive(Clone, Copy, Drop)]
pub struct Seen {
    pub active: bool,
    pub strong: bool,
    pub elsewhere: bool,
    pub safe: bool,
}

/// The least number of a table that stands and holds the partition as active or in Time Travel, with one more holder.
pub fn least_with(least: Option<u32>, holder: Holder) -> Option<u32>
    ensures { (holders : List Holder) → least ≡ least_holder holders → result ≡ least_holder (holders ++ holder ∷ []) }
{
    if !holds_strongly(holder) {
        return least;
    }
    match least {
        None => Some(holder.table),
        Some(number) => Some(number.min(holder.table)),
    }
}

/// What is seen with one more holder.
pub fn seen_with(seen: Seen, holder: Holder, owner: u32) -> Seen
    ensures { (holders : List Holder) → seen ≡ seen_of owner holders → result ≡ seen_of owner (holders ++ holder ∷ []) }
{
    Seen {
        active: either(seen.active, owns_actively(holder, owner)),
        strong: either(seen.strong, owns_strongly(holder, owner)),
        elsewhere: either(seen.elsewhere, holds_elsewhere(holder, owner)),
        safe: either(seen.safe, is_safe(holder.hold)),
    }
}

fn either(one: bool, other: bool) -> bool
    ensures { result ≡ (one || other) }
{
    one || other
}

fn owns_actively(holder: Holder, owner: u32) -> bool
    ensures { result ≡ ((holder.table == owner) && is_active_hold holder.hold) }
{
    holder.table == owner && is_active(holder.hold)
}

fn owns_strongly(holder: Holder, owner: u32) -> bool
    ensures { result ≡ ((holder.table == owner) && is_strong holder.hold) }
{
    holder.table == owner && is_strong(holder.hold)
}

fn holds_elsewhere(holder: Holder, owner: u32) -> bool
    ensures { result ≡ (not (holder.table == owner) && holds_strongly holder) }
{
    holder.table != owner && holds_strongly(holder)
}

/// Whether the table stands and holds the partition as active or in Time Travel.
fn holds_strongly(holder: Holder) -> bool
    ensures { result ≡ holds_strongly holder }
{
    holder.stands && is_strong(holder.hold)
}

/// Nothing seen yet.
pub fn unseen() -> Seen
    ensures { (owner : ℕ) → result ≡ seen_of owner [] }
{
    Seen {
        active: false,
        strong: false,
        elsewhere: false,
        safe: false,
    }
}

/// The owner: the origin if it stands, else the least holder, and where there is none the origin.
pub fn owner_from(origin: u32, origin_stands: bool, least: Option<u32>) -> u32
    ensures { result ≡ owner_from origin origin_stands least }
{
    if origin_stands {
        return origin;
    }
    match least {
        None => origin,
        Some(number) => number,
    }
}

/// The class, where all holders have been seen.
pub fn class_seen(seen: Seen) -> Class
    ensures { result ≡ class_seen seen }
{
    if seen.active {
        Class::Active
    } else if seen.strong {
        Class::TimeTravel
    } else if seen.elsewhere {
        Class::RetainedForClone
    } else if seen.safe {
        Class::FailSafe
    } else {
        Class::Pending
    }
}

fn is_active(hold: Hold) -> bool
    ensures { result ≡ is_active_hold hold }
{
    match hold {
        Hold::Active => true,
        Hold::TimeTravel | Hold::FailSafe | Hold::Nothing => false,
    }
}

fn is_strong(hold: Hold) -> bool
    ensures { result ≡ is_strong hold }
{
    match hold {
        Hold::Active | Hold::TimeTravel => true,
        Hold::FailSafe | Hold::Nothing => false,
    }
}

fn is_safe(hold: Hold) -> bool
    ensures { result ≡ is_safe_hold hold }
{
    match hold {
        Hold::FailSafe => true,
        Hold::Active | Hold::TimeTravel | Hold::Nothing => false,
    }
}
