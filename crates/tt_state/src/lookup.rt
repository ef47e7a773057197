//! Look-ups of tables and parts.

ghost use Rattle.std.specs.Prelude.{◌≡◌, ◌≤◌, IfOk, length, map};
ghost use Rattle.std.specs.Option.{option_copied};
ghost use Rattle.tt_state.specs.Keeps.{ArePartNumbers};
ghost use Rattle.tt_state.specs.Kept.{kept_of, live_kept, part_kept, table_kept, with_part};

use crate::part::{SharedPart, StoredPart};
use crate::state::{State, TableState};
use std::alloc::{AllocError, Global};
use tt_value::{Sequence, Text};

impl State {
    /// The table of a number, from 1; none where there is no such table.
    pub fn table(&self, number: u32) -> Option<&TableState>
        ensures { option_copied result ≡ table_kept (kept_of self.now).tables number }
    {
        if number == 0 {
            return None;
        }
        self.tables.get(number as usize - 1)
    }

    /// The live table of a name.
    pub fn live_table(&self, name: &Text) -> Option<&TableState>
        ensures { option_copied result ≡ live_kept (kept_of self.now) name.now }
    {
        let number = self.names.live(name)?;
        self.table(number)
    }
}

/// The part of a number, with one more owner.
fn share_part(parts: &[StoredPart], number: u64) -> Result<SharedPart, AllocError>
    requires { (1 ≤ number) × (number ≤ length parts.now) }
    ensures { IfOk result (λ part. part ≡ part_kept parts.now number) }
{
    parts[number as usize - 1].part.share()
}

/// The parts of these numbers, each with one more owner. No row is copied.
pub fn share_parts(
    alloc: Global,
    parts: &[StoredPart],
    numbers: &[u64],
) -> Result<Sequence<(u64, SharedPart)>, AllocError>
    requires { ArePartNumbers (length parts.now) numbers.now }
    ensures { IfOk result (λ shared. shared ≡ map (with_part parts.now) numbers.now) }
{
    let mut shared = Sequence::new(alloc);
    for number in numbers {
        let part = share_part(parts, *number)?;
        shared.push((*number, part))?;
    }
    Ok(shared)
}
