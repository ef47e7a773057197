//! How the pins of open statements change.

ghost use Rattle.std.specs.Prelude.{◌≡◌, ◌++◌, filter, IfOk, nat_lt};
ghost use Rattle.tt_plain.specs.declared.tally.TallyPin.{TallyPin as Pin};
ghost use Rattle.tt_plain.specs.tally.Changes.{with_pins};

use std::alloc::{AllocError, Global};
use tt_plain::tally::TallyPin;

// The pins of the sessions before one, and of those behind it.
#[derive(Drop)]
struct Around {
    before: Vec<TallyPin>,
    behind: Vec<TallyPin>,
}

fn part_around(alloc: Global, all: Vec<TallyPin>, session: u32) -> Result<Around, AllocError>
    ensures before { IfOk result (λ parted. parted.before.items
        ≡ filter (λ (pin : Pin). nat_lt pin.session session) all.items) }
    ensures behind { IfOk result (λ parted. parted.behind.items
        ≡ filter (λ (pin : Pin). nat_lt session pin.session) all.items) }
{
    let mut parted = Around {
        before: Vec::new(alloc),
        behind: Vec::new(alloc),
    };
    for pin in all {
        if pin.session < session {
            parted.before.push(pin)?;
        } else if session < pin.session {
            parted.behind.push(pin)?;
        }
    }
    Ok(parted)
}

/// All pins with these of a session in their place.
pub fn pin(
    alloc: Global,
    all: Vec<TallyPin>,
    session: u32,
    pins: Vec<TallyPin>,
) -> Result<Vec<TallyPin>, AllocError>
    ensures { IfOk result (λ pinned. pinned.items ≡ with_pins session pins.items all.items) }
{
    let parted = part_around(alloc, all, session)?;
    let Around {
        mut before,
        mut behind,
    } = parted;
    let mut pins = pins;
    before.append(&mut pins)?;
    before.append(&mut behind)?;
    Ok(before)
}
