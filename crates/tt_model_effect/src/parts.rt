//! How the facts of parts change.

ghost use Rattle.std.specs.Prelude.{◌≡◌, ◌++◌, map, IfOk};
ghost use Rattle.tt_layout.specs.Numbers.{has as has_number};
ghost use Rattle.tt_plain.specs.tally.Changes.{part_added, taken_away};

use std::alloc::AllocError;
use tt_history::Added;
use tt_plain::tally::TallyPart;
use tt_value::Sequence;

fn part_of(origin: u32, part: Added) -> TallyPart
    ensures { result ≡ part_added origin part }
{
    TallyPart {
        number: part.number,
        origin,
        rows: part.rows,
        bytes: part.bytes,
        stored: true,
    }
}

/// The parts with those that a change or a round of a table adds.
pub fn add_parts(
    parts: &mut Sequence<TallyPart>,
    origin: u32,
    added: &[Added],
) -> Result<(), AllocError>
    ensures { IfOk result (λ _. parts.new ≡ parts.old ++ map (part_added origin) added.now) }
{
    for part in added {
        parts.push(part_of(origin, *part))?;
    }
    Ok(())
}

fn has(numbers: &[u64], number: u64) -> bool
    ensures { result ≡ has_number numbers.now number }
{
    numbers.iter().any(|other| *other == number)
}

fn without(part: TallyPart, numbers: &[u64]) -> TallyPart
    ensures { result ≡ taken_away numbers.now part }
{
    TallyPart {
        stored: part.stored && !has(numbers, part.number),
        ..part
    }
}

/// The parts, of which some are stored no longer.
pub fn take_away(parts: &mut Vec<TallyPart>, numbers: &[u64])
    ensures { parts.new.items ≡ map (taken_away numbers.now) parts.old.items }
{
    for place in 0..parts.len() {
        parts[place] = without(parts[place], numbers);
    }
}
