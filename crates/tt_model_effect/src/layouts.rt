//! How layouts change.

ghost use Rattle.std.specs.Prelude.{◌≡◌, ◌∷◌, ◌++◌, [], IfOk};
ghost use Rattle.tt_plain.specs.tally.Changes.{with_layout};

use std::alloc::{AllocError, Global};
use tt_value::Sequence;

/// The layouts of a table, in order, each with the moment at which it begins.
pub type TableLayouts = Sequence<(u64, Sequence<u64>)>;

/// A new table with its first layout.
pub fn make_table(
    layouts: &mut Sequence<TableLayouts>,
    alloc: Global,
    moment: u64,
    parts: Sequence<u64>,
) -> Result<(), AllocError>
    ensures { IfOk result (λ _. layouts.new ≡ layouts.old ++ ((moment, parts) ∷ []) ∷ []) }
{
    let mut first = Sequence::new(alloc);
    first.push((moment, parts))?;
    layouts.push(first)?;
    Ok(())
}

/// One more layout of the table of a number.
pub fn begin_layout(
    layouts: &mut Vec<TableLayouts>,
    table: u32,
    moment: u64,
    parts: Sequence<u64>,
) -> Result<(), AllocError>
    ensures { IfOk result (λ _. layouts.new.items
        ≡ with_layout layouts.old.items table (moment, parts)) }
{
    let place = table.saturating_sub(1) as usize;
    if place < layouts.len() {
        layouts[place].push((moment, parts))?;
    }
    Ok(())
}
