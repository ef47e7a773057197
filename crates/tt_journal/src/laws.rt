//! Laws of the texts' definitions. The functions compute nothing.

ghost use Rattle.tt_journal.specs.Contents.{TableIsOne};

/// The table by which refusals are written is the one by which they are known: each has the same number, name and
/// content in both.
pub fn refusals_have_one_table()
    ensures { TableIsOne }
{}
