//! Laws of the lines' definitions. The functions compute nothing.

ghost use Rattle.tt_journal_read.specs.Line.{LinesDiffer};

/// Each entry that a line can tell has a line of its own.
pub fn lines_differ()
    ensures { LinesDiffer }
{}
