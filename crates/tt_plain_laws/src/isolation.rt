//! What a transaction removes stays there for it, whatever other sessions do.

ghost use Rattle.tt_plain.specs.law.Isolated.{LegalIsIsolated};
ghost use Rattle.tt_plain_laws.specs.Guarded.{EntriesKeepGuards};

/// An entry that is allowed in a sound store leaves each session guarded, where each was.
pub fn entries_keep_guards()
    ensures { EntriesKeepGuards }
{}

/// After a legal history nobody can have removed what a transaction or an open change is about to remove.
pub fn legal_histories_are_isolated()
    ensures { LegalIsIsolated }
{}
