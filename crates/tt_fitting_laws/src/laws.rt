//! Which rows stand in a table after a legal history.

ghost use Rattle.tt_plain.specs.law.Fitting.{LegalIsFitting};

/// After a legal history the rows of each version of a table fit its schema, and so do those that a transaction has added:
/// a value for each column, of its kind, and no NULL where none may stand.
pub fn legal_histories_fit()
    ensures { LegalIsFitting }
{}
