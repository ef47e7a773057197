//! Which parts are stored after a legal history.

ghost use Rattle.tt_plain.specs.law.Stocked.{LegalIsStocked};

/// After a legal history each part that is named is stored, and so is each that an open transaction removes.
pub fn legal_histories_are_stocked()
    ensures { LegalIsStocked }
{}
