//! The parts that the tally names hold the rows that the store has.

ghost use Rattle.tt_plain_laws.specs.Bags.{LegalFormsBags};

/// After a legal history in which each end of a change removes just the parts that it touches, the contents of the parts
/// form the bags of the store: those of each layout the rows of its table at each moment, those that a session sees the
/// rows that it sees, and those that an open statement pins the rows that it has seen.
pub fn legal_histories_form_bags()
    ensures { LegalFormsBags }
{}
