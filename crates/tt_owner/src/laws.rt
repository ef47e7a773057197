//! What owner and class are worth, as a law of their definitions.
ghost use Rattle.std.specs.Prelude.{◌≡◌, IsTrue, true};
ghost use Rattle.tt_layout.specs.declared.facts.Facts.{Facts};
ghost use Rattle.tt_layout.specs.declared.facts.PartFacts.{PartFacts};
ghost use Rattle.tt_layout.specs.Numbers.{has};
ghost use Rattle.tt_layout.specs.Owners.{owner_of};
ghost use Rattle.tt_owner.specs.Rows.{table_numbers};

/// The owner of a part that a table added is a table.
pub fn owners_are_tables()
    ensures { (facts : Facts) (part : PartFacts) → has (table_numbers facts) part.origin ≡ true
        → has (table_numbers facts) (owner_of facts part) ≡ true }
{}
