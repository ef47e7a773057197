//! What is carried out by now, as laws. They compute nothing.

ghost use Rattle.std.specs.Prelude.{◌≡◌, false};
ghost use Rattle.tt_sql.specs.declared.statement.Statement.{Statement};
ghost use Rattle.tt_built.specs.Built.{built, is_built};

/// What the store's definitions ask of a statement is what the call tells, and no part is purged or reclustered yet.
pub fn built_is_carried_out()
    ensures statements { (s : Statement) → built.statements s ≡ is_built s }
    ensures purges { built.purges ≡ false }
    ensures rounds { built.rounds ≡ false }
{}
