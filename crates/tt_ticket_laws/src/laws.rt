//! What is answered and built over the parts that a ticket holds is what its statement means.

ghost use Rattle.tt_ticket_laws.specs.Seen.{AnswersAsSeen, DeletesAsSeen, FailsAsSeen, InsertsAsSeen, InsertsFailAsSeen, UpdatesAsSeen, UpdatesFailAsSeen};

/// The answer of a query over the parts that its ticket holds is its answer over what it sees.
pub fn queries_answer_as_seen()
    ensures { AnswersAsSeen }
{}

/// A query that is out of range over the parts that its ticket holds is refused so over what it sees.
pub fn queries_fail_as_seen()
    ensures { FailsAsSeen }
{}

/// What was built for a DELETE over the parts that its ticket holds is what it does to what it sees.
pub fn deletes_are_as_seen()
    ensures { DeletesAsSeen }
{}

/// What was built for an INSERT, of written rows or of those of a query over the parts that its ticket holds, is what it adds.
pub fn inserts_are_as_seen()
    ensures { InsertsAsSeen }
{}

/// An INSERT that is refused over the parts that its ticket holds, for a value out of range or a NULL, is refused so over what it sees.
pub fn inserts_fail_as_seen()
    ensures { InsertsFailAsSeen }
{}

/// What was built for an UPDATE over the parts that its ticket holds is what it does to what it sees.
pub fn updates_are_as_seen()
    ensures { UpdatesAsSeen }
{}

/// An UPDATE that is refused over the parts that its ticket holds is refused so over what it sees.
pub fn updates_fail_as_seen()
    ensures { UpdatesFailAsSeen }
{}
