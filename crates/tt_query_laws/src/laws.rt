//! Of what depend the answer of a query, and what an UPDATE and a DELETE do.

ghost use Rattle.tt_plain.specs.law.Goes.{AnswersAreOfBags};
ghost use Rattle.tt_query_laws.specs.Changes.{DeletesAreOfBags, UpdatesAreOfBags};

/// The answer of a query whose names are known and whose kinds fit depends on the bag of the rows alone, and on no order of
/// them.
pub fn answers_are_of_bags()
    ensures { AnswersAreOfBags }
{}

/// An UPDATE over any two lists of rows with one bag is refused alike, or has one count.
pub fn updates_are_of_bags()
    ensures { UpdatesAreOfBags }
{}

/// A DELETE over any two lists of rows with one bag has one count.
pub fn deletes_are_of_bags()
    ensures { DeletesAreOfBags }
{}
