//! What the order of an answer is worth. They compute nothing.

ghost use Rattle.std.specs.Prelude.{◌≡◌, List, None, Some};
ghost use Rattle.tt_value.specs.declared.value.Row.{Row};
ghost use Rattle.tt_value.specs.trees.Scope.{Scope};
ghost use Rattle.tt_value.specs.values.Bags.{copies_of};
ghost use Rattle.tt_sql.specs.declared.query.Query.{Query};
ghost use Rattle.tt_sql.specs.meaning.Queries.{answer_of, arranged, selected_rows, taken_rows};

/// The answer is the selected rows, arranged; where they are out of range it is too, whatever the limit.
pub fn answers_are_arranged()
    ensures some { (scope : Scope) (query : Query) (rows selected : List Row)
        → selected_rows scope query (taken_rows scope query rows) ≡ Some selected
        → answer_of scope query rows ≡ Some (arranged scope query selected) }
    ensures none { (scope : Scope) (query : Query) (rows : List Row)
        → selected_rows scope query (taken_rows scope query rows) ≡ None
        → answer_of scope query rows ≡ None }
{}

/// What is arranged does not depend on the order in which the rows come.
pub fn arranged_rows_are_their_copies()
    ensures { (scope : Scope) (query : Query) (a b : List Row)
        → ((row : Row) → copies_of row a ≡ copies_of row b)
        → arranged scope query a ≡ arranged scope query b }
{}
