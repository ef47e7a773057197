//! Of several refusals the one with the least number is given.

ghost use Rattle.std.specs.Prelude.{◌≡◌, ◌++◌, None};
ghost use Rattle.tt_plain.specs.Places.{each, leftmost};
ghost use Rattle.tt_plain.specs.Tables.{tables_of, IsOverOneTable};
ghost use Rattle.tt_plain.specs.refusal.{first_some};
ghost use Rattle.tt_plain.specs.refusal.UnknownTable.{unknown_name};
ghost use Rattle.tt_plain.specs.refusal.First.{refusal_of as first_refusal};
ghost use Rattle.tt_model_asked.specs.AskedAs.{asked_in, IsAskedOf, IsInBounds, IsAlone};
ghost use Rattle.tt_model_asked.specs.RefusalsAs.{refusals_of_content, refusals_of_state, refusals_of_tables, refusals_of_the_rest, refusals_of_typing};

use crate::asked::{Asked, Read};
use crate::clock_end::clock_end;
use crate::in_transaction::in_transaction;
use crate::kind_mismatch::kind_mismatch;
use crate::lock_held::lock_held;
use crate::named::unknown_table;
use crate::nothing_to_undrop::nothing_to_undrop;
use crate::retention_range::retention_range;
use crate::table_exists::table_exists;
use crate::travels::travels;
use crate::typing::typed;
use crate::unknown_file::unknown_file;
use tt_history::Refusal;
use tt_sql::Statement;

// 8 to 10.
fn of_content(asked: &Asked<'_>, statement: &Statement) -> Option<Refusal>
    requires { IsAskedOf asked.now statement.now }
    ensures { result ≡ first_some (refusals_of_content (asked_in asked.now)) }
{
    let range = retention_range(asked, statement);
    let kind = kind_mismatch(asked, statement);
    range.or(kind).or(unknown_file(asked, statement))
}

// 16 to 19.
fn of_state(asked: &Asked<'_>, statement: &Statement) -> Option<Refusal>
    requires read { IsAskedOf asked.now statement.now }
    requires bounds { IsInBounds asked.now }
    ensures { result ≡ first_some (refusals_of_state (asked_in asked.now)) }
{
    let nothing = nothing_to_undrop(asked, statement);
    let held = lock_held(asked, statement);
    let end = clock_end(asked, statement);
    nothing
        .or(held)
        .or(end)
        .or(in_transaction(asked, statement))
}

// 8 to 19.
fn of_the_rest(asked: &Asked<'_>, statement: &Statement) -> Option<Refusal>
    requires read { IsAskedOf asked.now statement.now }
    requires alone { IsOverOneTable statement.now }
    requires bounds { IsInBounds asked.now }
    ensures { result ≡ first_some (refusals_of_the_rest (asked_in asked.now)) }
{
    let content = of_content(asked, statement);
    let travel = travels(asked, statement);
    content.or(travel).or(of_state(asked, statement))
}

// 4 to 19 of a statement whose tables are live.
fn over_types(asked: &Asked<'_>, statement: &Statement) -> Option<Refusal>
    requires read { IsAskedOf asked.now statement.now }
    requires alone { IsOverOneTable statement.now }
    requires bounds { IsInBounds asked.now }
    requires found { leftmost (each (unknown_name (asked_in asked.now)) (tables_of statement.now))
        ≡ None }
    ensures { result ≡ first_some (refusals_of_typing (asked_in asked.now) ++ refusals_of_the_rest
        (asked_in asked.now)) }
{
    match typed(asked, statement) {
        Some(refusal) => Some(refusal),
        None => of_the_rest(asked, statement),
    }
}

// 3 to 19 of a statement whose tables are live.
fn over_tables(asked: &Asked<'_>, statement: &Statement) -> Option<Refusal>
    requires read { IsAskedOf asked.now statement.now }
    requires alone { IsOverOneTable statement.now }
    requires bounds { IsInBounds asked.now }
    requires found { leftmost (each (unknown_name (asked_in asked.now)) (tables_of statement.now))
        ≡ None }
    ensures { result ≡ first_some (refusals_of_tables (asked_in asked.now)) }
{
    match table_exists(asked, statement) {
        Some(refusal) => Some(refusal),
        None => over_types(asked, statement),
    }
}

fn of_tree(asked: &Asked<'_>, statement: &Statement) -> Option<Refusal>
    requires read { IsAskedOf asked.now statement.now }
    requires alone { IsOverOneTable statement.now }
    requires bounds { IsInBounds asked.now }
    ensures { result ≡ first_refusal (asked_in asked.now) }
{
    match unknown_table(asked, statement) {
        Some(place) => Some(Refusal::UnknownTable(place)),
        None => over_tables(asked, statement),
    }
}

/// Why what is asked is refused, if it is: of all refusals that hold the one with the least number. It takes no memory.
pub fn refusal_of(asked: &Asked<'_>) -> Option<Refusal>
    requires alone { IsAlone asked.now }
    requires bounds { IsInBounds asked.now }
    ensures { result ≡ first_refusal (asked_in asked.now) }
{
    match asked.read {
        Read::Fault(place) => Some(Refusal::Syntax(place)),
        Read::Tree(statement) => of_tree(asked, statement),
    }
}
