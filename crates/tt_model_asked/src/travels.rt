//! 11 to 15, InFuture, UnknownStatement, StatementOpen, NotYetMade and OutsideRetention: the point at which a table is read.

ghost use Rattle.std.specs.Prelude.{◌≡◌, None, ◌<◌, ◌^◌, ◌∷◌, []};
ghost use Rattle.std.specs.Option.{option_to_list, option_copied};
ghost use Rattle.tt_plain.specs.Tables.{IsOverOneTable, ReadsOneTable};
ghost use Rattle.tt_plain.specs.asked.Request.{request_in};
ghost use Rattle.tt_plain.specs.opening.Point as spec;
ghost use Rattle.tt_plain.specs.refusal.{first_some};
ghost use Rattle.tt_travel.specs.Travel.{judged as judged_point};
ghost use Rattle.tt_model_asked.specs.AskedAs.{asked_in, IsAskedOf, IsInBounds};
ghost use Rattle.tt_model_asked.specs.TravelAs.{judged_refusal, refusals_over, refusals_of_points, travel_refusal as refused_travel};

use crate::asked::{Asked, table_named};
use tt_history::Refusal;
use tt_plain::store::PlainTable;
use tt_sql::{Clause, Dml, Insert, InsertSource, Source, Statement};
use tt_travel::point;

fn source_of_insert(insert: &Insert) -> Option<&Source>
    requires { ReadsOneTable (Dml.Insert insert.now) }
    ensures { option_to_list (option_copied result) ≡ spec.change_sources (Dml.Insert insert.now) }
{
    match &insert.source {
        InsertSource::Values(_) => None,
        InsertSource::Query(query) => Some(&query.first),
    }
}

/// The table that a statement reads, with its clause if it has one.
pub fn source_of(statement: &Statement) -> Option<&Source>
    requires { IsOverOneTable statement.now }
    ensures { option_to_list (option_copied result) ≡ spec.sources_in (request_in statement.now) }
{
    match statement {
        Statement::Query(query) | Statement::Explain(query) => Some(&query.first),
        Statement::Dml(Dml::Insert(insert)) => source_of_insert(insert),
        Statement::Clone(clone) => Some(&clone.source),
        _ => None,
    }
}

fn travel_refusal(table: &PlainTable, x: i64, moment: u64) -> Option<Refusal>
    requires { moment < 2 ^ 62 }
    ensures { result ≡ refused_travel moment (table.now, x) }
{
    if x < 0 || (x as u64) < table.made {
        return Some(Refusal::NotYetMade(table.made));
    }
    let horizon = table.regimes.horizon(moment as i64);
    if x < horizon {
        Some(Refusal::OutsideRetention(horizon))
    } else {
        None
    }
}

fn judged(point: Result<i64, Refusal>, table: Option<&PlainTable>, moment: u64) -> Option<Refusal>
    requires { moment < 2 ^ 62 }
    ensures { result ≡ judged_refusal moment (option_copied table.entry) point }
{
    match (point, table) {
        (Err(refusal), _) => Some(refusal),
        (Ok(_), None) => None,
        (Ok(x), Some(table)) => travel_refusal(table, x, moment),
    }
}

/// The moment that a clause means, or why there is none.
pub fn moment_of(asked: &Asked<'_>, clause: &Clause) -> Result<i64, Refusal>
    requires { IsInBounds asked.now }
    ensures { result ≡ judged_point asked.now.moment (spec.point_of (asked_in asked.now)
        clause.now) }
{
    let points = asked.store.points.items();
    point(clause, asked.moment, points, asked.program)
}

// A table that is read.
fn read(asked: &Asked<'_>, source: &Source) -> Option<Refusal>
    requires { IsInBounds asked.now }
    ensures { result ≡ first_some (refusals_over (asked_in asked.now) (source.now ∷ [])) }
{
    match &source.clause {
        None => None,
        Some(clause) => {
            let table = table_named(asked, &source.table);
            judged(moment_of(asked, clause), table, asked.moment)
        }
    }
}

/// Why a statement is refused for the point at which it reads a table.
pub fn travels(asked: &Asked<'_>, statement: &Statement) -> Option<Refusal>
    requires read { IsAskedOf asked.now statement.now }
    requires alone { IsOverOneTable statement.now }
    requires bounds { IsInBounds asked.now }
    ensures { result ≡ first_some (refusals_of_points (asked_in asked.now)) }
{
    match source_of(statement) {
        None => None,
        Some(source) => read(asked, source),
    }
}
