//! Answers: rows are scanned, selected or aggregated, and put in order.

ghost use Rattle.std.specs.Prelude.{◌≡◌, ◌<◌, ◌^◌, All, IfErr, IfOk, Some, length, true};
ghost use Rattle.tt_value.specs.values.RowText.{IsPrintable};
ghost use Rattle.tt_built.specs.Built.{is_plain_query};
ghost use Rattle.tt_agg.specs.Selected.{IsOutOfRange};
ghost use Rattle.tt_agg.specs.declared.error.AggregateError.TheVariants as failed;
ghost use Rattle.tt_query.specs.Counts.{counts_in as counts_of_query};
ghost use Rattle.tt_query.specs.Answer.{IsOverOneTable, IsOver, answer_held, answer_from};

use crate::counted::{counts_in, row_of_counts};
use std::alloc::Global;
use std::slice;
use tt_agg::{AggregateError, select};
use tt_order::arrange;
use tt_scan::{count, scan};
use tt_sql::Query;
use tt_state::{Seen, Ticket};
use tt_value::{Row, Schema};

/// The answer of a query over the rows of the one table that its ticket holds, in its order and cut at its limit. It is out
/// of range where a value or a sum leaves 64 bits, whatever the limit. Besides the rows that the query takes the decoded
/// values of one partition are held at a time.
pub fn answer(alloc: Global, ticket: &Ticket, query: &Query) -> Result<Vec<Row>, AggregateError>
    requires { IsOverOneTable ticket.now.sources query.now }
    ensures rows { IfOk result (λ rows. answer_held ticket.now.sources query.now ≡ Some rows.items) }
    ensures out { IfErr result (IsOutOfRange (answer_held ticket.now.sources query.now)) }
    ensures printable { is_plain_query query.now ≡ true → IfOk result (λ rows. All IsPrintable rows.items) }
{
    match ticket.sources.items().split_first() {
        Some((seen, _others)) => answer_over(alloc, seen, query),
        None => unreachable!(),
    }
}

fn can_be_counted(schema: &Schema)
    ensures { length schema.now.columns < 2 ^ 64 }
{
    let _count = schema.columns.len();
}

fn answer_over(alloc: Global, seen: &Seen, query: &Query) -> Result<Vec<Row>, AggregateError>
    requires { IsOver seen.now query.now }
    ensures rows { IfOk result (λ rows. answer_from seen.now query.now ≡ Some rows.items) }
    ensures out { IfErr result (IsOutOfRange (answer_from seen.now query.now)) }
    ensures printable { is_plain_query query.now ≡ true → IfOk result (λ rows. All IsPrintable rows.items) }
{
    match counts_in(query) {
        Some(items) => answer_of_counts(alloc, seen, query, items),
        None => answer_of_rows(alloc, seen, query),
    }
}

/// The answer of a query that only asks how many rows it takes. No row is made, and without a condition nothing is
/// decoded.
fn answer_of_counts(
    alloc: Global,
    seen: &Seen,
    query: &Query,
    items: usize,
) -> Result<Vec<Row>, AggregateError>
    requires over { IsOver seen.now query.now }
    requires counts { counts_of_query query.now ≡ Some items }
    ensures rows { IfOk result (λ rows. answer_from seen.now query.now ≡ Some rows.items) }
    ensures error { IfErr result (λ error. error ≡ failed.Memory) }
{
    can_be_counted(&seen.schema);
    let taken = count(alloc, seen, &query.filter)?;
    let selected = row_of_counts(alloc, items, taken)?;
    let answer = arrange(alloc, slice::from_ref(&seen.schema), query, selected)?;
    Ok(answer)
}

fn answer_of_rows(alloc: Global, seen: &Seen, query: &Query) -> Result<Vec<Row>, AggregateError>
    requires { IsOver seen.now query.now }
    ensures rows { IfOk result (λ rows. answer_from seen.now query.now ≡ Some rows.items) }
    ensures out { IfErr result (IsOutOfRange (answer_from seen.now query.now)) }
    ensures printable { is_plain_query query.now ≡ true → IfOk result (λ rows. All IsPrintable rows.items) }
{
    can_be_counted(&seen.schema);
    let taken = scan(alloc, seen, &query.filter)?;
    let schemas = slice::from_ref(&seen.schema);
    let selected = select(alloc, schemas, query, taken)?;
    let answer = arrange(alloc, schemas, query, selected)?;
    Ok(answer)
}
