//! The rows of the metrics view.
ghost use Rattle.std.specs.Prelude.{◌≡◌, ℕ, ◌<◌, ◌^◌, ◌||◌, ◌++◌, map, filter, sum_by, length, OnOk, IfOk};
ghost use Rattle.std.specs.List.Sorted.{IsPermutation, IsNonDecreasingBy};
ghost use Rattle.tt_layout.specs.declared.facts.Facts.{Facts as FactsValue};
ghost use Rattle.tt_layout.specs.Holds.{stands};
ghost use Rattle.tt_plain.specs.report.Metrics.{is_measured, metric_rows};
ghost use Rattle.tt_owner.specs.Owned.{owned_of};
ghost use Rattle.tt_owner.specs.Rows.{AreByNumber, total_of, stored_bytes, has_some, counted, metric_of, row_of_run, row_if, reply_row};

use crate::holding::stands;
use crate::owned::{Owned, owned_by, owned_parts};
use crate::row::MetricRow;
use std::alloc::{AllocError, Global};
use tt_layout::{Class, Facts, TableFacts};

/// A row for each table that is live, or dropped and in Time Travel, or owns a stored byte, in the order of the facts.
pub fn metrics(alloc: Global, facts: &Facts) -> Result<Vec<MetricRow>, AllocError>
    requires { facts.now.at < 2 ^ 62 }
    ensures rows { IfOk result (λ rows. rows.items ≡ map (metric_of facts.now) (filter (is_measured facts.now) facts.now.tables)) }
    ensures totals { AreByNumber facts.now → IfOk result (λ rows. sum_by total_of rows.items ≡ stored_bytes facts.now) }
    ensures reply { IfOk result (λ rows. map reply_row rows.items ≡ metric_rows facts.now) }
{
    let owned = owned_parts(alloc, facts)?;
    let mut rows = Vec::new(alloc);
    for table in facts.tables.items() {
        push_row(&mut rows, table, facts.at, &owned)?;
    }
    Ok(rows)
}

/// The row of a table, if it has one.
fn push_row(
    rows: &mut Vec<MetricRow>,
    table: &TableFacts,
    at: u64,
    owned: &[Owned],
) -> Result<(), AllocError>
    requires at { at < 2 ^ 62 }
    requires order { IsNonDecreasingBy (λ part. part.owner) owned.now }
    ensures { (facts : FactsValue) → facts.at ≡ at → IsPermutation (map (owned_of facts) facts.parts) owned.now
        → OnOk result (rows.new.items ≡ rows.old.items ++ row_if facts table.now) }
{
    let run = owned_by(owned, table.number);
    if !is_measured(run, table, at) {
        return Ok(());
    }
    rows.push(row_of_run(table, run)?)?;
    Ok(())
}

fn is_measured(run: &[Owned], table: &TableFacts, at: u64) -> bool
    requires { at < 2 ^ 62 }
    ensures { result ≡ (stands at table.now || has_some run.now) }
{
    stands(table, at) || !run.is_empty()
}

fn row_of_run(table: &TableFacts, run: &[Owned]) -> Result<MetricRow, AllocError>
    ensures { IfOk result (λ row. row ≡ row_of_run table.now run.now) }
{
    let name = table.name.clone()?;
    Ok(MetricRow {
        table: table.number,
        name,
        group: table.group,
        active: total(run, Class::Active),
        time_travel: total(run, Class::TimeTravel),
        failsafe: total(run, Class::FailSafe),
        retained: total(run, Class::RetainedForClone),
        pending: total(run, Class::Pending),
    })
}

/// The bytes of the partitions of one class.
fn total(run: &[Owned], class: Class) -> u128
    ensures { result ≡ sum_by (counted class) run.now }
{
    let mut total = 0;
    for part in run {
        total += u128::from(counted(*part, class));
    }
    total
}

fn counted(part: Owned, class: Class) -> u64
    ensures { result ≡ counted class part }
{
    if part.class == class { part.bytes } else { 0 }
}
