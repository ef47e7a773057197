//! How many partitions a scan would read.

ghost use Rattle.std.specs.Prelude.{◌≡◌, length};
ghost use Rattle.std.specs.List.{count_by};
ghost use Rattle.tt_scan.specs.Held.{IsOfItsSchema, may_take, may_hold};

use tt_partition::Partition;
use tt_state::Seen;
use tt_value::{Predicate, Schema};
use tt_zone::may;

/// How many partitions there are, and how many of them may have a row that the predicate takes.
#[derive(Clone, Copy)]
pub struct Plan {
    pub total: u64,
    pub assigned: u64,
}

fn may_take_from(schema: &Schema, partition: &Partition, filter: &Option<Predicate>) -> bool
    ensures { result ≡ may_take schema.now filter.now partition.now }
{
    match filter {
        None => true,
        Some(predicate) => may(schema, partition.zones(), predicate),
    }
}

fn count_assigned(seen: &Seen, filter: &Option<Predicate>) -> usize
    ensures { result ≡ count_by (may_hold seen.now.schema filter.now) seen.now.parts }
{
    let mut count = 0;
    for part in seen.parts.items() {
        if may_take_from(&seen.schema, part.1.partition(), filter) {
            count += 1;
        }
    }
    count
}

/// The plan of a scan. No image is read.
pub fn plan_of(seen: &Seen, filter: &Option<Predicate>) -> Plan
    ensures total { result.total ≡ length seen.now.parts }
    ensures assigned { result.assigned ≡ count_by (may_hold seen.now.schema filter.now) seen.now.parts }
{
    Plan {
        total: seen.parts.len() as u64,
        assigned: count_assigned(seen, filter) as u64,
    }
}
