//! The owner and the class of one partition.
ghost use Rattle.std.specs.Prelude.{◌≡◌, ◌<◌, ◌^◌, ◌==◌, ◌&&◌, map};
ghost use Rattle.tt_layout.specs.Holds.{stands};
ghost use Rattle.tt_layout.specs.Owners.{owner_of, class_of, class_under};
ghost use Rattle.tt_owner.specs.Holders.{holder_at, least_holder, origin_stands};

use crate::holder::{Holder, class_seen, least_with, owner_from, seen_with, unseen};
use crate::holding::{hold_on, stands};
use tt_layout::{Class, Facts, PartFacts, TableFacts};

/// The number of the table that owns a partition, and the class of its bytes. Takes no memory.
pub fn owner_class(facts: &Facts, part: &PartFacts) -> (u32, Class)
    requires { facts.now.at < 2 ^ 62 }
    ensures owner { result.0 ≡ owner_of facts.now part.now }
    ensures class { result.1 ≡ class_of facts.now part.now }
{
    let least = least_of(facts, part.number);
    let owner = owner_from(part.origin, does_stand(facts, part.origin), least);
    (owner, class_under(facts, part, owner))
}

/// Whether a table of this number stands.
fn does_stand(facts: &Facts, number: u32) -> bool
    requires { facts.now.at < 2 ^ 62 }
    ensures { result ≡ origin_stands facts.now number }
{
    for table in facts.tables.items() {
        if is_standing(table, facts.at, number) {
            return true;
        }
    }
    false
}

fn is_standing(table: &TableFacts, at: u64, number: u32) -> bool
    requires { at < 2 ^ 62 }
    ensures { result ≡ ((table.now.number == number) && stands at table.now) }
{
    table.number == number && stands(table, at)
}

fn holder_on(table: &TableFacts, at: u64, number: u64) -> Holder
    requires { at < 2 ^ 62 }
    ensures { result ≡ holder_at at number table.now }
{
    Holder {
        part: number,
        table: table.number,
        stands: stands(table, at),
        hold: hold_on(table, at, number),
    }
}

fn least_of(facts: &Facts, number: u64) -> Option<u32>
    requires { facts.now.at < 2 ^ 62 }
    ensures { result ≡ least_holder (map (holder_at facts.now.at number) facts.now.tables) }
{
    let mut least = None;
    for table in facts.tables.items() {
        least = least_with(least, holder_on(table, facts.at, number));
    }
    least
}

fn class_under(facts: &Facts, part: &PartFacts, owner: u32) -> Class
    requires { facts.now.at < 2 ^ 62 }
    ensures { result ≡ class_under facts.now part.now owner }
{
    let mut seen = unseen();
    for table in facts.tables.items() {
        seen = seen_with(seen, holder_on(table, facts.at, part.number), owner);
    }
    class_seen(seen)
}
