//! 18, ClockEnd: a wait would pass the last moment of the clock.

ghost use Rattle.std.specs.Prelude.{◌≡◌, ◌<◌, ◌^◌};
ghost use Rattle.tt_plain.specs.refusal.ClockEnd as spec;
ghost use Rattle.tt_model_asked.specs.AskedAs.{asked_in, IsAskedOf, IsInBounds};

use crate::asked::Asked;
use tt_history::Refusal;
use tt_sql::{Statement, TimeUnit, Wait};

/// The last millisecond of the year 9999.
pub const LAST_MOMENT: u64 = 253_402_300_799_999;

fn milliseconds_in(unit: TimeUnit) -> u64
    ensures value { result ≡ spec.milliseconds_in unit }
    ensures bound { result < 2 ^ 27 }
{
    match unit {
        TimeUnit::Days => 86_400_000,
        TimeUnit::Hours => 3_600_000,
        TimeUnit::Minutes => 60_000,
        TimeUnit::Seconds => 1_000,
        TimeUnit::Milliseconds => 1,
    }
}

/// How long a wait is, in milliseconds.
pub fn wait_length(wait: &Wait) -> u128
    ensures value { result ≡ spec.wait_length wait.now }
    ensures bound { result < 2 ^ 91 }
{
    u128::from(wait.amount.value) * u128::from(milliseconds_in(wait.unit))
}

/// Why a wait is refused.
pub fn clock_end(asked: &Asked<'_>, statement: &Statement) -> Option<Refusal>
    requires read { IsAskedOf asked.now statement.now }
    requires bounds { IsInBounds asked.now }
    ensures { result ≡ spec.clock_end (asked_in asked.now) }
{
    let Statement::Wait(wait) = statement else {
        return None;
    };
    let end = u128::from(asked.moment) + wait_length(wait);
    if u128::from(LAST_MOMENT) < end {
        Some(Refusal::ClockEnd)
    } else {
        None
    }
}
