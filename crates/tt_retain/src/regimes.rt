//! The regimes of a table, each beside what those before it leave, so that the horizon is found by halving.
ghost use Rattle.std.specs.Prelude.{◌≡◌, ℕ, ◌-◌, ◌<◌, ◌≤◌, ◌^◌, false, Some, [], ◌∷◌, ◌++◌, length, slice_get, OnOk, OnErr, IfOk, ℤ, neg_ℤ, pos, ◌-ℤ◌, ◌≤ℤ◌, ◌<ℤ◌, int_lt};
ghost use Rattle.std.specs.List.{AllWithin};
ghost use Rattle.tt_retain.specs.Retention.{first_retention, with_regime, with_end, last_begun, days_of, clone_days, FollowsFrom, IsRetention};
ghost use Rattle.tt_retain.specs.Horizon.{horizon_of, stage_of, greatest_or, limits_at, retention_of};
ghost use Rattle.tt_retain.specs.Steps.{regimes_in, HaveRightFloors};

use crate::regime::Regime;
use crate::stage::Stage;
use std::alloc::{AllocError, Global};
use std::marker::Model;

const DAY: i64 = 86_400_000;

const LONGEST: i64 = 90 * DAY;

const FAIL_SAFE: i64 = 7 * DAY;

/// A regime, and the greatest limit that the regimes before it leave once it has begun.
#[derive(Clone, Copy, Drop)]
pub struct Step {
    regime: Regime,
    floor: i64,
}

/// How long a table keeps its past, from its making on. Moments are milliseconds since 1970, below 2^62.
/// Contracts see the regimes in order, whether the table is transient, and whether it has ended. It keeps room for one more regime.
#[derive(Drop)]
pub struct Regimes {
    steps: Vec<Step>,
    transient: bool,
    ended: bool,
}

impl Model for Regimes {
    ghost use Rattle.std.specs.Prelude.{◌≡◌, false, ◌<◌, vec_len, vec_capacity};
    ghost use Rattle.tt_retain.specs.Retention.{Retention, FollowsFrom};
    ghost use Rattle.tt_retain.specs.Steps.{regimes_in, HaveRightFloors};

    ghost Value = { Retention };

    ghost view = { λ r. record { regimes = regimes_in r.steps.items; transient = r.transient; ended = r.ended } };

    ghost invariant = { λ r. FollowsFrom 0 (regimes_in r.steps.items) × HaveRightFloors r.steps.items × (r.ended ≡ false → vec_len r.steps < vec_capacity r.steps) };
}

impl Clone for Regimes {
    ghost use Rattle.std.specs.Prelude.{◌≡◌};

    ghost is_clone = { λ regimes copy. copy ≡ regimes };

    /// An equal value with room for one more regime of its own.
    fn clone(&self) -> Result<Regimes, AllocError> {
        let mut steps = Vec::with_capacity(*self.steps.allocator(), self.steps.len() + 1)?;
        steps.extend_from_slice(&self.steps)?;
        Ok(Regimes {
            steps,
            transient: self.transient,
            ended: self.ended,
        })
    }
}

impl Regimes {
    /// A table that is made at a moment and keeps its past for so many days.
    pub fn new(alloc: Global, made: u64, days: u8, transient: bool) -> Result<Regimes, AllocError>
        requires made { made < 2 ^ 62 }
        requires days { days ≤ 90 }
        ensures { IfOk result (λ regimes. regimes ≡ first_retention made days transient) }
    {
        let mut steps = Vec::with_capacity(alloc, 2)?;
        let floor = made as i64 - LONGEST;
        steps.push(Step {
            regime: Regime { begun: made, days },
            floor,
        })?;
        Ok(Regimes {
            steps,
            transient,
            ended: false,
        })
    }

    /// From the moment on the past is kept for so many days. Without memory nothing changes.
    pub fn set(&mut self, moment: u64, days: u8) -> Result<(), AllocError>
        requires moment { moment < 2 ^ 62 }
        requires later { last_begun self.old ≤ moment }
        requires days { days ≤ 90 }
        requires goes_on { self.old.ended ≡ false }
        ensures ok { OnOk result (self.new ≡ with_regime self.old moment days) }
        ensures err { OnErr result (self.new ≡ self.old) }
    {
        self.steps.reserve(2)?;
        let step = next_step(
            &self.steps,
            Regime {
                begun: moment,
                days,
            },
        );
        let Ok(()) = self.steps.push(step) else {
            unreachable!()
        };
        Ok(())
    }

    /// From the moment on nothing is kept. Takes no memory. No regime follows.
    pub fn end(&mut self, moment: u64)
        requires moment { moment < 2 ^ 62 }
        requires later { last_begun self.old ≤ moment }
        requires goes_on { self.old.ended ≡ false }
        ensures { self.new ≡ with_end self.old moment }
    {
        let step = next_step(
            &self.steps,
            Regime {
                begun: moment,
                days: 0,
            },
        );
        let Ok(()) = self.steps.push(step) else {
            unreachable!()
        };
        self.ended = true;
    }

    /// The days for which the past is kept now; 0 once the table has ended.
    pub fn days(&self) -> u8
        ensures now { result ≡ days_of self.now }
        ensures in_order { IsRetention self.now }
    {
        last_step(&self.steps).regime.days
    }

    /// The days with which a clone of this table begins.
    pub fn clone_days(&self, transient: bool) -> u8
        ensures { result ≡ clone_days self.now transient }
    {
        let days = self.days();
        if transient { days.min(1) } else { days }
    }

    /// Whether the table has no Fail-safe.
    pub fn is_transient(&self) -> bool
        ensures { result ≡ self.now.transient }
    {
        self.transient
    }

    /// The moment before which the table's past is not answered any more. Takes no memory.
    pub fn horizon(&self, moment: i64) -> i64
        requires { neg_ℤ (pos (2 ^ 62)) ≤ℤ moment }
        ensures { result ≡ horizon_of self.now moment }
    {
        horizon_in(&self.steps, moment)
    }

    /// What a span that ended is at a moment. Takes no memory.
    pub fn stage(&self, ended: u64, moment: u64) -> Stage
        requires { moment < 2 ^ 62 }
        ensures { result ≡ stage_of self.now ended moment }
    {
        let now = moment as i64;
        if self.reaches(ended, now) {
            Stage::TimeTravel
        } else if !self.transient && self.reaches(ended, now - FAIL_SAFE) {
            Stage::FailSafe
        } else {
            Stage::Gone
        }
    }

    // Whether the horizon at a moment lies before the end of a span.
    fn reaches(&self, ended: u64, moment: i64) -> bool
        requires { neg_ℤ (pos (2 ^ 62)) ≤ℤ moment }
        ensures { result ≡ int_lt (horizon_of self.now moment) (pos ended) }
    {
        let horizon = self.horizon(moment);
        horizon < 0 || (horizon as u64) < ended
    }
}

fn last_step(steps: &[Step]) -> Step
    requires { HaveRightFloors steps.now }
    ensures { slice_get steps.now (length steps.now - 1) ≡ Some result }
{
    let Some(step) = steps.last() else {
        unreachable!()
    };
    *step
}

// The step of a regime behind these.
fn next_step(steps: &[Step], regime: Regime) -> Step
    requires floors { HaveRightFloors steps.now }
    requires order { FollowsFrom 0 (regimes_in steps.now) }
    requires moment { regime.begun < 2 ^ 62 }
    ensures regime { result.regime ≡ regime }
    ensures floors { HaveRightFloors (steps.now ++ result ∷ []) }
{
    let last = last_step(steps);
    let left = limit(last.regime, regime.begun as i64);
    Step {
        regime,
        floor: last.floor.max(left),
    }
}

// What a regime asks to be kept at a moment that it reaches.
fn limit(regime: Regime, reach: i64) -> i64
    requires reach { neg_ℤ (pos (2 ^ 62)) ≤ℤ reach }
    requires days { regime.days ≤ 90 }
    ensures { result ≡ reach -ℤ pos (retention_of regime) }
{
    reach - i64::from(regime.days) * DAY
}

// The horizon, from the last step that has begun.
fn horizon_in(steps: &[Step], moment: i64) -> i64
    requires floors { HaveRightFloors steps.now }
    requires order { FollowsFrom 0 (regimes_in steps.now) }
    requires moment { neg_ℤ (pos (2 ^ 62)) ≤ℤ moment }
    ensures { result ≡ greatest_or (moment -ℤ pos 7776000000) (limits_at (regimes_in steps.now) moment) }
{
    let begun = begun_at(steps, moment);
    if begun == 0 {
        return moment - LONGEST;
    }
    let step = steps[begun - 1];
    step.floor.max(limit(step.regime, moment))
}

// How many of the steps have begun at a moment.
fn begun_at(steps: &[Step], moment: i64) -> usize
    requires { FollowsFrom 0 (regimes_in steps.now) }
    ensures bound { result ≤ length steps.now }
    ensures begun { AllWithin (λ s. pos s.regime.begun ≤ℤ moment) steps.now 0 result }
    ensures to_come { AllWithin (λ s. moment <ℤ pos s.regime.begun) steps.now result (length steps.now) }
{
    if moment < 0 {
        return 0;
    }
    let now = moment as u64;
    steps.partition_point(|step| step.regime.begun <= now)
}
