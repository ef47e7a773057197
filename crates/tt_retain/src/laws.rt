//! What the horizon is worth, as laws of its definition.
ghost use Rattle.std.specs.Prelude.{◌≡◌, ℕ, ◌<◌, ◌≤◌, ◌^◌, true, false, ℤ, pos, neg_ℤ, ◌≤ℤ◌, ◌<ℤ◌};
ghost use Rattle.tt_retain.specs.Retention.{Retention, IsRetention, first_retention, with_regime, with_end, last_begun, clone_days};
ghost use Rattle.tt_retain.specs.Horizon.{horizon_of, stage_of};

use crate::stage::Stage;

/// The horizon never falls as the moment grows.
pub fn horizon_never_falls()
    ensures { (table : Retention) (s u : ℤ) → IsRetention table → s ≤ℤ u
        → horizon_of table s ≤ℤ horizon_of table u }
{}

/// A new regime, and the end, change the horizon for no moment before them.
pub fn past_horizons_stay()
    ensures regime { (table : Retention) (moment days : ℕ) (s : ℤ) → s <ℤ pos moment
        → horizon_of (with_regime table moment days) s ≡ horizon_of table s }
    ensures end { (table : Retention) (moment : ℕ) (s : ℤ) → s <ℤ pos moment
        → horizon_of (with_end table moment) s ≡ horizon_of table s }
{}

/// What was past the horizon before a new regime stays past it: a raised retention brings nothing back.
pub fn expired_stays_expired()
    ensures { (table : Retention) (moment days : ℕ) (x s u : ℤ) → IsRetention table → last_begun table ≤ moment
        → moment < 2 ^ 62 → days ≤ 90 → x ≤ℤ horizon_of table s → s ≤ℤ pos moment → s ≤ℤ u
        → x ≤ℤ horizon_of (with_regime table moment days) u }
{}

/// Rows that were counted by hand.
pub fn worked_horizons()
    ensures none { horizon_of (first_retention 5 0 false) (pos 6) ≡ pos 6 }
    ensures day { horizon_of (first_retention 1 1 false) (pos 86400007) ≡ pos 7 }
    ensures most { horizon_of (first_retention 0 90 false) (pos 7776000001) ≡ pos 1 }
    ensures unmade { horizon_of (first_retention 5 1 false) (pos 4) ≡ neg_ℤ (pos 7775999996) }
    ensures raised_again { horizon_of (with_regime (with_regime (first_retention 1 90 false) 6 0) 7 90) (pos 8) ≡ pos 7 }
    ensures ended { horizon_of (with_end (first_retention 1 1 true) 100) (pos 100) ≡ pos 100 }
    ensures kept { stage_of (first_retention 1 1 false) 2 86400001 ≡ Stage.TimeTravel }
    ensures fail_safe { stage_of (first_retention 1 1 false) 2 691200001 ≡ Stage.FailSafe }
    ensures gone { stage_of (first_retention 1 1 false) 2 691200002 ≡ Stage.Gone }
    ensures transient { stage_of (first_retention 1 1 true) 2 86400002 ≡ Stage.Gone }
    ensures clone { clone_days (first_retention 1 90 false) false ≡ 90 }
    ensures transient_clone { clone_days (first_retention 1 90 false) true ≡ 1 }
{}
