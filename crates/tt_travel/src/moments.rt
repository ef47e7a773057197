//! Moments as clauses write them, and what they come to.
ghost use Rattle.std.specs.Prelude.{◌≡◌, ℕ, ◌-◌, ◌*◌, ◌<◌, ◌^◌, min, pos, ◌+ℤ◌, ◌*ℤ◌, ◌≤ℤ◌, neg_ℤ};
ghost use Rattle.tt_plain.specs.opening.Point.{on_side, signed};
ghost use Rattle.tt_travel.specs.Travel.{IsPointOf, judged, product_of, most_seconds};

use crate::statements::ended_at;
use tt_history::Refusal;
use tt_script::Program;
use tt_sql::{Clause, Moment, Number, Offset, Side};

/// The moment that a clause means at the moment `now`, in milliseconds, or -1 for any before 0. BEFORE is the moment
/// before, which alone is judged. `points` has an item for each statement of the program, one session behind the other:
/// none where it has no entry, the largest number where it has no point yet, and else its point; a statement for
/// which there is no item has no entry. Refused with `InFuture` where the moment is above `now`, with
/// `UnknownStatement` where the text is no query id of a statement with an entry, and with `StatementOpen` where that
/// statement has no point yet. Takes no memory.
pub fn point(
    clause: &Clause,
    now: u64,
    points: &[Option<u64>],
    program: &Program,
) -> Result<i64, Refusal>
    requires { now < 2 ^ 62 }
    ensures { IsPointOf now points.now program.now clause.now result }
{
    match &clause.moment {
        Moment::Timestamp(x) => judge(clause.side, i128::from(*x), now),
        Moment::Offset(offset) => judge(clause.side, from_now(offset, now), now),
        Moment::Statement(id) => match ended_at(id.text.as_str().as_bytes(), points, program) {
            Ok(end) => judge(clause.side, i128::from(end), now),
            Err(refusal) => Err(refusal),
        },
    }
}

/// The moment of an offset, at most 2^64 - 1 seconds away.
fn from_now(offset: &Offset, now: u64) -> i128
    ensures { result ≡ pos now +ℤ pos 1000 *ℤ signed offset.now.negative (most_seconds offset.now) }
{
    let now = i128::from(now);
    let away = 1000 * i128::from(seconds(offset.factors.as_slice()));
    if offset.negative {
        now - away
    } else {
        now + away
    }
}

/// The product of the factors, or 2^64 - 1 where it is larger.
fn seconds(factors: &[Number]) -> u64
    ensures { result ≡ min (product_of factors.now) (2 ^ 64 - 1) }
{
    let mut product = 1u64;
    for factor in factors {
        product = product.saturating_mul(factor.value);
    }
    product
}

/// A moment on its side of a clause, unless it is above `now`.
fn judge(side: Side, x: i128, now: u64) -> Result<i64, Refusal>
    requires moment { now < 2 ^ 62 }
    requires low { neg_ℤ (pos (2 ^ 80)) ≤ℤ x }
    ensures { result ≡ judged now (on_side side x) }
{
    let x = match side {
        Side::At => x,
        Side::Before => x - 1,
    };
    if x > i128::from(now) {
        Err(Refusal::InFuture)
    } else {
        Ok(x.max(-1) as i64)
    }
}
