//! Query ids, and the points of the statements that they name.
ghost use Rattle.std.specs.Prelude.{◌≡◌, ◌≢◌, ℕ, ◌<◌, ◌≤◌, ◌^◌, ◌++◌, List, codes, decimal, Option, option_and_then, slice_get, IfSome, IfNone};
ghost use Rattle.std.specs.List.{position};
ghost use Rattle.std.specs.Str.{bytes_eq};
ghost use Rattle.tt_plain.specs.stored.Points.{ids_of, query_ids};
ghost use Rattle.tt_travel.specs.Travel.{end_of, point_named};

use tt_history::Refusal;
use tt_script::{Program, SessionText};

/// The point of the statement whose query id the text is.
pub(crate) fn ended_at(id: &[u8], points: &[Option<u64>], program: &Program) -> Result<u64, Refusal>
    ensures { result ≡ end_of (point_named program.now points.now id.now) }
{
    match standing(id, points, program) {
        None | Some(None) => Err(Refusal::UnknownStatement),
        Some(Some(u64::MAX)) => Err(Refusal::StatementOpen),
        Some(Some(point)) => Ok(point),
    }
}

/// What stands for the statement whose query id the text is, if there is one.
fn standing(id: &[u8], points: &[Option<u64>], program: &Program) -> Option<Option<u64>>
    ensures { result ≡ point_named program.now points.now id.now }
{
    let mut left = points;
    for lines in program.script().sessions.items() {
        if let Some(place) = place_in(id, lines) {
            return left.get(place).copied();
        }
        left = left.split_at(lines.statements.len().min(left.len())).1;
    }
    None
}

/// Where the text stands among the query ids of a session's statements.
fn place_in(id: &[u8], lines: &SessionText) -> Option<usize>
    ensures { result ≡ position (λ text. bytes_eq text id.now) (ids_of lines.now) }
{
    let count = lines.statements.len();
    let number = behind_name(id, lines.name.as_str().as_bytes())?;
    let index = number_of(number)?;
    if index <= count {
        Some(index - 1)
    } else {
        None
    }
}

/// What stands behind the name and a dash, if the text begins with them.
fn behind_name<'a>(text: &'a [u8], name: &[u8]) -> Option<&'a [u8]>
    ensures parts { IfSome result (λ rest. name.now ++ codes "-" ++ rest.now ≡ text.now) }
    ensures none { IfNone result ((rest : List ℕ) → name.now ++ codes "-" ++ rest ≢ text.now) }
{
    text.strip_prefix(name)?.strip_prefix(b"-")
}

/// The number from 1 on that is written so.
fn number_of(digits: &[u8]) -> Option<usize>
    ensures written { IfSome result (λ n. decimal n ≡ digits.now) }
    ensures some { IfSome result (λ n. 1 ≤ n) }
    ensures fits { IfSome result (λ n. n < 2 ^ 64) }
    ensures none { IfNone result ((n : ℕ) → 1 ≤ n → n < 2 ^ 64 → decimal n ≢ digits.now) }
{
    let Some(first) = digits.first() else {
        return None;
    };
    if *first == b'0' || *first == b'+' {
        return None;
    }
    match str::from_utf8(digits) {
        Ok(text) => text.parse().ok(),
        Err(_) => None,
    }
}
