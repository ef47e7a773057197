//! Timestamps.

ghost use Rattle.std.specs.Prelude.{◌≡◌, ◌≢◌, ℕ, ◌+◌, ◌*◌, ◌<◌, ◌≤◌, List, ◌++◌, IfSome, IfNone, IfOk, Ok};
ghost use Rattle.tt_value.specs.calendar.Calendar.{Timestamp, IsTimestamp, timestamp_text, moment_of, Clock, IsClock, clock_text, seconds_of};
ghost use Rattle.tt_time.specs.Readings.{MeansMoment, IfTimestamp, IsNoTimestamp, BeginsWithClock, BeginsWithNoClock};
ghost use Rattle.tt_time.specs.Tails.{first_digit_at, second_digit_at, third_digit_at, zone_at, tail_at};
ghost use Rattle.std.specs.Result.{result_ok};
ghost use Rattle.tt_value.specs.calendar.Reading.{timestamp_of};

use crate::BadTimestamp;
use crate::dates::date_at;
use crate::digits::{after, digit_of, two_digits};

const LAST_HOUR: u8 = 23;

const LAST_MINUTE: u8 = 59;

const LAST_SECOND: u8 = 59;

/// The milliseconds from the beginning of 1970-01-01 to a timestamp: a date, a space or `T`, `HH:MM:SS`,
/// optionally `.` and 1 to 3 digits, and optionally `Z`. Any other text is refused.
#[tactic(auto, using(crate::proofs::Functions::moment_value))]
pub fn read_timestamp(text: &str) -> Result<i64, BadTimestamp>
    ensures found { IfOk result (MeansMoment text.now) }
    ensures only { IfTimestamp text.now (λ t. result ≡ Ok (moment_of t)) }
    // So it is what the function on texts gives.
    ensures value { result_ok result ≡ timestamp_of text.now }
{
    whole_timestamp(text)
}

/// A timestamp that is all of the text.
fn whole_timestamp(text: &str) -> Result<i64, BadTimestamp>
    ensures found { IfOk result (MeansMoment text.now) }
    ensures only { IfTimestamp text.now (λ t. result ≡ Ok (moment_of t)) }
{
    match moment_at(text.as_bytes()) {
        Some(moment) => Ok(moment),
        None => Err(BadTimestamp),
    }
}

fn moment_at(bytes: &[u8]) -> Option<i64>
    ensures found { IfSome result (MeansMoment bytes.now) }
    ensures none { IfNone result (IsNoTimestamp bytes.now) }
{
    let (day, rest) = date_at(bytes)?;
    let (between, rest) = rest.split_first()?;
    if *between != b' ' && *between != b'T' {
        return None;
    }
    let (seconds, rest) = clock_at(rest)?;
    let milliseconds = tail_of(rest)?;
    let of_day = (1000 * seconds + milliseconds) as i64;
    Some(day as i64 * 86_400_000 + of_day)
}

/// A time of day at the front of a text, in seconds, and what stands behind it.
fn clock_at(bytes: &[u8]) -> Option<(u32, &[u8])>
    ensures found { IfSome result (λ read. BeginsWithClock bytes.now read.0 read.1.now) }
    ensures none { IfNone result (BeginsWithNoClock bytes.now) }
{
    let (hour, rest) = two_digits(bytes)?;
    let rest = after(rest, b':')?;
    let (minute, rest) = two_digits(rest)?;
    let rest = after(rest, b':')?;
    let (second, rest) = two_digits(rest)?;
    if hour > LAST_HOUR || minute > LAST_MINUTE || second > LAST_SECOND {
        return None;
    }
    let seconds = 60 * (60 * hour as u32 + minute as u32) + second as u32;
    Some((seconds, rest))
}

/// The milliseconds of a fraction, if there is one, and then `Z` or nothing.
fn tail_of(bytes: &[u8]) -> Option<u32>
    ensures value { result ≡ tail_at bytes.now }
    ensures bound { IfSome result (λ n. n ≤ 999) }
{
    match after(bytes, b'.') {
        Some(rest) => first_digit(rest),
        None => zone(bytes, 0),
    }
}

fn first_digit(bytes: &[u8]) -> Option<u32>
    ensures value { result ≡ first_digit_at bytes.now }
    ensures bound { IfSome result (λ n. n ≤ 999) }
{
    let (digit, rest) = digit_of(bytes)?;
    second_digit(rest, 100 * digit as u32)
}

fn second_digit(bytes: &[u8], read: u32) -> Option<u32>
    requires { read ≤ 900 }
    ensures value { result ≡ second_digit_at bytes.now read }
    ensures bound { IfSome result (λ n. n ≤ 999) }
{
    match digit_of(bytes) {
        Some((digit, rest)) => third_digit(rest, read + 10 * digit as u32),
        None => zone(bytes, read),
    }
}

fn third_digit(bytes: &[u8], read: u32) -> Option<u32>
    requires { read ≤ 990 }
    ensures value { result ≡ third_digit_at bytes.now read }
    ensures bound { IfSome result (λ n. n ≤ 999) }
{
    match digit_of(bytes) {
        Some((digit, rest)) => zone(rest, read + digit as u32),
        None => zone(bytes, read),
    }
}

/// What was read, if `Z` or nothing follows.
fn zone(bytes: &[u8], read: u32) -> Option<u32>
    ensures value { result ≡ zone_at bytes.now read }
    ensures same { IfSome result (λ n. n ≡ read) }
{
    let rest = after(bytes, b'Z').unwrap_or(bytes);
    if rest.is_empty() { Some(read) } else { None }
}
