//! Dates.

ghost use Rattle.std.specs.Prelude.{◌≡◌, ◌≢◌, ℕ, ◌+◌, ◌≤◌, List, ◌++◌, ℤ, IfSome, IfNone, IfOk, OnOk, OnErr, Ok};
ghost use Rattle.tt_value.specs.calendar.Calendar.{IsDay, date_of, day_text};
ghost use Rattle.tt_time.specs.Readings.{MeansDay, IsDayOf, HasNoDay, BeginsWithDay, BeginsWithNoDay};
ghost use Rattle.std.specs.Result.{result_ok};
ghost use Rattle.tt_value.specs.calendar.Reading.{day_of};

use crate::BadDate;
use crate::digits::{after, four_digits, two_digits};
use jiff::civil::Date;
use std::alloc::AllocError;

/// The day number of a date `YYYY-MM-DD`, 0 being 1970-01-01. Any other text is refused, and so is a day that
/// the years 1 to 9999 do not have.
#[tactic(auto, using(crate::proofs::Functions::day_value))]
pub fn read_date(text: &str) -> Result<i32, BadDate>
    ensures found { IfOk result (MeansDay text.now) }
    ensures only { (day : ℤ) → IsDay day → text.now ≡ day_text day → result ≡ Ok day }
    // So it is what the function on texts gives.
    ensures value { result_ok result ≡ day_of text.now }
{
    whole_date(text)
}

/// A date that is all of the text.
fn whole_date(text: &str) -> Result<i32, BadDate>
    ensures found { IfOk result (MeansDay text.now) }
    ensures only { (day : ℤ) → IsDay day → text.now ≡ day_text day → result ≡ Ok day }
{
    let Some((day, rest)) = date_at(text.as_bytes()) else {
        return Err(BadDate);
    };
    if rest.is_empty() {
        Ok(day)
    } else {
        Err(BadDate)
    }
}

/// Appends the ten bytes of a date.
pub fn write_date(day: i32, out: &mut Vec<u8>) -> Result<(), AllocError>
    requires { IsDay day }
    ensures ok { OnOk result (out.new.items ≡ out.old.items ++ day_text day) }
    ensures err { OnErr result (out.new.items ≡ out.old.items) }
{
    tt_value::write_date(day, out)
}

/// A date at the front of a text, and what stands behind it.
pub(crate) fn date_at(bytes: &[u8]) -> Option<(i32, &[u8])>
    ensures found { IfSome result (λ read. BeginsWithDay bytes.now read.0 read.1.now) }
    ensures none { IfNone result (BeginsWithNoDay bytes.now) }
{
    let (year, rest) = four_digits(bytes)?;
    let rest = after(rest, b'-')?;
    let (month, rest) = two_digits(rest)?;
    let rest = after(rest, b'-')?;
    let (day, rest) = two_digits(rest)?;
    let number = day_number(year, month, day)?;
    Some((number, rest))
}

/// The day number of a date, if the calendar has it.
fn day_number(year: u16, month: u8, day: u8) -> Option<i32>
    requires year_in { year ≤ 9999 }
    requires month_in { month ≤ 99 }
    requires day_in { day ≤ 99 }
    ensures found { IfSome result (IsDayOf (record { year = year; month = month; day = day })) }
    ensures none { IfNone result (HasNoDay (record { year = year; month = month; day = day })) }
{
    if year == 0 {
        return None;
    }
    match Date::new(year as i16, month as i8, day as i8) {
        Ok(date) => Some(date.to_plain().to_unix_epoch_day()),
        Err(_) => None,
    }
}
