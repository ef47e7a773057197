//! How dates are written.

ghost use Rattle.std.specs.Prelude.{◌≡◌, ◌≤◌, ◌++◌, OnOk, OnErr};
ghost use Rattle.tt_value.specs.calendar.Calendar.{IsDay, date_of, date_text, day_text};

use jiff_core::civil;
use std::alloc::AllocError;

/// Appends the ten bytes `YYYY-MM-DD` of a day number, 0 being 1970-01-01.
pub fn write_date(day: i32, out: &mut Vec<u8>) -> Result<(), AllocError>
    requires { IsDay day }
    ensures ok { OnOk result (out.new.items ≡ out.old.items ++ day_text day) }
    ensures err { OnErr result (out.new.items ≡ out.old.items) }
{
    let (year, month, day) = date_parts(day);
    out.extend_from_slice(&date_bytes(year, month, day))
}

/// The year, the month and the day of a day number.
fn date_parts(day: i32) -> (u16, u8, u8)
    requires { IsDay day }
    ensures value { date_of day ≡ record { year = result.0; month = result.1; day = result.2 } }
    ensures year { result.0 ≤ 9999 }
    ensures month { result.1 ≤ 12 }
    ensures day { result.2 ≤ 31 }
{
    match civil::Date::from_unix_epoch_day(i64::from(day)) {
        Ok(date) => (date.year as u16, date.month, date.day),
        Err(_) => unreachable!(),
    }
}

/// The bytes `YYYY-MM-DD`.
fn date_bytes(year: u16, month: u8, day: u8) -> [u8; 10]
    requires year_in { year ≤ 9999 }
    requires month_in { month ≤ 99 }
    requires day_in { day ≤ 99 }
    ensures { result ≡ date_text (record { year = year; month = month; day = day }) }
{
    let high = (year / 100) as u8;
    let low = (year % 100) as u8;
    [
        b'0' + high / 10,
        b'0' + high % 10,
        b'0' + low / 10,
        b'0' + low % 10,
        b'-',
        b'0' + month / 10,
        b'0' + month % 10,
        b'-',
        b'0' + day / 10,
        b'0' + day % 10,
    ]
}
