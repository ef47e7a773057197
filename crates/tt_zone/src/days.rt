//! The day that a text in quotes is, where a date is wanted.

ghost use Rattle.std.specs.Prelude.{◌≡◌, ◌≤◌, if◌then◌else◌, length, None, Some};
ghost use Rattle.std.specs.List.{list_all};
ghost use Rattle.std.specs.Char.{is_ascii_digit};
ghost use Rattle.tt_value.specs.calendar.Reading.{day_of, digits_value};
ghost use Rattle.tt_zone.specs.Days.{day_of_parts, has_date_signs};

use jiff_core::civil::Date;

/// The number that these digits are, at most four; none where a byte is no digit.
fn number_in(digits: &[u8]) -> Option<u16>
    requires { length digits.now ≤ 4 }
    ensures { result
        ≡ (if list_all is_ascii_digit digits.now then Some (digits_value digits.now) else None) }
{
    let mut number: u16 = 0;
    for digit in digits {
        if !digit.is_ascii_digit() {
            return None;
        }
        number = 10 * number + u16::from(*digit - b'0');
    }
    Some(number)
}

/// The day number of a date, 0 being 1970-01-01; none where the years 1 to 9999 do not have it.
fn day_of_date(year: u16, month: u16, day: u16) -> Option<i32>
    ensures { result ≡ day_of_parts year month day }
{
    if year == 0 || year > 9999 || month > 12 || day > 31 {
        return None;
    }
    match Date::new(year as i16, month as i8, day as i8) {
        Ok(date) => Some(date.to_unix_epoch_day()),
        Err(_) => None,
    }
}

/// Whether a text is as long as a date and has its two signs.
fn has_signs(text: &[u8]) -> bool
    ensures { result ≡ has_date_signs text.now }
{
    text.len() == 10 && text[4] == b'-' && text[7] == b'-'
}

/// The day number of a text `YYYY-MM-DD`; none for any other text, and for a day that the years 1 to 9999 do
/// not have.
pub fn day_in(text: &[u8]) -> Option<i32>
    ensures { result ≡ day_of text.now }
{
    if !has_signs(text) {
        return None;
    }
    let year = number_in(&text[..4])?;
    let month = number_in(&text[5..7])?;
    let day = number_in(&text[8..10])?;
    day_of_date(year, month, day)
}
