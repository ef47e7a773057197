//! Laws of the calendar. They compute nothing.

ghost use Rattle.std.specs.Prelude.{◌≡◌, ℕ, List, ℤ, pos, Some, ◌↔◌};
ghost use Rattle.tt_value.specs.calendar.Calendar.{CivilDate, IsCivil, IsDay, date_of, day_text, Timestamp, IsTimestamp, timestamp_text, moment_of};
ghost use Rattle.tt_value.specs.calendar.Reading.{day_of, timestamp_of};
ghost use Rattle.tt_time.specs.Readings.{IsDayOf, MeansDay, MeansMoment};

/// Day 0 is 1970-01-01. Each day is a date of the years 1 to 9999, each such date is a day's, and no two days
/// have the same date or are written alike.
pub fn days_are_dates()
    ensures zero { date_of (pos 0) ≡ record { year = 1970; month = 1; day = 1 } }
    ensures date { (day : ℤ) → IsDay day → IsCivil (date_of day) }
    ensures day { (date : CivilDate) → IsCivil date → (day : ℤ) × IsDayOf date day }
    ensures one { (a b : ℤ) → IsDay a → IsDay b → date_of a ≡ date_of b → a ≡ b }
    ensures text { (a b : ℤ) → IsDay a → IsDay b → day_text a ≡ day_text b → a ≡ b }
{}

/// The functions that contracts cite give a text just the day, and just the moment, whose text it is.
pub fn texts_mean_days_and_moments()
    ensures day { (text : _) (day : _) → (day_of text ≡ Some day) ↔ MeansDay text day }
    ensures moment { (text : _) (m : _) → (timestamp_of text ≡ Some m) ↔ MeansMoment text m }
{}
