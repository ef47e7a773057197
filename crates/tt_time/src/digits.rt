//! Numbers of a fixed length at the front of a text.

ghost use Rattle.std.specs.Prelude.{◌≡◌, ◌≢◌, ℕ, ◌+◌, ◌≤◌, List, ◌∷◌, ◌++◌, IfSome, IfNone};
ghost use Rattle.tt_value.specs.calendar.Calendar.{two_digits, four_digits};
ghost use Rattle.tt_time.specs.Readings.{BeginsWithDigit, BeginsWithNoDigit, BeginsWithTwoDigits, BeginsWithoutTwoDigits, BeginsWithFourDigits, BeginsWithoutFourDigits};

/// A digit, and what stands behind it.
pub fn digit_of(bytes: &[u8]) -> Option<(u8, &[u8])>
    ensures found { IfSome result (λ read. BeginsWithDigit bytes.now read.0 read.1.now) }
    ensures none { IfNone result (BeginsWithNoDigit bytes.now) }
{
    let (first, rest) = bytes.split_first()?;
    if first.is_ascii_digit() {
        Some((*first - b'0', rest))
    } else {
        None
    }
}

/// A number of two digits, and what stands behind it.
pub fn two_digits(bytes: &[u8]) -> Option<(u8, &[u8])>
    ensures found { IfSome result (λ read. BeginsWithTwoDigits bytes.now read.0 read.1.now) }
    ensures none { IfNone result (BeginsWithoutTwoDigits bytes.now) }
{
    let (tens, rest) = digit_of(bytes)?;
    let (ones, rest) = digit_of(rest)?;
    Some((10 * tens + ones, rest))
}

/// A number of four digits, and what stands behind it.
pub fn four_digits(bytes: &[u8]) -> Option<(u16, &[u8])>
    ensures found { IfSome result (λ read. BeginsWithFourDigits bytes.now read.0 read.1.now) }
    ensures none { IfNone result (BeginsWithoutFourDigits bytes.now) }
{
    let (high, rest) = two_digits(bytes)?;
    let (low, rest) = two_digits(rest)?;
    Some((100 * u16::from(high) + u16::from(low), rest))
}

/// What stands behind this byte, if the bytes begin with it.
pub fn after(bytes: &[u8], byte: u8) -> Option<&[u8]>
    ensures found { IfSome result (λ rest. bytes.now ≡ byte ∷ rest.now) }
    ensures none { IfNone result ((rest : List ℕ) → bytes.now ≢ byte ∷ rest) }
{
    match bytes.split_first() {
        Some((first, rest)) if *first == byte => Some(rest),
        _ => None,
    }
}
