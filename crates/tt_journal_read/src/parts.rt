//! Parts of a line: fields, words and numbers.

ghost use Rattle.std.specs.Prelude.{◌≡◌, ◌<◌, ◌≤◌, ◌==◌, IfSome, length, option_map};
ghost use Rattle.std.specs.List.{position};
ghost use Rattle.std.specs.Option.{option_copied};
ghost use Rattle.tt_script.specs.Bytes.{is_digit as is_digit_byte};
ghost use Rattle.tt_journal_read.specs.steps.Reading.{begins_number, behind_of, cut_of, is_word, number_up_to, parted, signed_number, value_up_to};

fn first_mark(mark: u8, bytes: &[u8]) -> Option<usize>
    ensures place { result ≡ position (λ byte. byte == mark) bytes.now }
    ensures within { IfSome result (λ place. place < length bytes.now) }
{
    bytes.iter().position(|byte| *byte == mark)
}

/// What stands in front of the first mark, and behind it, if there is one.
pub fn cut(mark: u8, bytes: &[u8]) -> (&[u8], Option<&[u8]>)
    ensures front { result.0.now ≡ (cut_of mark bytes.now).0 }
    ensures behind { option_copied result.1 ≡ (cut_of mark bytes.now).1 }
    ensures shorter { IfSome result.1 (λ rest. length rest.now < length bytes.now) }
{
    match first_mark(mark, bytes) {
        Some(place) => {
            let (front, _) = bytes.split_at(place);
            let (_, behind) = bytes.split_at(place + 1);
            (front, Some(behind))
        }
        None => (bytes, None),
    }
}

/// Both sides of the first mark.
pub fn parted(mark: u8, bytes: &[u8]) -> Option<(&[u8], &[u8])>
    ensures { option_map (λ p. (p.0.now, p.1.now)) result ≡ parted mark bytes.now }
{
    let (front, behind) = cut(mark, bytes);
    match behind {
        Some(behind) => Some((front, behind)),
        None => None,
    }
}

/// What stands behind a sign in front.
pub fn behind(sign: u8, bytes: &[u8]) -> Option<&[u8]>
    ensures { option_copied result ≡ behind_of sign bytes.now }
{
    match bytes.split_first() {
        Some((first, rest)) if *first == sign => Some(rest),
        _ => None,
    }
}

pub fn is_word(word: &[u8], wanted: &[u8]) -> bool
    ensures { result ≡ is_word word.now wanted.now }
{
    word == wanted
}

fn is_digit(byte: u8) -> bool
    ensures { result ≡ is_digit_byte byte }
{
    byte.is_ascii_digit()
}

/// The value of digits, if it is at most this.
fn value_up_to(most: u64, digits: &[u8]) -> Option<u64>
    ensures value { result ≡ value_up_to most digits.now }
    ensures within { IfSome result (λ value. value ≤ most) }
{
    let mut value = 0u64;
    for digit in digits {
        if !is_digit(*digit) || value > most / 10 {
            return None;
        }
        value = (10 * value).checked_add(u64::from(*digit - b'0'))?;
    }
    (value <= most).then_some(value)
}

fn begins_number(digits: &[u8]) -> bool
    ensures { result ≡ begins_number digits.now }
{
    !digits.is_empty() && !(digits[0] == b'0' && digits.len() > 1)
}

/// The number that these digits write without a zero in front, if it is at most this.
#[tactic(auto, unfolding(crate::specs::steps::Reading::number_up_to))]
pub fn number_up_to(most: u64, digits: &[u8]) -> Option<u64>
    ensures value { result ≡ number_up_to most digits.now }
    ensures within { IfSome result (λ number. number ≤ most) }
{
    if begins_number(digits) {
        value_up_to(most, digits)
    } else {
        None
    }
}

/// A number behind a sign.
pub fn signed_number(sign: u8, bytes: &[u8]) -> Option<u64>
    ensures { result ≡ signed_number sign bytes.now }
{
    number_up_to(u64::MAX, behind(sign, bytes)?)
}

/// A number of 32 bits.
pub fn short_number(digits: &[u8]) -> Option<u32>
    ensures { result ≡ number_up_to 4294967295 digits.now }
{
    let number = number_up_to(u64::from(u32::MAX), digits)?;
    Some(number as u32)
}

/// A number of 8 bits.
pub fn byte_number(digits: &[u8]) -> Option<u8>
    ensures { result ≡ number_up_to 255 digits.now }
{
    let number = number_up_to(u64::from(u8::MAX), digits)?;
    Some(number as u8)
}
