//! The words of the command line.

ghost use Rattle.std.specs.Prelude.{◌≡◌, ◌≤◌, ◌&&◌, nat_le, map, string_bytes, IfSome};
ghost use Rattle.std.specs.List.{list_all};
ghost use Rattle.tt_script.specs.Bytes.{is_digit as is_digit_byte};
ghost use Rattle.tt_script.specs.Lines.{only_if, decimal_value};
ghost use Rattle.tt_run.specs.Words.{rows_said, rows_joined, rows_parted, rows_behind, rows_asked, partition_rows_of};

/// The most rows of a partition that may be asked for.
const MOST_ROWS: u32 = 65_536;

/// The most digits of their number.
const MOST_DIGITS: usize = 5;

/// The rows of a partition where no word asks for another number.
const USUAL_ROWS: u32 = 4_096;

fn is_digit(byte: u8) -> bool
    ensures { result ≡ is_digit_byte byte }
{
    byte.is_ascii_digit()
}

// The number that digits stand for, if it is not too large.
fn small_number(digits: &[u8]) -> Option<u32>
    ensures { result
        ≡ only_if (list_all is_digit_byte digits.now && nat_le (decimal_value digits.now) 65536) (decimal_value digits.now) }
{
    let mut value = 0u32;
    for digit in digits {
        if !is_digit(*digit) || value > MOST_ROWS / 10 {
            return None;
        }
        value = 10 * value + u32::from(*digit - b'0');
    }
    (value <= MOST_ROWS).then_some(value)
}

#[tactic(auto, unfolding(crate::specs::Words::rows_said))]
fn rows_said(digits: &[u8]) -> Option<u32>
    ensures { result ≡ rows_said digits.now }
{
    if digits.is_empty() || digits.len() > MOST_DIGITS {
        return None;
    }
    let rows = small_number(digits)?;
    (rows > 0).then_some(rows)
}

// The number behind the option and its sign.
fn joined_rows(word: &[u8]) -> Option<u32>
    ensures { result ≡ rows_joined word.now }
{
    rows_said(word.strip_prefix(b"--partition-rows=")?)
}

// The number that is the next word behind the option.
fn parted_rows(word: &str, number: &str) -> Option<u32>
    ensures { result ≡ rows_parted word.now number.now }
{
    if word == "--partition-rows" {
        rows_said(number.as_bytes())
    } else {
        None
    }
}

fn rows_behind(word: &str, numbers: &[String]) -> Option<u32>
    ensures { result ≡ rows_behind word.now (map string_bytes numbers.now) }
{
    match numbers {
        [] => joined_rows(word.as_bytes()),
        [number] => parted_rows(word, number.as_str()),
        _ => None,
    }
}

// The rows that the words behind `replay` ask for.
fn rows_asked(words: &[String]) -> Option<u32>
    ensures { result ≡ rows_asked (map string_bytes words.now) }
{
    match words.split_first() {
        Some((word, numbers)) => rows_behind(word.as_str(), numbers),
        None => Some(USUAL_ROWS),
    }
}

/// The rows of a partition, if the words are `replay` and behind it at most once `--partition-rows`, with
/// their number joined by `=` or as the next word.
pub fn partition_rows(words: &[String]) -> Option<u32>
    ensures rows { result ≡ partition_rows_of (map string_bytes words.now) }
    ensures within { IfSome result (λ rows. (1 ≤ rows) × (rows ≤ 65536)) }
{
    match words.split_first() {
        Some((word, words)) if word.as_str() == "replay" => rows_asked(words),
        _ => None,
    }
}
