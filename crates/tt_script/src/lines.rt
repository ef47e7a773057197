//! The lines of a script and its directives.

ghost use Rattle.std.specs.Prelude.{◌≡◌, ℕ, ◌+◌, ◌<◌, ◌≤◌, ◌∷◌, ◌++◌, [], ◌&&◌, ◌||◌, true, false, is_some, length, min, nat_le, slice_index, IfSome, IfNone};
ghost use Rattle.std.specs.Option.{option_copied, option_map};
ghost use Rattle.std.specs.List.{list_all, position, position_or_len};
ghost use Rattle.std.specs.Str.{is_utf8};
ghost use Rattle.tt_script.specs.Bytes.{is_white, is_line_feed, is_lower, is_digit, is_session_byte};
ghost use Rattle.tt_script.specs.Lines.{lines_of, without_last, said, line_place, is_directive, only_if, decimal_value, is_start, start_on, is_session_name, session_on, begins_session, may_stand, is_faulty, first_faulty};
ghost use Rattle.tt_script.specs.Script.{start_in, session_in};

/// The last moment that there is, in milliseconds.
const LAST_MOMENT: u64 = 253_402_300_799_999;

/// The most digits of a number.
const MOST_DIGITS: usize = 15;

/// The most bytes that a session's name may have.
const LONGEST_SESSION_NAME: usize = 16;

pub(crate) fn is_white(byte: u8) -> bool
    ensures { result ≡ is_white byte }
{
    byte == b' ' || byte == b'\t' || byte == b'\r' || byte == b'\n'
}

fn is_lower(byte: u8) -> bool
    ensures { result ≡ is_lower byte }
{
    byte.is_ascii_lowercase()
}

fn is_digit(byte: u8) -> bool
    ensures { result ≡ is_digit byte }
{
    byte.is_ascii_digit()
}

fn is_session_byte(byte: u8) -> bool
    ensures { result ≡ is_session_byte byte }
{
    is_lower(byte) || is_digit(byte)
}

fn first_line_feed(bytes: &[u8]) -> Option<usize>
    ensures place { result ≡ position is_line_feed bytes.now }
    ensures within { IfSome result (λ place. place < length bytes.now) }
{
    bytes.iter().position(|byte| *byte == b'\n')
}

/// How many bytes the first line has, with its line feed.
fn line_length(bytes: &[u8]) -> usize
    ensures { result ≡ min (length bytes.now) (position_or_len is_line_feed bytes.now + 1) }
{
    match first_line_feed(bytes) {
        Some(place) => place + 1,
        None => bytes.len(),
    }
}

/// The first line, with its line feed, and what stands behind it.
pub(crate) fn split_line(bytes: &[u8]) -> Option<(&[u8], &[u8])>
    ensures none { IfNone result (bytes.now ≡ []) }
    ensures parts { IfSome result (λ p. bytes.now ≡ p.0.now ++ p.1.now) }
    ensures line { IfSome result (λ p. lines_of bytes.now ≡ p.0.now ∷ lines_of p.1.now) }
    ensures some { IfSome result (λ p. 0 < length p.0.now) }
{
    if bytes.is_empty() {
        return None;
    }
    Some(bytes.split_at(line_length(bytes)))
}

/// The bytes without this one at their end.
fn without_last(byte: u8, bytes: &[u8]) -> &[u8]
    ensures { result.now ≡ without_last byte bytes.now }
{
    match bytes.split_last() {
        Some((last, front)) if *last == byte => front,
        _ => bytes,
    }
}

/// What a directive's line says.
fn said(line: &[u8]) -> &[u8]
    ensures { result.now ≡ said line.now }
{
    without_last(b'\r', without_last(b'\n', line))
}

fn is_directive(line: &[u8]) -> bool
    ensures { result ≡ is_directive line.now }
{
    match line.first() {
        Some(byte) => *byte == b'%',
        None => false,
    }
}

fn is_all_white(line: &[u8]) -> bool
    ensures { result ≡ list_all is_white line.now }
{
    line.iter().all(|byte| is_white(*byte))
}

fn is_utf8(line: &[u8]) -> bool
    ensures { result ≡ is_utf8 line.now }
{
    str::from_utf8(line).is_ok()
}

/// The number that digits stand for, if it is a moment.
fn moment_of(digits: &[u8]) -> Option<u64>
    ensures { result
        ≡ only_if (list_all is_digit digits.now && nat_le (decimal_value digits.now) 253402300799999) (decimal_value digits.now) }
{
    let mut value = 0u64;
    for digit in digits {
        if !is_digit(*digit) || value > LAST_MOMENT / 10 {
            return None;
        }
        value = 10 * value + u64::from(*digit - b'0');
    }
    (value <= LAST_MOMENT).then_some(value)
}

#[tactic(auto, unfolding(crate::specs::Lines::is_start))]
fn start_of(digits: &[u8]) -> Option<u64>
    ensures { result ≡ only_if (is_start digits.now) (decimal_value digits.now) }
{
    if digits.is_empty() || digits.len() > MOST_DIGITS {
        return None;
    }
    moment_of(digits)
}

/// The moment on the line `%start n`.
#[tactic(auto, unfolding(crate::specs::Lines::start_on))]
fn start_on(text: &[u8]) -> Option<u64>
    ensures { result ≡ start_on text.now }
{
    start_of(text.strip_prefix(b"%start ")?)
}

fn begins_session_name(name: &[u8]) -> bool
    ensures { result ≡ is_lower (slice_index name.now 0) }
{
    match name.first() {
        Some(byte) => is_lower(*byte),
        None => false,
    }
}

fn has_session_bytes(name: &[u8]) -> bool
    ensures { result ≡ list_all is_session_byte name.now }
{
    name.iter().all(|byte| is_session_byte(*byte))
}

#[tactic(auto, unfolding(crate::specs::Lines::is_session_name))]
fn is_session_name(name: &[u8]) -> bool
    ensures { result ≡ is_session_name name.now }
{
    begins_session_name(name) && has_session_bytes(name) && name.len() <= LONGEST_SESSION_NAME
}

/// The name on the line `%session name`.
#[tactic(auto, unfolding(crate::specs::Lines::session_on))]
fn session_on(text: &[u8]) -> Option<&[u8]>
    ensures { option_copied result ≡ session_on text.now }
{
    let name = text.strip_prefix(b"%session ")?;
    is_session_name(name).then_some(name)
}

fn begins_session(line: &[u8]) -> bool
    ensures { result ≡ begins_session line.now }
{
    session_on(said(line)).is_some()
}

/// Whether a directive may stand at this place, where a session has begun above it or not.
fn may_stand(begun: bool, at: usize, line: &[u8]) -> bool
    ensures { result ≡ may_stand begun at line.now }
{
    (at == 0 && start_on(said(line)).is_some()) || (!begun && begins_session(line))
}

#[tactic(auto, unfolding(crate::specs::Lines::is_faulty))]
fn is_faulty(begun: bool, at: usize, line: &[u8]) -> bool
    ensures { result ≡ is_faulty begun at line.now }
{
    if !is_utf8(line) {
        return true;
    }
    if is_directive(line) {
        !may_stand(begun, at, line)
    } else {
        !(begun || is_all_white(line))
    }
}

/// Whether a session has begun above the next line.
fn has_begun(begun: bool, line: &[u8]) -> bool
    ensures { result ≡ (begun || begins_session line.now) }
{
    begun || begins_session(line)
}

/// Where the first faulty line begins, the limit on statements aside.
pub(crate) fn first_faulty(bytes: &[u8]) -> Option<usize>
    ensures place { result ≡ first_faulty false 0 (lines_of bytes.now) }
    ensures within { IfSome result (λ place. place ≤ length bytes.now) }
{
    let mut begun = false;
    let mut at = 0;
    let mut rest = bytes;
    while let Some((line, behind)) = split_line(rest) {
        if is_faulty(begun, at, line) {
            return Some(at);
        }
        begun = has_begun(begun, line);
        at += line.len();
        rest = behind;
    }
    None
}

/// The moment on the first line, and else 0.
pub(crate) fn start_in(bytes: &[u8]) -> u64
    ensures { result ≡ start_in (lines_of bytes.now) }
{
    match split_line(bytes) {
        Some((line, _)) => start_on(said(line)).unwrap_or(0),
        None => 0,
    }
}

/// The name of the first session, and where its body begins.
pub(crate) fn session_in(text: &[u8]) -> Option<(&[u8], usize)>
    ensures found { option_map (λ s. (s.0.now, s.1)) result ≡ session_in 0 (lines_of text.now) }
    ensures named { IfSome result (λ s. is_session_name s.0.now ≡ true) }
    ensures within { IfSome result (λ s. s.1 ≤ length text.now) }
{
    let mut at = 0;
    let mut rest = text;
    while let Some((line, behind)) = split_line(rest) {
        at += line.len();
        rest = behind;
        if let Some(name) = session_on(said(line)) {
            return Some((name, at));
        }
    }
    None
}

/// Where the line begins in which this place is.
pub(crate) fn line_place(text: &[u8], place: usize) -> usize
    ensures { result ≡ line_place 0 (lines_of text.now) place }
{
    let mut at = 0;
    let mut rest = text;
    while let Some((line, behind)) = split_line(rest) {
        if place < at + line.len() {
            return at;
        }
        at += line.len();
        rest = behind;
    }
    at
}
