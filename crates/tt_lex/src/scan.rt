//! What stands at the front of a text.

ghost use Rattle.std.specs.Prelude.{◌≡◌, ◌≢◌, ℕ, ◌+◌, ◌^◌, ◌<◌, ◌≤◌, List, [], ◌∷◌, ◌++◌, length, ◌==◌, IfSome, IfNone, IfOk, IfErr, IsTrue, MatchBool, codes};
ghost use Rattle.std.specs.List.{prefix_len};
ghost use Rattle.std.specs.Char.{is_ascii_digit};
ghost use Rattle.tt_lex.specs.Lexis.{is_white, is_word_start, is_word_part, is_line_byte, is_text_byte, is_sign, doubled, NotClosed, StopsAt, IsFault};
ghost use Rattle.tt_lex.specs.Scanning.{Takes, Closes, ClosesComment, BeginsNoOther};

use crate::{LexFault, TokenKind};

/// The longest quoted text, a doubled quote counted once.
const LONGEST_TEXT: usize = 65_535;

/// A token of a kind, or with no kind white space or a comment.
#[derive(Clone, Copy)]
pub struct Front {
    pub kind: Option<TokenKind>,
    /// In bytes.
    pub length: usize,
}

/// What stands between quotes.
#[derive(Clone, Copy)]
pub struct Inside {
    /// How many bytes it has as it is written, with doubled quotes.
    pub written: usize,
    /// How many bytes are meant.
    pub meant: usize,
}

/// Divides off the front of a text that does not end here, and of which `at` bytes are read.
pub fn front_of(rest: &[u8], at: u32) -> Result<Front, LexFault>
    requires some { 0 < length rest.now }
    requires fits { at + length rest.now < 2 ^ 32 }
    ensures piece { IfOk result (Takes rest.now) }
    ensures fault { IfErr result (λ fault. IsFault fault at rest.now) }
{
    let Some((first, more)) = rest.split_first() else {
        unreachable!()
    };
    let first = *first;
    if is_white(first) {
        let length = 1;
        return Ok(Front { kind: None, length });
    }
    if is_word_start(first) {
        let kind = Some(TokenKind::Word);
        let length = 1 + word_length(more);
        return Ok(Front { kind, length });
    }
    if first.is_ascii_digit() {
        let kind = Some(TokenKind::Number);
        let length = 1 + number_length(more);
        return Ok(Front { kind, length });
    }
    if first == b'\'' {
        return quoted_of(more, at);
    }
    if first == b'-'
        && let Some(body) = after(more, b'-')
    {
        let length = 2 + line_length(body);
        return Ok(Front { kind: None, length });
    }
    if first == b'/'
        && let Some(body) = after(more, b'*')
    {
        return comment_of(body, at);
    }
    sign_of(first, more, at)
}

fn is_white(byte: u8) -> bool
    ensures { result ≡ is_white byte }
{
    matches!(byte, b' ' | b'\t' | b'\r' | b'\n')
}

fn is_word_start(byte: u8) -> bool
    ensures { result ≡ is_word_start byte }
{
    byte.is_ascii_alphabetic() || byte == b'_'
}

fn is_word_part(byte: u8) -> bool
    ensures { result ≡ is_word_part byte }
{
    is_word_start(byte) || byte.is_ascii_digit() || byte == b'$'
}

fn is_text_byte(byte: u8) -> bool
    ensures { result ≡ is_text_byte byte }
{
    byte >= b' ' && byte != 127 && byte != b'\\'
}

/// What stands behind this byte, if the bytes begin with it.
fn after(bytes: &[u8], byte: u8) -> Option<&[u8]>
    ensures found { IfSome result (λ rest. bytes.now ≡ byte ∷ rest.now) }
    ensures none { IfNone result (StopsAt (λ b. b == byte) bytes.now) }
{
    match bytes.split_first() {
        Some((first, rest)) if *first == byte => Some(rest),
        _ => None,
    }
}

/// How many bytes at the front may stand in a word.
fn word_length(bytes: &[u8]) -> usize
    ensures { result ≡ prefix_len is_word_part bytes.now }
{
    for (i, byte) in bytes.iter().enumerate() {
        if !is_word_part(*byte) {
            return i;
        }
    }
    bytes.len()
}

/// How many digits stand at the front.
fn number_length(bytes: &[u8]) -> usize
    ensures { result ≡ prefix_len is_ascii_digit bytes.now }
{
    for (i, byte) in bytes.iter().enumerate() {
        if !byte.is_ascii_digit() {
            return i;
        }
    }
    bytes.len()
}

/// How many bytes stand in front of the line feed, or of the end.
fn line_length(bytes: &[u8]) -> usize
    ensures { result ≡ prefix_len is_line_byte bytes.now }
{
    for (i, byte) in bytes.iter().enumerate() {
        if *byte == b'\n' {
            return i;
        }
    }
    bytes.len()
}

/// How many bytes at the front may stand in a quoted text.
fn allowed_length(bytes: &[u8]) -> usize
    ensures { result ≡ prefix_len is_text_byte bytes.now }
{
    for (i, byte) in bytes.iter().enumerate() {
        if !is_text_byte(*byte) {
            return i;
        }
    }
    bytes.len()
}

/// A quoted text, whose opening quote stands in front of these bytes.
fn quoted_of(rest: &[u8], at: u32) -> Result<Front, LexFault>
    requires { at + 1 + length rest.now < 2 ^ 32 }
    ensures piece { IfOk result (Takes (39 ∷ rest.now)) }
    ensures fault { IfErr result (λ fault. IsFault fault at (39 ∷ rest.now)) }
{
    let Some(inside) = inside_of(rest) else {
        return Err(LexFault::UnclosedText(at));
    };
    if inside.meant > LONGEST_TEXT {
        return Err(LexFault::TextTooLong(at));
    }
    let text = &rest[..inside.written];
    let allowed = allowed_length(text);
    if allowed == text.len() {
        let length = inside.written + 2;
        return Ok(Front {
            kind: Some(TokenKind::Quoted),
            length,
        });
    }
    let place = at + 1 + allowed as u32;
    if text[allowed] == b'\\' {
        return Err(LexFault::BackslashInText(place));
    }
    Err(LexFault::BadByte(place))
}

/// What stands behind an opening quote and in front of its closing quote, if there is one.
fn inside_of(rest: &[u8]) -> Option<Inside>
    ensures found { IfSome result (Closes rest.now) }
    ensures none { IfNone result ((text : List ℕ) × (rest.now ≡ doubled text)) }
{
    let mut written = 0;
    let mut meant = 0;
    while written < rest.len() {
        if rest[written] == b'\'' {
            if written + 1 == rest.len() || rest[written + 1] != b'\'' {
                return Some(Inside { written, meant });
            }
            written += 1;
        }
        written += 1;
        meant += 1;
    }
    None
}

/// A comment, whose `/*` stands in front of these bytes.
fn comment_of(rest: &[u8], at: u32) -> Result<Front, LexFault>
    ensures piece { IfOk result (Takes (codes "/*" ++ rest.now)) }
    ensures fault { IfErr result (λ fault. IsFault fault at (codes "/*" ++ rest.now)) }
{
    match body_length(rest) {
        Some(body) => Ok(Front {
            kind: None,
            length: body + 4,
        }),
        None => Err(LexFault::UnclosedComment(at)),
    }
}

/// How many bytes stand in front of the first `*/`, if there is one.
fn body_length(rest: &[u8]) -> Option<usize>
    ensures found { IfSome result (ClosesComment rest.now) }
    ensures none { IfNone result (NotClosed rest.now) }
{
    for i in 1..rest.len() {
        if rest[i - 1] == b'*' && rest[i] == b'/' {
            return Some(i - 1);
        }
    }
    None
}

/// The longest sign, where nothing else can begin.
fn sign_of(first: u8, more: &[u8], at: u32) -> Result<Front, LexFault>
    requires { BeginsNoOther first more.now }
    ensures piece { IfOk result (Takes (first ∷ more.now)) }
    ensures fault { IfErr result (λ fault. IsFault fault at (first ∷ more.now)) }
{
    if begins_long_sign(first, more) {
        return Ok(Front {
            kind: Some(TokenKind::Sign),
            length: 2,
        });
    }
    if is_short_sign(first) {
        return Ok(Front {
            kind: Some(TokenKind::Sign),
            length: 1,
        });
    }
    Err(LexFault::BadByte(at))
}

/// Whether the two bytes at the front are a sign.
fn begins_long_sign(first: u8, more: &[u8]) -> bool
    ensures { MatchBool result
        ((second : ℕ) × (behind : List ℕ) × (more.now ≡ second ∷ behind) × IsTrue (is_sign (first ∷ second ∷ [])))
        (StopsAt (λ second. is_sign (first ∷ second ∷ [])) more.now) }
{
    match more.split_first() {
        Some((second, _)) => is_long_sign(first, *second),
        None => false,
    }
}

fn is_short_sign(byte: u8) -> bool
    ensures { result ≡ is_sign (byte ∷ []) }
{
    matches!(
        byte,
        b'(' | b')' | b',' | b'.' | b';' | b'*' | b'+' | b'-' | b'=' | b'<' | b'>'
    )
}

fn is_long_sign(first: u8, second: u8) -> bool
    ensures { result ≡ is_sign (first ∷ second ∷ []) }
{
    match first {
        b'<' => second == b'>' || second == b'=',
        b'!' | b'>' => second == b'=',
        b'=' => second == b'>',
        b':' => second == b':',
        _ => false,
    }
}
