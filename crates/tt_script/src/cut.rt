//! How a session's body is cut into statements.

ghost use Rattle.std.specs.Prelude.{◌≡◌, ℕ, ◌+◌, ◌<◌, ◌≤◌, ◌^◌, ◌++◌, not, length, take, drop, slice_index, IfSome, IfNone, IfOk, OnOk};
ghost use Rattle.std.specs.List.{prefix_len, position_or_len, slice_split};
ghost use Rattle.tt_script.specs.Body.{kind_at, inside_after, kinds_in, is_cut, is_gap, part_span, statements_in, begins_comment};
ghost use Rattle.tt_script.specs.Bytes.{StandsBehind};
ghost use Rattle.tt_script.specs.declared.cut.Inside.TheVariants.{Nothing};

use crate::lines::is_white;
use std::alloc::{AllocError, Global};

/// The most statements that a script may have.
pub const MOST_STATEMENTS: usize = 100_000;

/// What a byte of a body is: white space or part of a comment; a semicolon that cuts; or anything else.
#[derive(Clone, Copy)]
pub enum ByteKind {
    Gap,
    Cut,
    Solid,
}

/// What a byte of a body is inside of. The star is that of `/*` in `OpeningStar`, and in `Star` one that may close
/// the comment.
#[derive(Clone, Copy)]
pub enum Inside {
    Nothing,
    QuotedText,
    LineComment,
    OpeningStar,
    BlockComment,
    Star,
}

fn begins_comment(byte: u8, next: u8) -> bool
    ensures { result ≡ begins_comment byte next }
{
    (byte == b'-' && next == b'-') || (byte == b'/' && next == b'*')
}

fn is_cut(kind: ByteKind) -> bool
    ensures { result ≡ is_cut kind }
{
    matches!(kind, ByteKind::Cut)
}

fn is_gap(kind: ByteKind) -> bool
    ensures { result ≡ is_gap kind }
{
    matches!(kind, ByteKind::Gap)
}

fn kind_at(inside: Inside, byte: u8, next: u8) -> ByteKind
    ensures { result ≡ kind_at inside byte next }
{
    match inside {
        Inside::Nothing => {
            if byte == b';' {
                ByteKind::Cut
            } else if is_white(byte) || begins_comment(byte, next) {
                ByteKind::Gap
            } else {
                ByteKind::Solid
            }
        }
        Inside::QuotedText => ByteKind::Solid,
        Inside::LineComment | Inside::OpeningStar | Inside::BlockComment | Inside::Star =>
            ByteKind::Gap,
    }
}

fn inside_after(inside: Inside, byte: u8, next: u8) -> Inside
    ensures { result ≡ inside_after inside byte next }
{
    match (inside, byte) {
        (Inside::Nothing, b'\'') => Inside::QuotedText,
        (Inside::Nothing, b'-') if next == b'-' => Inside::LineComment,
        (Inside::Nothing, b'/') if next == b'*' => Inside::OpeningStar,
        (Inside::QuotedText, b'\'') | (Inside::LineComment, b'\n') | (Inside::Star, b'/') => {
            Inside::Nothing
        }
        (Inside::BlockComment | Inside::Star, b'*') => Inside::Star,
        (Inside::OpeningStar | Inside::Star, _) => Inside::BlockComment,
        _ => inside,
    }
}

/// The byte at a place, and 0 at the end.
fn byte_at(bytes: &[u8], place: usize) -> u8
    ensures { result ≡ slice_index bytes.now place }
{
    match bytes.get(place) {
        Some(byte) => *byte,
        None => 0,
    }
}

/// How many bytes stand in front of the first semicolon that cuts, or of the end.
fn part_length(body: &[u8]) -> usize
    ensures value { result ≡ position_or_len is_cut (kinds_in Nothing body.now) }
    ensures within { result ≤ length body.now }
{
    let mut inside = Inside::Nothing;
    for i in 0..body.len() {
        let byte = body[i];
        let next = byte_at(body, i + 1);
        if is_cut(kind_at(inside, byte, next)) {
            return i;
        }
        inside = inside_after(inside, byte, next);
    }
    body.len()
}

/// How many bytes of white space and comments a body begins with.
fn gap_length(body: &[u8]) -> usize
    ensures { result ≡ prefix_len is_gap (kinds_in Nothing body.now) }
{
    let mut inside = Inside::Nothing;
    for i in 0..body.len() {
        let byte = body[i];
        let next = byte_at(body, i + 1);
        if !is_gap(kind_at(inside, byte, next)) {
            return i;
        }
        inside = inside_after(inside, byte, next);
    }
    body.len()
}

/// What stands behind the byte at a place, if there is one.
fn behind(bytes: &[u8], place: usize) -> Option<&[u8]>
    ensures some { IfSome result (λ rest. StandsBehind place bytes.now rest.now) }
    ensures none { IfNone result (length bytes.now ≤ place) }
{
    if place < bytes.len() {
        Some(&bytes[place + 1..])
    } else {
        None
    }
}

/// Adds the span of a part that begins at this place, unless it is white space and comments alone.
fn push_span(
    spans: &mut Vec<(u32, u32)>,
    at: usize,
    gap: usize,
    length: usize,
) -> Result<(), AllocError>
    requires { at + length < 2 ^ 32 }
    ensures { OnOk result (spans.new.items ≡ spans.old.items ++ part_span at gap length) }
{
    if gap < length {
        spans.push(((at + gap) as u32, (at + length) as u32))?;
    }
    Ok(())
}

/// Where the statements of a body stand that begins at this place, up to the first statement too many.
pub fn statements_in(
    alloc: Global,
    start: usize,
    body: &[u8],
) -> Result<Vec<(u32, u32)>, AllocError>
    requires { start + length body.now < 2 ^ 32 }
    ensures { IfOk result (λ spans. spans.items ≡ take 100001 (statements_in start body.now)) }
{
    let mut spans = Vec::new(alloc);
    let mut at = start;
    let mut rest = body;
    while spans.len() <= MOST_STATEMENTS {
        let length = part_length(rest);
        push_span(&mut spans, at, gap_length(rest), length)?;
        let Some(later) = behind(rest, length) else {
            return Ok(spans);
        };
        at += length + 1;
        rest = later;
    }
    Ok(spans)
}
