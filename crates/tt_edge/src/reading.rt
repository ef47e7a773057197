//! Reading a source to its end.
ghost use Rattle.std.specs.Prelude.{◌≡◌, ℕ, ◌+◌, ◌-◌, ◌^◌, ◌<◌, ◌≤◌, ◌↔◌, length, take, drop, OnOk, OnErr, IfOk, IsErrOf, vec_len};
ghost use Rattle.std.specs.Io.KnownBytes.{Consumes, IsAtEnd, Keeps};
ghost use Rattle.tt_edge.specs.Outside.{Rose, RoseIn, RoseBy, RoseByMore, AreAllOf, LosesFront, Counts};
ghost use Rattle.tt_edge.specs.declared.reading.Unread.TheVariants.{Memory};

use super::outside::Source;
use std::alloc::{AllocError, Global};

/// Why a source was not read to its end.
#[derive(Clone, Copy, PartialEq, Eq)]
pub enum Unread {
    /// The source met a fault.
    Failed,
    /// The source gave more bytes than were asked for at most.
    TooLong,
    /// No memory was found for the bytes.
    Memory,
}

impl From<AllocError> for Unread {
    ghost from_gives = { λ _ e. e ≡ Memory };

    fn from(_e: AllocError) -> Unread {
        Unread::Memory
    }
}

// The room that each read is given.
const PIECE: usize = 65_536;

/// Reads a source to its end: to the first read that gives 0 bytes. Each read is given room for
/// 65,536 bytes. An input of exactly `most` bytes is read; at the read that passes `most` bytes the
/// answer is TooLong, and what was read is let go.
pub fn read_all<S: Source>(alloc: Global, source: &mut S, most: u32) -> Result<Vec<u8>, Unread>
    // The bytes are all that was left, where this is told, and nothing is left.
    ensures whole { IfOk result (λ bytes. AreAllOf (S.left source.old) bytes.items) }
    ensures end { OnOk result (IsAtEnd (S.left source.new)) }
    ensures fits { IfOk result (λ bytes. vec_len bytes ≤ most) }

    // What was taken from the source, at every answer.
    ensures counted { IfOk result (λ bytes. RoseBy S.given source.old source.new (vec_len bytes)) }
    ensures grows { S.given source.old ≤ S.given source.new }
    ensures taken { LosesFront (S.left source.old) (S.left source.new)
        (S.given source.new - S.given source.old) }

    // When each error comes.
    ensures too_long { IsErrOf result Unread.TooLong ↔ RoseByMore S.given source.old source.new most }
    ensures failed { IsErrOf result Unread.Failed → RoseIn S.faults source.old source.new }
    ensures later { S.faults source.old ≤ S.faults source.new }
{
    let limit = most as usize;
    let mut bytes = Vec::new(alloc);
    let mut filled = 0;
    for _turn in 0..=limit {
        let count = read_more(source, &mut bytes, filled)?;
        if count == 0 {
            bytes.truncate(filled);
            return Ok(bytes);
        }
        filled += count;
        if filled > limit {
            return Err(Unread::TooLong);
        }
    }
    unreachable!()
}

// One read into `bytes` after the first `filled`. Room is made before, so that a want of memory
// loses no byte of the source.
fn read_more<S: Source>(source: &mut S, bytes: &mut Vec<u8>, filled: usize) -> Result<usize, Unread>
    requires within { filled ≤ vec_len bytes.old }
    requires room { filled + PIECE < 2 ^ 64 }
    ensures front { take filled bytes.new.items ≡ take filled bytes.old.items }
    ensures fits { IfOk result (λ count. filled + count ≤ vec_len bytes.new) }
    ensures consumed { IfOk result (λ count. Consumes (S.left source.old) (S.left source.new)
        (take count (drop filled bytes.new.items))) }
    ensures end { IfOk result (λ count. count ≡ 0 → IsAtEnd (S.left source.new)) }
    ensures nothing_taken { OnErr result (Keeps (S.left source.old) (S.left source.new)) }
    ensures counted { Counts (S.given source.old) (S.given source.new) result }
    ensures not_too_long { IsErrOf result Unread.TooLong → ⊥ }
    ensures failed { IsErrOf result Unread.Failed → RoseIn S.faults source.old source.new }
    ensures later { S.faults source.old ≤ S.faults source.new }
{
    let wanted = filled + PIECE;
    if bytes.len() < wanted {
        bytes.resize(wanted, 0)?;
    }
    read_at(source, bytes.as_mut_slice(), filled)
}

// One read into the part of `bytes` from `at` on.
fn read_at<S: Source>(source: &mut S, bytes: &mut [u8], at: usize) -> Result<usize, Unread>
    requires { at < length bytes.old }
    ensures front { take at bytes.new ≡ take at bytes.old }
    ensures fits { IfOk result (λ count. at + count ≤ length bytes.new) }
    ensures consumed { IfOk result (λ count. Consumes (S.left source.old) (S.left source.new)
        (take count (drop at bytes.new))) }
    ensures end { IfOk result (λ count. count ≡ 0 → IsAtEnd (S.left source.new)) }
    ensures nothing_taken { OnErr result (Keeps (S.left source.old) (S.left source.new)) }
    ensures counted { Counts (S.given source.old) (S.given source.new) result }
    ensures error { OnErr result (IsErrOf result Unread.Failed) }
    ensures failed { OnErr result (Rose (S.faults source.old) (S.faults source.new)) }
    ensures later { S.faults source.old ≤ S.faults source.new }
{
    match source.read(&mut bytes[at..]) {
        Ok(count) => Ok(count),
        Err(_) => Err(Unread::Failed),
    }
}
