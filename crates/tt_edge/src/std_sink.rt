//! A sink over std's writer, as standard output is.
ghost use Rattle.std.specs.Prelude.{◌≡◌, ◌≤◌, ◌<◌, length, None, IfOk, IfSome, OnErr, OnOk, IsErrOf};
ghost use Rattle.std.specs.Io.{WritesAtMost};
ghost use Rattle.std.specs.Io.KnownBytes.{WriteAppends};
ghost use Rattle.tt_edge.specs.Outside.{one_more, Rose, Counts, Tally};

use super::outside::{Sink, Unwritten};
use std::io::Write;
use std::marker::Model;

/// A sink over a writer, flushed in each write. It tells nothing of the content and never answers
/// Memory. A fault of the writer or of its flush raises the count of faults, and so does a writer
/// that takes 0 bytes of a piece that is not empty. It counts the bytes that it answered for in a
/// `u64`, and a write whose piece is longer than what this count can still take is a fault.
#[derive(Drop)]
pub struct StdSink<W: Write + Drop> {
    writer: W,
    received: u64,
    faults: u64,
}

impl<W: Write + Drop> Model for StdSink<W> {
    ghost Value = { Tally };

    ghost view = { λ s. record { received = s.received; faults = s.faults } };
}

impl<W: Write + Drop> StdSink<W> {
    /// A sink that has received nothing and met no fault.
    pub fn new(writer: W) -> StdSink<W>
        ensures { result ≡ record { received = 0; faults = 0 } }
    {
        StdSink {
            writer,
            received: 0,
            faults: 0,
        }
    }

    /// How many faults were met.
    pub fn faults(&self) -> u64
        ensures { result ≡ self.now.faults }
    {
        self.faults
    }
}

impl<W: Write + Drop> Sink for StdSink<W> {
    ghost holds = { λ _. None };

    ghost received = { λ s. s.received };

    ghost faults = { λ s. s.faults };

    fn write(&mut self, piece: &[u8]) -> Result<usize, Unwritten>
        ensures bound { WritesAtMost result piece.now }
        ensures some { IfOk result (λ taken. 0 < length piece.now → 0 < taken) }
        ensures bytes { WriteAppends None None result piece.now }
        ensures counted { Counts self.old.received self.new.received result }
        ensures later { self.old.faults ≤ self.new.faults }
        ensures failed { IsErrOf result Unwritten.Failed → Rose self.old.faults self.new.faults }

        // Exactly the errors are faults, and there are no others.
        ensures faults_kept { OnOk result (self.new.faults ≡ self.old.faults) }
        ensures one_fault { OnErr result (self.new.faults ≡ one_more self.old.faults) }
        ensures never_memory { OnErr result (IsErrOf result Unwritten.Failed) }
    {
        if piece.len() as u64 <= u64::MAX - self.received {
            if let Some(count) = write_and_flush(&mut self.writer, piece) {
                self.received += count as u64;
                return Ok(count);
            }
        }
        self.faults = self.faults.saturating_add(1);
        Err(Unwritten::Failed)
    }
}

// A write and a flush: how many bytes the writer took, unless it had a fault or took none.
fn write_and_flush<W: Write>(writer: &mut W, piece: &[u8]) -> Option<usize>
    ensures bound { IfSome result (λ taken. taken ≤ length piece.now) }
    ensures some { IfSome result (λ taken. 0 < length piece.now → 0 < taken) }
{
    let count = writer.write(piece).ok()?;
    writer.flush().ok()?;
    if count == 0 && !piece.is_empty() {
        return None;
    }
    Some(count)
}
