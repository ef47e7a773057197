//! A source of bytes and a sink for bytes, each with the meanings that clauses speak of.
ghost use Rattle.std.specs.Prelude.{ℕ, List, Option, ◌≤◌, ◌<◌, length, OnErr, IfOk, IsErrOf};
ghost use Rattle.std.specs.Io.{ReadsAtMost, WritesAtMost};
ghost use Rattle.std.specs.Io.KnownBytes.{ReadConsumes, WriteAppends};
ghost use Rattle.tt_edge.specs.Outside.{Rose, RoseIn, Counts};

/// A read met a fault of the source.
#[derive(Clone, Copy, PartialEq, Eq)]
pub struct Failed;

/// Why a sink took nothing.
#[derive(Clone, Copy, PartialEq, Eq)]
pub enum Unwritten {
    /// The sink met a fault.
    Failed,
    /// No memory was found for the bytes.
    Memory,
}

/// Where bytes come from.
pub trait Source {
    // The bytes that it has left, where it tells them.
    ghost left: { Self → Option (List ℕ) };

    // How many bytes it has given so far.
    ghost given: { Self → ℕ };

    // How many faults it has met, which may stand at the end of a count of 64 bits.
    ghost faults: { Self → ℕ };

    /// Puts the next bytes at the start of the piece and answers how many. A 0 for a piece with
    /// room means that the input has ended. An error has taken nothing from the input; what stands
    /// in the piece is then not said.
    fn read(&mut self, into: &mut [u8]) -> Result<usize, Failed>
        ensures bound { ReadsAtMost result into.new }
        ensures bytes { ReadConsumes (left self.old) (left self.new) result into.new }
        ensures counted { Counts (given self.old) (given self.new) result }
        ensures later { faults self.old ≤ faults self.new }
        ensures failed { OnErr result (Rose (faults self.old) (faults self.new)) };
}

/// Where bytes go to.
pub trait Sink {
    // The bytes that it holds, where it tells them.
    ghost holds: { Self → Option (List ℕ) };

    // How many bytes it has answered for so far.
    ghost received: { Self → ℕ };

    // How many faults it has met, which may stand at the end of a count of 64 bits.
    ghost faults: { Self → ℕ };

    /// Appends bytes from the front of the piece and answers how many: at least one of a piece
    /// that is not empty. After an error it has appended nothing.
    fn write(&mut self, piece: &[u8]) -> Result<usize, Unwritten>
        ensures bound { WritesAtMost result piece.now }
        ensures some { IfOk result (λ taken. 0 < length piece.now → 0 < taken) }
        ensures bytes { WriteAppends (holds self.old) (holds self.new) result piece.now }
        ensures counted { Counts (received self.old) (received self.new) result }
        ensures later { faults self.old ≤ faults self.new }
        ensures failed { IsErrOf result Unwritten.Failed → RoseIn faults self.old self.new };
}
