//! Writing all of a slice to a sink.
ghost use Rattle.std.specs.Prelude.{◌≡◌, ℕ, ◌+◌, ◌-◌, ◌<◌, ◌≤◌, length, take, drop, OnOk, IfErr};
ghost use Rattle.std.specs.Io.KnownBytes.{Appends};
ghost use Rattle.tt_edge.specs.Outside.{Rose, RoseBy};

use super::outside::{Sink, Unwritten};

/// Why not all bytes were written, and how many were.
#[derive(Clone, Copy, PartialEq, Eq)]
pub struct Unfinished {
    pub why: Unwritten,
    /// How many bytes from the front the sink has received: it has received one exactly where this
    /// is not 0.
    pub written: usize,
}

/// Writes all bytes to a sink, going on after a write that takes only some. It takes no memory of
/// its own.
pub fn write_all<K: Sink>(sink: &mut K, bytes: &[u8]) -> Result<(), Unfinished>
    ensures whole { OnOk result (Appends (K.holds sink.old) (K.holds sink.new) bytes.now) }
    ensures whole_counted { OnOk result (RoseBy K.received sink.old sink.new (length bytes.now)) }

    // What was written before an error, which is not all.
    ensures prefix { IfErr result (λ e. Appends (K.holds sink.old) (K.holds sink.new)
        (take e.written bytes.now)) }
    ensures prefix_counted { IfErr result (λ e. RoseBy K.received sink.old sink.new e.written) }
    ensures short { IfErr result (λ e. e.written < length bytes.now) }

    // When the error is a fault.
    ensures failed { IfErr result (λ e. e.why ≡ Unwritten.Failed
        → Rose (K.faults sink.old) (K.faults sink.new)) }
    ensures later { K.faults sink.old ≤ K.faults sink.new }
{
    let mut written = 0;
    for _turn in 0..bytes.len() {
        if written == bytes.len() {
            return Ok(());
        }
        match sink.write(&bytes[written..]) {
            Ok(count) => written += count,
            Err(why) => return Err(Unfinished { why, written }),
        }
    }
    Ok(())
}
