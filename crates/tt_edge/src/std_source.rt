//! A source over std's reader, as standard input is.
ghost use Rattle.std.specs.Prelude.{◌≡◌, ◌≤◌, OnErr, OnOk};
ghost use Rattle.std.specs.Io.{ReadsAtMost};
ghost use Rattle.std.specs.Io.KnownBytes.{ReadConsumes};
ghost use Rattle.tt_edge.specs.Outside.{one_more, Rose, Counts, Stream};

use super::outside::{Failed, Source};
use std::io::Read;
use std::marker::Model;

/// A source over a reader. It tells its content where the reader tells it: standard input does not,
/// a reader over memory does. Each fault of the reader raises the count of faults, which stays at
/// `u64::MAX` once it is there. It counts the bytes that it gave in a `u64`, and a read whose piece
/// is longer than what this count can still take is a fault.
#[derive(Drop)]
pub struct StdSource<R: Read + Drop> {
    reader: R,
    given: u64,
    faults: u64,
}

impl<R: Read + Drop> Model for StdSource<R> {
    ghost Value = { Stream };

    ghost view = { λ s. record { left = R.remaining s.reader; given = s.given; faults = s.faults } };
}

impl<R: Read + Drop> StdSource<R> {
    /// A source that has given nothing and met no fault.
    pub fn new(reader: R) -> StdSource<R>
        ensures { result ≡ record { left = R.remaining reader; given = 0; faults = 0 } }
    {
        StdSource {
            reader,
            given: 0,
            faults: 0,
        }
    }

    /// How many faults were met.
    pub fn faults(&self) -> u64
        ensures { result ≡ self.now.faults }
    {
        self.faults
    }
}

impl<R: Read + Drop> Source for StdSource<R> {
    ghost left = { λ s. s.left };

    ghost given = { λ s. s.given };

    ghost faults = { λ s. s.faults };

    fn read(&mut self, into: &mut [u8]) -> Result<usize, Failed>
        ensures bound { ReadsAtMost result into.new }
        ensures bytes { ReadConsumes self.old.left self.new.left result into.new }
        ensures counted { Counts self.old.given self.new.given result }
        ensures later { self.old.faults ≤ self.new.faults }
        ensures failed { OnErr result (Rose self.old.faults self.new.faults) }

        // Exactly the errors are faults.
        ensures faults_kept { OnOk result (self.new.faults ≡ self.old.faults) }
        ensures one_fault { OnErr result (self.new.faults ≡ one_more self.old.faults) }
    {
        if into.len() as u64 <= u64::MAX - self.given {
            if let Ok(count) = self.reader.read(into) {
                self.given += count as u64;
                return Ok(count);
            }
        }
        self.faults = self.faults.saturating_add(1);
        Err(Failed)
    }
}
