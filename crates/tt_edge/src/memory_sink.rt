//! A sink in memory, which fails the calls that it is told to fail.
ghost use Rattle.std.specs.Prelude.{◌≡◌, ◌<◌, ◌≤◌, ◌↔◌, [], min, length, Some, OnOk, IfOk, IsErrOf};
ghost use Rattle.std.specs.Io.{WritesAtMost};
ghost use Rattle.std.specs.Io.KnownBytes.{WriteAppends};
ghost use Rattle.tt_edge.specs.Outside.{one_more, Rose, Counts, FailsNext, HasOneFaultMore, Output};

use super::outside::{Sink, Unwritten};
use std::alloc::Global;
use std::marker::Model;

/// A sink that keeps its bytes in a vector. Its calls of `write` are numbered from 0, and those that
/// it was told to fail fail. Where its vector cannot grow it answers Memory, and its count of faults
/// stays. The number of a call stays at `u64::MAX` once it is reached, and so does the count.
#[derive(Drop)]
pub struct MemorySink {
    bytes: Vec<u8>,
    fail: Vec<u64>,
    limit: usize,
    calls: u64,
    faults: u64,
}

impl Model for MemorySink {
    ghost Value = { Output };

    ghost view = { λ s. record {
      held = s.bytes.items;
      calls = s.calls;
      failing = s.fail.items;
      limit = s.limit;
      faults = s.faults;
    } };

    ghost invariant = { λ s. 0 < s.limit };
}

impl MemorySink {
    /// An empty sink that takes the whole piece of each call.
    pub fn new(alloc: Global, fail: Vec<u64>) -> MemorySink
        ensures { result ≡ record {
          held = [];
          calls = 0;
          failing = fail.items;
          limit = usize.MAX;
          faults = 0;
        } }
    {
        MemorySink::with_limit(alloc, fail, usize::MAX)
    }

    /// An empty sink that takes at most `limit` bytes in a call.
    pub fn with_limit(alloc: Global, fail: Vec<u64>, limit: usize) -> MemorySink
        requires { 0 < limit }
        ensures { result ≡ record {
          held = [];
          calls = 0;
          failing = fail.items;
          limit = limit;
          faults = 0;
        } }
    {
        MemorySink {
            bytes: Vec::new(alloc),
            fail,
            limit,
            calls: 0,
            faults: 0,
        }
    }

    /// The bytes that it holds.
    pub fn bytes(&self) -> &[u8]
        ensures { result.now ≡ self.now.held }
    {
        self.bytes.as_slice()
    }

    /// How many calls of `write` were made.
    pub fn calls(&self) -> u64
        ensures { result ≡ self.now.calls }
    {
        self.calls
    }

    /// How many of these calls failed.
    pub fn faults(&self) -> u64
        ensures { result ≡ self.now.faults }
    {
        self.faults
    }
}

impl Sink for MemorySink {
    ghost holds = { λ s. Some s.held };

    ghost received = { λ s. length s.held };

    ghost faults = { λ s. s.faults };

    fn write(&mut self, piece: &[u8]) -> Result<usize, Unwritten>
        // Which calls fail, and how many bytes the others take.
        ensures which { IsErrOf result Unwritten.Failed ↔ FailsNext self.old }
        ensures amount { IfOk result (λ count. count ≡ min self.old.limit (length piece.now)) }

        ensures bound { WritesAtMost result piece.now }
        ensures some { IfOk result (λ taken. 0 < length piece.now → 0 < taken) }
        ensures bytes { WriteAppends (Some self.old.held) (Some self.new.held) result piece.now }
        ensures counted { Counts (length self.old.held) (length self.new.held) result }
        ensures later { self.old.faults ≤ self.new.faults }
        ensures failed { IsErrOf result Unwritten.Failed → Rose self.old.faults self.new.faults }

        // What else the sink is afterwards.
        ensures faults_kept { OnOk result (self.new.faults ≡ self.old.faults) }
        ensures one_fault { IsErrOf result Unwritten.Failed → HasOneFaultMore self.old self.new }
        ensures no_fault { IsErrOf result Unwritten.Memory → self.new.faults ≡ self.old.faults }
        ensures one_call { self.new.calls ≡ one_more self.old.calls }
        ensures same_failing { self.new.failing ≡ self.old.failing }
        ensures same_limit { self.new.limit ≡ self.old.limit }
    {
        let call = self.calls;
        self.calls = call.saturating_add(1);
        if self.fail.contains(&call) {
            self.faults = self.faults.saturating_add(1);
            return Err(Unwritten::Failed);
        }
        let count = self.limit.min(piece.len());
        match self.bytes.extend_from_slice(&piece[..count]) {
            Ok(()) => Ok(count),
            Err(_) => Err(Unwritten::Memory),
        }
    }
}
