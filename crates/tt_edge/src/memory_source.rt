//! A source in memory, which fails the calls that it is told to fail.
ghost use Rattle.std.specs.Prelude.{◌≡◌, ◌<◌, ◌≤◌, ◌↔◌, min, length, drop, Some, OnErr, OnOk, IfOk, IsErr, Contains};
ghost use Rattle.std.specs.Io.{ReadsAtMost};
ghost use Rattle.std.specs.Io.KnownBytes.{ReadConsumes};
ghost use Rattle.tt_edge.specs.Outside.{one_more, Rose, Counts, Input};

use super::outside::{Failed, Source};
use std::marker::Model;

/// A source of the bytes of a vector. Its calls of `read` are numbered from 0, and those that it
/// was told to fail fail. The number of a call stays at `u64::MAX` once it is reached, and so does
/// the count of faults.
#[derive(Drop)]
pub struct MemorySource {
    bytes: Vec<u8>,
    given: usize,
    fail: Vec<u64>,
    limit: usize,
    calls: u64,
    faults: u64,
}

impl Model for MemorySource {
    ghost Value = { Input };

    ghost view = { λ s. record {
      left = drop s.given s.bytes.items;
      given = s.given;
      calls = s.calls;
      failing = s.fail.items;
      limit = s.limit;
      faults = s.faults;
    } };

    ghost invariant = { λ s. (s.given ≤ length s.bytes.items) × (0 < s.limit) };
}

impl MemorySource {
    /// A source that gives these bytes, as many in a call as the piece has room for.
    pub fn new(bytes: Vec<u8>, fail: Vec<u64>) -> MemorySource
        ensures { result ≡ record {
          left = bytes.items;
          given = 0;
          calls = 0;
          failing = fail.items;
          limit = usize.MAX;
          faults = 0;
        } }
    {
        MemorySource::with_limit(bytes, fail, usize::MAX)
    }

    /// A source that gives at most `limit` bytes in a call.
    pub fn with_limit(bytes: Vec<u8>, fail: Vec<u64>, limit: usize) -> MemorySource
        requires { 0 < limit }
        ensures { result ≡ record {
          left = bytes.items;
          given = 0;
          calls = 0;
          failing = fail.items;
          limit = limit;
          faults = 0;
        } }
    {
        MemorySource {
            bytes,
            given: 0,
            fail,
            limit,
            calls: 0,
            faults: 0,
        }
    }

    /// The bytes that it has left.
    pub fn rest(&self) -> &[u8]
        ensures { result.now ≡ self.now.left }
    {
        &self.bytes[self.given..]
    }

    /// How many calls of `read` were made.
    pub fn calls(&self) -> u64
        ensures { result ≡ self.now.calls }
    {
        self.calls
    }

    /// How many of these calls failed.
    pub fn faults(&self) -> u64
        ensures { result ≡ self.now.faults }
    {
        self.faults
    }
}

impl Source for MemorySource {
    ghost left = { λ s. Some s.left };

    ghost given = { λ s. s.given };

    ghost faults = { λ s. s.faults };

    fn read(&mut self, into: &mut [u8]) -> Result<usize, Failed>
        // Which calls fail, and how many bytes the others give.
        ensures which { IsErr result ↔ Contains self.old.failing self.old.calls }
        ensures amount { IfOk result (λ count.
            count ≡ min (min self.old.limit (length into.old)) (length self.old.left)) }

        ensures bound { ReadsAtMost result into.new }
        ensures bytes { ReadConsumes (Some self.old.left) (Some self.new.left) result into.new }
        ensures counted { Counts self.old.given self.new.given result }
        ensures later { self.old.faults ≤ self.new.faults }
        ensures failed { OnErr result (Rose self.old.faults self.new.faults) }

        // What else the source is afterwards.
        ensures faults_kept { OnOk result (self.new.faults ≡ self.old.faults) }
        ensures one_fault { OnErr result (self.new.faults ≡ one_more self.old.faults) }
        ensures one_call { self.new.calls ≡ one_more self.old.calls }
        ensures same_failing { self.new.failing ≡ self.old.failing }
        ensures same_limit { self.new.limit ≡ self.old.limit }
    {
        let call = self.calls;
        self.calls = call.saturating_add(1);
        if self.fail.contains(&call) {
            self.faults = self.faults.saturating_add(1);
            return Err(Failed);
        }
        let rest = &self.bytes[self.given..];
        let count = self.limit.min(into.len()).min(rest.len());
        into[..count].copy_from_slice(&rest[..count]);
        self.given += count;
        Ok(count)
    }
}
