//! Sources and sinks in memory, which tell all and fail where they are told to.

ghost use Rattle.std.specs.Prelude.{◌≡◌, ◌≤◌, ◌++◌, [], take, drop, min, length};
ghost use Rattle.base_io.specs.Faults.{Rose};
ghost use Rattle.base_io.specs.Memory.{SourceState, SinkState, ReadsNext, WritesNext};
ghost use Rattle.base_io.specs.Sink.{Takes, TakesSome, IsFailed as IsPutFailed};
ghost use Rattle.base_io.specs.Source.{Gives, GivesAtMost, IsFailed};

use crate::sink::{Put, Sink};
use crate::source::{Got, Source};
use std::alloc::{AllocError, Global};
use std::marker::Model;

/// A source that gives the bytes that it was made of.
///
/// It numbers its reads from 1, up to 2^64 - 1, and fails at exactly those whose numbers it was given.
#[derive(Drop)]
pub struct MemorySource {
    bytes: Vec<u8>,
    given: usize,
    fail: Vec<u64>,
    calls: u64,
    faults: u64,
}

impl Model for MemorySource {
    ghost use Rattle.std.specs.Prelude.{drop};
    ghost use Rattle.base_io.specs.Memory.{SourceState};

    ghost Value = { SourceState };

    ghost view = { λ s. record {
      left = drop s.given s.bytes.items;
      fail = s.fail.items;
      calls = s.calls;
      faults = s.faults;
    } };
}

impl MemorySource {
    /// A source of these bytes that fails at the reads with the numbers of `fail`, from 1.
    ///
    /// It takes no memory, and so is never refused.
    pub fn new(bytes: Vec<u8>, fail: Vec<u64>) -> Result<MemorySource, AllocError>
        ensures { let made : SourceState = record {
          left = bytes.items;
          fail = fail.items;
          calls = 0;
          faults = 0;
        } in result ≡ Ok made }
    {
        Ok(MemorySource {
            bytes,
            given: 0,
            fail,
            calls: 0,
            faults: 0,
        })
    }
}

impl Source for MemorySource {
    ghost use Rattle.std.specs.Prelude.{Some};

    ghost left = { λ s. Some s.left };

    ghost faults = { λ s. s.faults };

    /// As much of what is left as there is room for; `Failed` exactly where this read's number is listed.
    fn read(&mut self, buf: &mut [u8]) -> Got
        ensures bound { GivesAtMost result (length buf.new) }
        ensures bytes { Gives (Some self.old.left) (Some self.new.left) result buf.new }
        ensures later { self.old.faults ≤ self.new.faults }
        ensures cause { IsFailed result → Rose self.old.faults self.new.faults }
        ensures exact { ReadsNext self.old self.new result buf.old buf.new }
    {
        self.calls = self.calls.saturating_add(1);
        if self.fail.contains(&self.calls) {
            self.faults = self.faults.saturating_add(1);
            return Got::Failed;
        }
        if self.given >= self.bytes.len() {
            return Got::End;
        }
        let (_, rest) = self.bytes.split_at(self.given);
        let n = copy_prefix(rest, buf);
        self.given += n;
        Got::Got(n)
    }
}

/// Copies as much of the beginning as there is room for, and answers how much.
pub(crate) fn copy_prefix(from: &[u8], buf: &mut [u8]) -> usize
    ensures count { result ≡ min (length from.now) (length buf.old) }
    ensures copied { buf.new ≡ take result from.now ++ drop result buf.old }
{
    let n = from.len().min(buf.len());
    buf[..n].copy_from_slice(&from[..n]);
    n
}

/// A sink that keeps the bytes that it takes.
///
/// It numbers its writes from 1, up to 2^64 - 1, and fails at exactly those whose numbers it was given, and where
/// memory runs out.
#[derive(Drop)]
pub struct MemorySink {
    bytes: Vec<u8>,
    fail: Vec<u64>,
    calls: u64,
    faults: u64,
}

impl Model for MemorySink {
    ghost use Rattle.base_io.specs.Memory.{SinkState};

    ghost Value = { SinkState };

    ghost view = { λ s. record {
      taken = s.bytes.items;
      fail = s.fail.items;
      calls = s.calls;
      faults = s.faults;
    } };
}

impl MemorySink {
    /// A sink that has taken nothing yet, and fails at the writes with the numbers of `fail`, from 1.
    ///
    /// It takes no memory yet, and so is never refused.
    pub fn new(alloc: Global, fail: Vec<u64>) -> Result<MemorySink, AllocError>
        ensures { let made : SinkState =
            record { taken = []; fail = fail.items; calls = 0; faults = 0 } in result ≡ Ok made }
    {
        Ok(MemorySink {
            bytes: Vec::new(alloc),
            fail,
            calls: 0,
            faults: 0,
        })
    }

    /// The bytes taken, in order.
    pub fn taken(&self) -> &[u8]
        ensures { result.now ≡ self.now.taken }
    {
        &self.bytes
    }
}

impl Sink for MemorySink {
    ghost use Rattle.std.specs.Prelude.{Some};

    ghost taken = { λ s. Some s.taken };

    ghost faults = { λ s. s.faults };

    /// All of the bytes; `Failed` where this write's number is listed, or where memory ran out.
    fn write(&mut self, bytes: &[u8]) -> Put
        ensures bound { TakesSome result (length bytes.now) }
        ensures bytes { Takes (Some self.old.taken) (Some self.new.taken) result bytes.now }
        ensures later { self.old.faults ≤ self.new.faults }
        ensures cause { IsPutFailed result → Rose self.old.faults self.new.faults }
        ensures exact { WritesNext self.old self.new result bytes.now }
    {
        self.calls = self.calls.saturating_add(1);
        if self.fail.contains(&self.calls) || self.bytes.extend_from_slice(bytes).is_err() {
            self.faults = self.faults.saturating_add(1);
            return Put::Failed;
        }
        Put::Put(bytes.len())
    }
}
