//! The log of violations.

ghost use Rattle.std.specs.Prelude.{◌≡◌, IfOk, []};
ghost use Rattle.part_handlers.specs.LogState.{with_violation, log_of, from_end};

use crate::rules::Violation;
use circular_buffer::HeapCircularBuffer;
use std::alloc::{AllocError, Global};
use std::marker::Model;

/// How many of the newest violations a log keeps.
const KEPT: usize = 64;

/// How many violations were noted, and the 64 newest of them, in a circular buffer (profile).
#[derive(Drop)]
pub struct Log {
    newest: HeapCircularBuffer<Violation>,
    noted: u64,
}

impl Model for Log {
    ghost use Rattle.std.specs.Prelude.{◌≡◌};
    ghost use Rattle.part_handlers.specs.LogState.{LogRecord};

    ghost Value = { LogRecord };

    ghost view = { λ l. record { count = l.noted; newest = l.newest.items } };

    ghost invariant = { λ l. l.newest.capacity ≡ 64 };
}

impl Log {
    /// An empty log, with room for the 64 newest violations.
    ///
    /// It is refused for want of memory alone.
    pub fn new(alloc: Global) -> Result<Log, AllocError>
        ensures { IfOk result (λ log. log ≡ log_of []) }
    {
        Ok(Log {
            newest: HeapCircularBuffer::with_capacity(alloc, KEPT)?,
            noted: 0,
        })
    }

    /// Notes a violation; where 64 are kept, the oldest of them is dropped. It takes no memory.
    pub fn log_violation(&mut self, violation: Violation)
        ensures { self.new ≡ with_violation self.old violation }
    {
        self.noted = self.noted.saturating_add(1);
        self.newest.push_back(violation);
    }

    /// How many violations were noted; it stands still at the greatest `u64`.
    pub fn count(&self) -> u64
        ensures { result ≡ self.now.count }
    {
        self.noted
    }

    /// The i-th newest of the violations that are kept, from 0; none past them.
    pub fn back(&self, i: usize) -> Option<Violation>
        ensures { result ≡ from_end self.now.newest i }
    {
        self.newest.nth_back(i).copied()
    }
}
