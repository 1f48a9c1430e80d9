//! Sinks of bytes.

ghost use Rattle.std.specs.Prelude.{◌≤◌, ℕ, List, Option, length};
ghost use Rattle.base_io.specs.Faults.{Rose};
ghost use Rattle.base_io.specs.Sink.{Takes, IsFailed, TakesSome};

/// What a write took.
#[derive(Clone, Copy, PartialEq, Eq)]
pub enum Put {
    /// That many bytes, from the beginning.
    Put(usize),
    /// The sink failed, and took nothing.
    Failed,
}

/// A sink of bytes, which counts its faults.
pub trait Sink {
    /// The bytes taken, where the sink tells them.
    ghost taken: { Self → Option (List ℕ) };
    /// How often it has failed; an implementation's count may stop at 2^64 - 1.
    ghost faults: { Self → ℕ };

    /// Takes some of the bytes, from the beginning; at least one where there is one.
    ///
    /// `Failed` comes only where the count of faults rose in this call, or stands at its last value; the bytes taken
    /// then stay as before.
    fn write(&mut self, bytes: &[u8]) -> Put
        ensures bound { TakesSome result (length bytes.now) }
        ensures bytes { Takes (taken self.old) (taken self.new) result bytes.now }
        ensures later { faults self.old ≤ faults self.new }
        ensures cause { IsFailed result → Rose (faults self.old) (faults self.new) };
}
