//! Sources of bytes.

ghost use Rattle.std.specs.Prelude.{◌≤◌, ℕ, List, Option, length};
ghost use Rattle.base_io.specs.Faults.{Rose};
ghost use Rattle.base_io.specs.Source.{Gives, IsFailed, GivesAtMost};

/// What a read gave.
#[derive(Clone, Copy, PartialEq, Eq)]
pub enum Got {
    /// That many bytes, at the beginning of the buffer. None for a buffer that isn't empty means the end.
    Got(usize),
    /// Nothing is left.
    End,
    /// The source failed, and gave nothing.
    Failed,
}

/// A source of bytes, which counts its faults.
pub trait Source {
    /// The bytes that are left, where the source tells them.
    ghost left: { Self → Option (List ℕ) };
    /// How often it has failed; an implementation's count may stop at 2^64 - 1.
    ghost faults: { Self → ℕ };

    /// Reads some bytes into the beginning of the buffer.
    ///
    /// At most as many as the buffer has are given, and the first of those that are left. `End`, or no byte for a
    /// buffer that isn't empty, comes only where nothing is left. `Failed` comes only where the count of faults rose in
    /// this call, or stands at its last value; what is left then stays as before.
    fn read(&mut self, buf: &mut [u8]) -> Got
        ensures bound { GivesAtMost result (length buf.new) }
        ensures bytes { Gives (left self.old) (left self.new) result buf.new }
        ensures later { faults self.old ≤ faults self.new }
        ensures cause { IsFailed result → Rose (faults self.old) (faults self.new) };
}
