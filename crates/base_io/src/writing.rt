//! Writing all of a piece.

ghost use Rattle.std.specs.Prelude.{◌≤◌, ◌<◌, length, take};
ghost use Rattle.std.specs.Io.KnownBytes.{Appends};
ghost use Rattle.base_io.specs.Faults.{Rose};
ghost use Rattle.base_io.specs.Whole.{WritesAll, IsWriteFault};

use crate::sink::{Put, Sink};

/// What writing a whole piece gave.
#[derive(Clone, Copy, PartialEq, Eq)]
pub enum Wrote {
    /// All of it was taken.
    Done,
    /// The sink failed, and took a prefix of it.
    Fault,
}

/// Writes until all is taken or the sink fails, and answers how many bytes were taken.
pub(crate) fn write_prefix<K: Sink>(sink: &mut K, bytes: &[u8]) -> usize
    ensures bound { result ≤ length bytes.now }
    ensures bytes { Appends (K.taken sink.old) (K.taken sink.new) (take result bytes.now) }
    ensures later { K.faults sink.old ≤ K.faults sink.new }
    ensures fault { result < length bytes.now → Rose (K.faults sink.old) (K.faults sink.new) }
{
    let mut taken = 0;
    while taken < bytes.len() {
        let (_, rest) = bytes.split_at(taken);
        match sink.write(rest) {
            Put::Failed => return taken,
            Put::Put(n) => taken += n,
        }
    }
    taken
}

/// Writes all of the bytes, in order.
///
/// `Done` means that all of them were taken. `Fault` comes only where the sink's count of faults rose (or stands at its
/// last value); a prefix of the bytes was taken then.
pub fn write_all<K: Sink>(sink: &mut K, bytes: &[u8]) -> Wrote
    ensures bytes { WritesAll (K.taken sink.old) (K.taken sink.new) bytes.now result }
    ensures later { K.faults sink.old ≤ K.faults sink.new }
    ensures fault { IsWriteFault result → Rose (K.faults sink.old) (K.faults sink.new) }
{
    if write_prefix(sink, bytes) < bytes.len() {
        return Wrote::Fault;
    }
    Wrote::Done
}
