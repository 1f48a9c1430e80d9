//! A sink that gathers small pieces before another sink.

ghost use Rattle.std.specs.Prelude.{◌≡◌, ◌≤◌, ◌<◌, ◌+◌, ◌-◌, ◌++◌, [], decimal, length, min, take};
ghost use Rattle.std.specs.Io.KnownBytes.{append_known};
ghost use Rattle.base_io.specs.Buffered.{Flushes, Gathers, GathersAll, GathersPut, HasRoom};
ghost use Rattle.base_io.specs.Buffered.{outbox};
ghost use Rattle.base_io.specs.Faults.{Rose};
ghost use Rattle.base_io.specs.Sink.{Takes, TakesSome, IsFailed};

use crate::sink::{Put, Sink};
use crate::writing::{Wrote, write_prefix};
use std::marker::Model;

/// How many bytes a buffered sink holds back at most.
const CAPACITY: usize = 8192;

/// A sink that holds bytes back, at most 8,192 of them, and gives them on to the sink behind it in large pieces.
///
/// What it tells as taken are the bytes that the sink behind it took, and then those that it still holds back. Its
/// faults are those of the sink behind it. It takes no memory beyond its own size. What it holds back is given on by
/// `flush` alone, and is lost where it is dropped or taken apart before.
#[derive(Drop)]
pub struct BufferedSink<K: Sink> {
    inner: K,
    buffer: [u8; CAPACITY],
    start: usize,
    end: usize,
}

impl<K: Sink> Model for BufferedSink<K> {
    ghost use Rattle.std.specs.Prelude.{◌≤◌, ◌-◌, take, drop};
    ghost use Rattle.base_io.specs.Buffered.{Gathering, IsInBuffer};
    ghost use Rattle.base_io.specs.declared.buffered.TheConstants.{CAPACITY};

    ghost Value = { Gathering K };

    ghost view = { λ s. record {
      inner = s.inner;
      pending = drop s.start (take s.end s.buffer);
      room = CAPACITY - s.end;
    } };

    ghost invariant = { λ s. IsInBuffer s.start s.end };
}

impl<K: Sink> BufferedSink<K> {
    /// A sink before this one that holds nothing back yet.
    pub fn new(inner: K) -> BufferedSink<K>
        ensures inner { result.inner ≡ inner }
        ensures pending { result.pending ≡ [] }
    {
        BufferedSink {
            inner,
            buffer: [0; CAPACITY],
            start: 0,
            end: 0,
        }
    }

    /// Gives on what is held back.
    ///
    /// After `Done` nothing is held back. `Fault` comes only where the count of faults of the sink behind rose (or
    /// stands at its last value); a prefix of what was held back was given on then, and the rest is still held back.
    pub fn flush(&mut self) -> Wrote
        ensures flushes { Flushes (outbox K.taken K.faults self.old)
            (outbox K.taken K.faults self.new) result }
        ensures room { HasRoom result CAPACITY self.new.room }
    {
        let (gathered, _) = self.buffer.split_at(self.end);
        let (_, pending) = gathered.split_at(self.start);
        let taken = write_prefix(&mut self.inner, pending);
        self.start += taken;
        if self.start < self.end {
            return Wrote::Fault;
        }
        self.start = 0;
        self.end = 0;
        Wrote::Done
    }

    /// Writes all of the bytes, in order, as `write_all` does; in the words of what was given on and what is held back.
    ///
    /// `Done` means that all of them went in. `Fault` comes only where the count of faults of the sink behind rose (or
    /// stands at its last value); a prefix of them went in then.
    pub fn write_all(&mut self, bytes: &[u8]) -> Wrote
        ensures { GathersAll (outbox K.taken K.faults self.old)
            (outbox K.taken K.faults self.new) bytes.now result }
    {
        if bytes.len() <= CAPACITY - self.end {
            gather(&mut self.buffer, &mut self.end, bytes);
            return Wrote::Done;
        }
        self.write_by_parts(bytes)
    }

    /// Writes all of the bytes, in order, as many at a time as there is room for.
    fn write_by_parts(&mut self, bytes: &[u8]) -> Wrote
        ensures { GathersAll (outbox K.taken K.faults self.old)
            (outbox K.taken K.faults self.new) bytes.now result }
    {
        let mut taken = 0;
        while taken < bytes.len() {
            let (_, rest) = bytes.split_at(taken);
            match self.write(rest) {
                Put::Failed => return Wrote::Fault,
                Put::Put(n) => taken += n,
            }
        }
        Wrote::Done
    }

    /// Makes room for so many bytes: where there isn't so much, what is held back is given on.
    ///
    /// `Fault` comes only where the count of faults of the sink behind rose (or stands at its last value); a prefix of
    /// what was held back was given on then.
    #[inline(always)]
    pub fn make_room(&mut self, count: usize) -> Wrote
        requires { count ≤ CAPACITY }
        ensures gathers { GathersAll (outbox K.taken K.faults self.old)
            (outbox K.taken K.faults self.new) [] result }
        ensures room { HasRoom result count self.new.room }
    {
        if count <= CAPACITY - self.end {
            return Wrote::Done;
        }
        self.flush()
    }

    /// Holds back bytes for which there is room.
    #[inline(always)]
    pub fn put(&mut self, bytes: &[u8])
        requires { length bytes.now ≤ self.old.room }
        ensures gathers { Gathers (outbox K.taken K.faults self.old)
            (outbox K.taken K.faults self.new) bytes.now }
        ensures room { self.old.room ≡ self.new.room + length bytes.now }
    {
        self.end = put_at(&mut self.buffer, self.end, bytes);
    }

    /// Holds back the digits of a number, for which there is room.
    pub fn put_number(&mut self, number: u64)
        requires { 20 ≤ self.old.room }
        ensures gathers { Gathers (outbox K.taken K.faults self.old)
            (outbox K.taken K.faults self.new) (decimal number) }
        ensures room { self.old.room ≡ self.new.room + length (decimal number) }
    {
        self.end = put_digits_at(&mut self.buffer, self.end, number);
    }

    /// The sink behind; what is still held back is lost.
    pub fn into_inner(self) -> K
        ensures { result ≡ self.inner }
    {
        let BufferedSink {
            inner,
            buffer: _,
            start: _,
            end: _,
        } = self;
        inner
    }
}

/// Copies the bytes behind those up to `end`, and answers where they end.
#[inline(always)]
fn put_at(buffer: &mut [u8], end: usize, bytes: &[u8]) -> usize
    requires { end + length bytes.now ≤ length buffer.old }
    ensures end { result ≡ end + length bytes.now }
    ensures copied { take result buffer.new ≡ take end buffer.old ++ bytes.now }
{
    let after = end + bytes.len();
    buffer[end..after].copy_from_slice(bytes);
    after
}

/// Writes the digits of a number behind the bytes up to `end`, and answers where they end.
fn put_digits_at(buffer: &mut [u8], end: usize, number: u64) -> usize
    requires { end + 20 ≤ length buffer.old }
    ensures end { result ≡ end + length (decimal number) }
    ensures written { take result buffer.new ≡ take end buffer.old ++ decimal number }
{
    let after = end + digits_of(number);
    itoa::write_digits(number, buffer, after);
    after
}

/// How many digits a number has.
fn digits_of(number: u64) -> usize
    ensures { result ≡ length (decimal number) }
{
    let mut rest = number;
    let mut count = 0;
    while rest >= 10_000 {
        rest /= 10_000;
        count += 4;
    }
    count + few_digits_of(rest)
}

/// How many digits a number below 10,000 has.
fn few_digits_of(number: u64) -> usize
    requires { number < 10000 }
    ensures { result ≡ length (decimal number) }
{
    if number < 10 {
        return 1;
    }
    if number < 100 {
        return 2;
    }
    if number < 1_000 {
        return 3;
    }
    4
}

/// Copies as many of the bytes as there is room for behind those up to `end`, moves `end` on, and answers how many they
/// are.
fn gather(buffer: &mut [u8], end: &mut usize, bytes: &[u8]) -> usize
    requires { end.old ≤ length buffer.old }
    ensures count { result ≡ min (length bytes.now) (length buffer.old - end.old) }
    ensures end { end.new ≡ end.old + result }
    ensures copied { take end.new buffer.new ≡ take end.old buffer.old ++ take result bytes.now }
{
    let (_, room) = buffer.split_at_mut(*end);
    let n = bytes.len().min(room.len());
    room[..n].copy_from_slice(&bytes[..n]);
    *end += n;
    n
}

impl<K: Sink> Sink for BufferedSink<K> {
    ghost use Rattle.std.specs.Io.KnownBytes.{append_known};

    ghost taken = { λ s. append_known (K.taken s.inner) s.pending };

    ghost faults = { λ s. K.faults s.inner };

    /// Holds the bytes back, or as many as there is room for; where they don't fit behind those that are held back,
    /// these are given on first. `Failed` where that failed: nothing of `bytes` was taken then.
    fn write(&mut self, bytes: &[u8]) -> Put
        ensures bound { TakesSome result (length bytes.now) }
        ensures bytes { Takes (append_known (K.taken self.old.inner) self.old.pending)
            (append_known (K.taken self.new.inner) self.new.pending) result bytes.now }
        ensures later { K.faults self.old.inner ≤ K.faults self.new.inner }
        ensures cause { IsFailed result → Rose (K.faults self.old.inner) (K.faults self.new.inner) }
        ensures gathers { GathersPut (outbox K.taken K.faults self.old)
            (outbox K.taken K.faults self.new) result bytes.now }
    {
        if bytes.len() <= CAPACITY - self.end {
            return Put::Put(gather(&mut self.buffer, &mut self.end, bytes));
        }
        match self.flush() {
            Wrote::Fault => Put::Failed,
            Wrote::Done => Put::Put(gather(&mut self.buffer, &mut self.end, bytes)),
        }
    }
}
