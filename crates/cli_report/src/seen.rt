//! Streams whose bytes are looked at as they go by.

ghost use Rattle.std.specs.Prelude.{◌≡◌, ◌==◌, ℕ, true, false, [], None, count_by};
ghost use Rattle.cli_report.specs.Progress.{AreCounted};
ghost use Rattle.cli_report.specs.declared.progress.Counter.{Counter};
ghost use Rattle.cli_report.specs.Seen.{KeepsAll, KeepsEnd, KeepsPrefix};

use crate::progress::{Counted, Counter};
use std::alloc::Global;
use std::io;
use std::io::{Read, Write};

/// The most bytes of the input that are kept.
pub(crate) const MOST_INPUT: usize = 8_388_608;

/// So many bytes of the end of the output are enough, where not all of it is kept. A status line
/// has far fewer.
const END: usize = 4_096;

/// Counts the bytes that go by, and the nodes that are started and finished.
pub trait Counts {
    /// How many were found to be counted.
    ghost counted: { Self → Counter → ℕ → Type 0 };

    /// Whether lines are counted.
    fn counts_lines(&self) -> bool;

    /// Adds so many to what is counted.
    fn add(&self, counter: Counter, by: u64);

    /// How many were counted.
    fn count(&self, counter: Counter) -> u64
        ensures { counted self.now counter result };
}

/// What was counted.
pub fn counts_of<C: Counts>(counts: &C) -> Counted
    ensures { AreCounted (C.counted counts.now) result }
{
    Counted {
        read: counts.count(Counter::Read),
        lines: counts.count(Counter::Lines),
        started: counts.count(Counter::Started),
        ended: counts.count(Counter::Ended),
    }
}

/// How many lines end in these bytes.
fn lines_in(bytes: &[u8]) -> u64
    ensures { result ≡ count_by (λ byte. byte == 10) bytes.now }
{
    bytes.iter().filter(|byte| **byte == b'\n').count() as u64
}

/// What went by in a stream.
#[derive(Drop)]
pub struct Seen {
    /// The bytes that are kept: the beginning of what was read, the end of what was written, or all of
    /// it.
    pub bytes: Vec<u8>,
    /// Whether what is read is kept; it isn't where it can be read again.
    pub keeps: bool,
    /// The system's number of the error by which the stream failed, where it has one.
    pub fault: Option<i32>,
    /// Whether the stream failed.
    pub failed: bool,
}

impl Seen {
    /// Nothing yet of a stream whose bytes are kept or not.
    pub(crate) fn new(alloc: Global, keeps: bool) -> Seen
        ensures bytes { result.bytes.items ≡ [] }
        ensures keeps { result.keeps ≡ keeps }
        ensures fault { result.fault ≡ None }
        ensures failed { result.failed ≡ false }
    {
        Seen {
            bytes: Vec::new(alloc),
            keeps,
            fault: None,
            failed: false,
        }
    }

    /// Keeps the first bytes, unless there are too many of them, or memory runs out: then none.
    fn keep_prefix(&mut self, bytes: &[u8])
        ensures bytes { KeepsPrefix self.old.keeps self.old.bytes.items bytes.now
            self.new.bytes.items }
        ensures keeps { self.new.keeps ≡ self.old.keeps }
        ensures fault { self.new.fault ≡ self.old.fault }
        ensures failed { self.new.failed ≡ self.old.failed }
    {
        if self.keeps
            && self.bytes.len() < MOST_INPUT
            && self.bytes.extend_from_slice(bytes).is_err()
        {
            self.bytes.clear();
        }
    }

    /// Keeps the end of what went by: these bytes, and as many before them as there is room for.
    fn keep_end(&mut self, bytes: &[u8])
        ensures bytes { KeepsEnd self.old.bytes.items bytes.now self.new.bytes.items }
        ensures keeps { self.new.keeps ≡ self.old.keeps }
        ensures fault { self.new.fault ≡ self.old.fault }
        ensures failed { self.new.failed ≡ self.old.failed }
    {
        if self.bytes.len() >= END || bytes.len() >= END {
            self.bytes.clear();
        }
        let (_, end) = bytes.split_at(bytes.len().saturating_sub(END));
        let _ = self.bytes.extend_from_slice(end);
    }

    /// Keeps all of what went by, unless memory runs out: then what went by before.
    fn keep_all(&mut self, bytes: &[u8])
        ensures bytes { KeepsAll self.old.bytes.items bytes.now self.new.bytes.items }
        ensures keeps { self.new.keeps ≡ self.old.keeps }
        ensures fault { self.new.fault ≡ self.old.fault }
        ensures failed { self.new.failed ≡ self.old.failed }
    {
        let _ = self.bytes.extend_from_slice(bytes);
    }

    /// Keeps why the stream failed.
    fn fail(&mut self, error: &io::Error)
        ensures bytes { self.new.bytes.items ≡ self.old.bytes.items }
        ensures keeps { self.new.keeps ≡ self.old.keeps }
        ensures failed { self.new.failed ≡ true }
    {
        self.failed = true;
        self.fault = error.raw_os_error();
    }
}

/// A reader whose bytes are kept.
#[derive(Drop)]
pub struct WatchedReader<'a, R, C> {
    reader: R,
    seen: &'a mut Seen,
    counts: &'a C,
}

impl<'a, R: Read, C: Counts> WatchedReader<'a, R, C> {
    /// This reader, whose bytes are kept there.
    pub fn new(reader: R, seen: &'a mut Seen, counts: &'a C) -> WatchedReader<'a, R, C>
        ensures { result.reader ≡ reader }
    {
        WatchedReader {
            reader,
            seen,
            counts,
        }
    }
}

impl<R: Read, C: Counts> Read for WatchedReader<'_, R, C> {
    ghost remaining = { λ s. R.remaining s.reader };

    fn read(&mut self, buf: &mut [u8]) -> io::Result<usize> {
        match self.reader.read(buf) {
            Ok(len) => {
                let (bytes, _) = buf.split_at(len);
                self.seen.keep_prefix(bytes);
                self.counts.add(Counter::Read, len as u64);
                Ok(len)
            }
            Err(error) => {
                self.seen.fail(&error);
                Err(error)
            }
        }
    }
}

/// A writer whose bytes are kept.
#[derive(Drop)]
pub struct WatchedWriter<'a, W, C> {
    writer: W,
    seen: &'a mut Seen,
    whole: bool,
    counts: &'a C,
}

impl<'a, W: Write, C: Counts> WatchedWriter<'a, W, C> {
    /// This writer, whose bytes are kept there, all or the last of them.
    pub fn new(writer: W, seen: &'a mut Seen, whole: bool, counts: &'a C) -> WatchedWriter<'a, W, C>
        ensures { result.writer ≡ writer }
    {
        WatchedWriter {
            writer,
            seen,
            whole,
            counts,
        }
    }
}

impl<W: Write, C: Counts> Write for WatchedWriter<'_, W, C> {
    ghost contents = { λ s. W.contents s.writer };

    fn write(&mut self, buf: &[u8]) -> io::Result<usize> {
        match self.writer.write(buf) {
            Ok(len) => {
                let (bytes, _) = buf.split_at(len);
                if self.whole {
                    self.seen.keep_all(bytes);
                } else {
                    self.seen.keep_end(bytes);
                }
                if self.counts.counts_lines() {
                    self.counts.add(Counter::Lines, lines_in(bytes));
                }
                Ok(len)
            }
            Err(error) => {
                self.seen.fail(&error);
                Err(error)
            }
        }
    }

    fn flush(&mut self) -> io::Result<()> {
        self.writer.flush()
    }
}
