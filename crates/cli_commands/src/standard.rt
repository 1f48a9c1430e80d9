//! Readers and writers of std as sources and sinks that count their errors.

ghost use Rattle.std.specs.Prelude.{◌≡◌, ◌≤◌, length};
ghost use Rattle.cli_commands.specs.Standard.{DeviceWithFaults};

use base_io::{Got, Put, Sink, Source};
use std::io::{Read, Write};
use std::marker::Model;

/// A reader as a source. It tells as left what the reader tells as remaining: nothing of standard input, all of a
/// reader in memory.
#[derive(Drop)]
pub struct ReaderSource<R> {
    reader: R,
    faults: u64,
}

impl<R> Model for ReaderSource<R> {
    ghost use Rattle.cli_commands.specs.Standard.{DeviceWithFaults};

    ghost Value = { DeviceWithFaults R };

    ghost view = { λ s. record { device = s.reader; faults = s.faults } };
}

impl<R: Read> ReaderSource<R> {
    /// A source before the reader's first error.
    pub fn new(reader: R) -> ReaderSource<R>
        ensures { let made : DeviceWithFaults R = record { device = reader; faults = 0 } in result ≡ made }
    {
        ReaderSource { reader, faults: 0 }
    }
}

impl<R: Read> Source for ReaderSource<R> {
    ghost left = { λ s. R.remaining s.device };

    ghost faults = { λ s. s.faults };

    /// One read of the reader; `Failed` exactly where that was an error.
    fn read(&mut self, buf: &mut [u8]) -> Got {
        match self.reader.read(buf) {
            Ok(n) => Got::Got(n),
            Err(_) => {
                self.faults = self.faults.saturating_add(1);
                Got::Failed
            }
        }
    }
}

/// A writer as a sink. It tells as taken what the writer tells as its contents: nothing of standard output, all of a
/// writer in memory.
#[derive(Drop)]
pub struct WriterSink<W> {
    writer: W,
    faults: u64,
}

impl<W> Model for WriterSink<W> {
    ghost use Rattle.cli_commands.specs.Standard.{DeviceWithFaults};

    ghost Value = { DeviceWithFaults W };

    ghost view = { λ s. record { device = s.writer; faults = s.faults } };
}

impl<W: Write> WriterSink<W> {
    /// A sink before the writer's first error.
    pub fn new(writer: W) -> WriterSink<W>
        ensures { let made : DeviceWithFaults W = record { device = writer; faults = 0 } in result ≡ made }
    {
        WriterSink { writer, faults: 0 }
    }
}

impl<W: Write> Sink for WriterSink<W> {
    ghost taken = { λ s. W.contents s.device };

    ghost faults = { λ s. s.faults };

    /// One write of the writer; `Failed` where that was an error, or took nothing of bytes that were there.
    fn write(&mut self, bytes: &[u8]) -> Put {
        match self.writer.write(bytes) {
            Ok(n) if 0 < n || bytes.is_empty() => Put::Put(n),
            _ => {
                self.faults = self.faults.saturating_add(1);
                Put::Failed
            }
        }
    }
}
