//! Reading the output of a child to its end.

ghost use Rattle.proc_linux.specs.Children.{DrainsAll};

use crate::output::Output;
use base_io::{Got, MAX_OUTPUT, ReadAll, Source, read_all};
use std::alloc::Global;
use std::io::Read;

/// What reading a child's output to its end gave.
#[derive(Drop)]
pub enum Drained {
    /// All of it.
    Bytes(Output),
    /// It is too long, or couldn't be read.
    Fault,
    /// Memory ran out.
    NoMemory,
}

/// The output of a child as a source, which tells as left what its pipe tells as remaining.
#[derive(Drop)]
struct OutputSource<O> {
    pipe: O,
    faults: u64,
}

impl<O: Read> Source for OutputSource<O> {
    ghost left = { λ s. O.remaining s.pipe };

    ghost faults = { λ s. s.faults };

    /// One read of the pipe.
    fn read(&mut self, buf: &mut [u8]) -> Got {
        match self.pipe.read(buf) {
            Ok(len) => Got::Got(len),
            Err(_) => {
                self.faults = self.faults.saturating_add(1);
                Got::Failed
            }
        }
    }
}

/// Reads the output of a child to its end, and closes the pipe.
pub fn drain<O: Read + Drop>(alloc: Global, pipe: O) -> Drained
    ensures { DrainsAll (O.remaining pipe) result }
{
    let mut source = OutputSource { pipe, faults: 0 };
    match read_all(alloc, &mut source, MAX_OUTPUT) {
        ReadAll::Bytes(bytes) => Drained::Bytes(Output::new(bytes)),
        ReadAll::NoMemory => Drained::NoMemory,
        ReadAll::TooLong | ReadAll::Fault => Drained::Fault,
    }
}
