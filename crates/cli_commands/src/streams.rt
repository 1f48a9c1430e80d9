//! The top call over a reader and a writer of std, and the words of a command line.

ghost use Rattle.std.specs.Prelude.{◌≡◌, IfOk, drop, map, string_bytes};
ghost use Rattle.std.specs.Process.{exit_status};
ghost use Rattle.std.specs.Vec.Iter.{into_iter_items};
ghost use Rattle.cli_commands.specs.declared.ending.Given.{Given};
ghost use Rattle.cli_commands.specs.Standard.{streams_seen, before_faults};
ghost use Rattle.cli_commands.specs.Outsides.{call_between};
ghost use Rattle.cli_commands.specs.Told.{AreTold};
ghost use Rattle.cli_commands.specs.TopCall.{IsComplete, LeavesAlone, StatusMeans};

use crate::outside::Outside;
use crate::standard::{ReaderSource, WriterSink};
use crate::top::gasnet;
use base_io::{Clock, Link, Spawner, Waiter};
use cli_launch::Notes;
use std::alloc::{AllocError, Global};
use std::env::Args;
use std::io::{self, ErrorKind, Read, Write};
use std::process::ExitCode;
use std::sync::Wait;
use std::thread::Threads;

/// The top call over a reader and a writer of std, with the exit status that the program ends with.
///
/// Where the reader tells what remains and the writer what it holds, as those in memory do, `means` says which bytes
/// were read and written; standard input and output tell nothing.
pub fn run_streams<
    H: Threads + Wait + Sync,
    R: Read,
    W: Write + Send,
    L: Link + Send,
    P: Spawner,
    C: Clock + Send,
    G: Waiter + Sync,
    N: Notes,
>(
    rt: &H,
    alloc: Global,
    words: &[String],
    streams: Outside<R, W, L, P, C, G>,
    notes: &mut N,
) -> (
    ExitCode,
    Outside<ReaderSource<R>, WriterSink<W>, L, P, C, G>,
)
    ensures means { (given : Given) × StatusMeans (call_between
        (streams_seen R.remaining W.contents L.Link P.Spawner C.Clock)
        (map string_bytes words.now) (before_faults streams) result.1 given)
        (exit_status result.0) }
    ensures complete { (given : Given) × IsComplete (call_between
        (streams_seen R.remaining W.contents L.Link P.Spawner C.Clock)
        (map string_bytes words.now) (before_faults streams) result.1 given)
        (exit_status result.0) }
    ensures leaves { (given : Given) × LeavesAlone (call_between
        (streams_seen R.remaining W.contents L.Link P.Spawner C.Clock)
        (map string_bytes words.now) (before_faults streams) result.1 given) }
{
    let Outside {
        source,
        sink,
        link,
        spawner,
        clock,
        waiter,
    } = streams;
    let outside = Outside {
        source: ReaderSource::new(source),
        sink: WriterSink::new(sink),
        link,
        spawner,
        clock,
        waiter,
    };
    let (status, after) = gasnet(rt, alloc, words, outside, notes);
    (ExitCode::from(status.into_code()), after)
}

/// All texts but the first.
///
/// # Errors
///
/// `AllocError` where memory ran out.
fn after_first(alloc: Global, told: Args) -> Result<Vec<String>, AllocError>
    ensures { IfOk result (λ words. words.items ≡ drop 1 (into_iter_items told)) }
{
    told.skip(1).collect(alloc)
}

/// The words of a call, by what the command line told: without the program's name, none where they are no text.
///
/// # Errors
///
/// `AllocError` where memory ran out.
pub fn words_of(alloc: Global, told: io::Result<Args>) -> Result<Vec<String>, AllocError>
    ensures { AreTold told result }
{
    match told {
        Ok(told) => after_first(alloc, told),
        Err(error) if error.kind() == ErrorKind::OutOfMemory => Err(AllocError),
        Err(_) => Ok(Vec::new(alloc)),
    }
}
