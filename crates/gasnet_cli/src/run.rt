//! A run of a command, whose streams are looked at.

use crate::progress::Progress;
use base_io::{Clock, Link, Spawner, Waiter};
use cli_commands::{Notes, Outside, run_streams};
use cli_report::{Command, WatchedReader, WatchedWriter};
use std::io::{self, Input, Print};
use std::process::ExitCode;
use std::sync::Wait;
use std::thread::Threads;

/// What a run has behind its streams and its link.
#[derive(Drop)]
pub struct Behind<'a, P, C, G> {
    /// The spawner of a job's nodes.
    pub spawner: P,
    /// The clock of a node.
    pub clock: C,
    /// The waiter of its threads.
    pub waiter: G,
    /// What the run is at.
    pub progress: &'a Progress,
}

/// Does what the command's words say, over standard input and standard output, and gives the
/// spawner back.
pub fn run<
    H: AllocGlobal + Input + Print + Threads + Wait + Sync,
    L: Link + Send + Drop,
    P: Spawner,
    C: Clock + Send + Drop,
    G: Waiter + Sync + Drop,
    N: Notes,
>(
    rt: &H,
    command: &mut Command,
    link: L,
    behind: Behind<'_, P, C, G>,
    notes: &mut N,
) -> (ExitCode, P) {
    let Behind {
        spawner,
        clock,
        waiter,
        progress,
    } = behind;
    let (input, output, whole) = (&mut command.input, &mut command.output, command.steps);
    let streams = Outside {
        source: WatchedReader::new(rt.reader(), input, progress),
        sink: WatchedWriter::new(io::writer(rt), output, whole, progress),
        link,
        spawner,
        clock,
        waiter,
    };
    let (code, after) = run_streams(rt, rt.alloc(), &command.words, streams, notes);
    let Outside { spawner, .. } = after;
    (code, spawner)
}
