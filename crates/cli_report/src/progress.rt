//! What is shown of what a command is at.

ghost use Rattle.std.specs.Prelude.{◌≡◌, ◌<◌, IfOk, string_bytes};
ghost use Rattle.cli_report.specs.Progress.{counter_place, is_shown_at, nodes_told, progress_line, streams_told};

use std::alloc::{AllocError, Global};

/// What a command did so far.
#[derive(Clone, Copy)]
pub struct Counted {
    /// The bytes that it read.
    pub read: u64,
    /// The lines that it wrote.
    pub lines: u64,
    /// The nodes that it started.
    pub started: u64,
    /// Those of them that have ended.
    pub ended: u64,
}

/// What of a command is counted.
#[derive(Clone, Copy)]
pub enum Counter {
    /// The bytes that it read.
    Read,
    /// The lines that it wrote.
    Lines,
    /// The nodes that it started.
    Started,
    /// Those of them that have ended.
    Ended,
}

impl Counter {
    /// Its place among the four, from 0 on.
    pub fn place(self) -> usize
        ensures place { result ≡ counter_place self }
        ensures within { result < 4 }
    {
        match self {
            Counter::Read => 0,
            Counter::Lines => 1,
            Counter::Started => 2,
            Counter::Ended => 3,
        }
    }
}

/// Whether a line is shown at a look, of which there are 10 a second: each second, from the second
/// one on.
pub fn is_shown_at(look: u64) -> bool
    ensures { result ≡ is_shown_at look }
{
    look >= 20 && look % 10 == 0
}

/// What is read and written after so many seconds.
#[tactic(auto, unfolding(crate::specs::Progress::streams_told))]
fn streams_told(alloc: Global, seconds: u64, read: u64, lines: u64) -> Result<String, AllocError>
    ensures { IfOk result (λ text. string_bytes text ≡ streams_told seconds read lines) }
{
    format!(in alloc; "gasnet_cli: {seconds} s, read {read} bytes, wrote {lines} lines")
}

/// The nodes that were started and that have ended, if any was started.
#[tactic(auto, unfolding(crate::specs::Progress::nodes_told))]
fn nodes_told(alloc: Global, started: u64, ended: u64) -> Result<String, AllocError>
    ensures { IfOk result (λ text. string_bytes text ≡ nodes_told started ended) }
{
    if started == 0 {
        return Ok(String::new(alloc));
    }
    format!(in alloc; ", {started} nodes started, {ended} finished")
}

/// The line after so many seconds, over the one before it.
///
/// # Errors
///
/// `AllocError` where memory ran out.
pub fn progress_line(alloc: Global, seconds: u64, counted: Counted) -> Result<String, AllocError>
    ensures { IfOk result (λ text. string_bytes text ≡ progress_line seconds counted) }
{
    let Counted {
        read,
        lines,
        started,
        ended,
    } = counted;
    let streams = streams_told(alloc, seconds, read, lines)?;
    let nodes = nodes_told(alloc, started, ended)?;
    let (first, second) = (streams.as_str(), nodes.as_str());
    format!(in alloc; "\r{first}{second}\x1b[K")
}
