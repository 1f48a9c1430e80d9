//! What a node writes: its trace, and the line of its status.

ghost use Rattle.std.specs.Prelude.{◌≡◌, ℕ, ◌≤◌, ◌<◌, length, All, IfErr, IfOk};
ghost use Rattle.text_trace.specs.declared.output.Output.{Output as OutputState};
ghost use Rattle.text_trace.specs.OutputText.{OutputBegins, status_code};
ghost use Rattle.text_trace.specs.OutputReading.{GivesOutput, IsNear, ReadsOutput, output_at};
ghost use Rattle.text_trace.specs.OutputReading.{status_at, status_of};
ghost use Rattle.base_text.specs.declared.why.LineWhy.{LineWhy as Why};
ghost use Rattle.text_trace.specs.LineRefusals.{IsMeant, IsTold, Means};
ghost use Rattle.text_trace.specs.OutputRefusals.{output_kind};
ghost use Rattle.text_trace.specs.TraceRead.{GivesAt, Tells};
ghost use Rattle.base_io.specs.declared.spawner.TheConstants.{MAX_OUTPUT};

use crate::fault::TraceFault;
use crate::line_name::LineName;
use crate::reading::{entries_at, setting_at};
use crate::trace::Trace;
use crate::words::line_of;
use base_text::LineWhy;
use base_turns::Journal;
use std::alloc::Global;

/// The status with which a node ended, where it wrote its trace.
#[derive(Clone, Copy)]
pub enum NodeStatus {
    /// All its scripts are over, and it noted no violation.
    Ok,
    /// All its scripts are over, and it noted a violation.
    Violations,
    /// Its link failed.
    LinkFault,
    /// A script waits still.
    Stuck,
    /// Its journal is full.
    JournalFull,
}

impl NodeStatus {
    /// Its exit status: 0, 1, 6, 9 or 10.
    pub fn code(self) -> u8
        ensures { result ≡ status_code self }
    {
        match self {
            NodeStatus::Ok => 0,
            NodeStatus::Violations => 1,
            NodeStatus::LinkFault => 6,
            NodeStatus::Stuck => 9,
            NodeStatus::JournalFull => 10,
        }
    }
}

/// What a node wrote: its trace, and the status with which it ended.
#[derive(Drop)]
pub struct Output {
    /// Its trace.
    pub trace: Trace,
    /// The status with which it ended.
    pub status: NodeStatus,
}

/// Whose output is wanted.
#[derive(Clone, Copy)]
pub struct Wanted {
    /// The version of the trace's text.
    pub version: u8,
    /// How many threads the node has.
    pub threads: u16,
    /// The number of the job.
    pub job: u64,
    /// The number of the node.
    pub rank: u16,
}

/// The status of a line, without its ending byte.
#[tactic(auto, unfolding(crate::specs::OutputReading::status_of))]
fn status_of(line: &[u8]) -> Result<NodeStatus, LineWhy>
    ensures { Tells (λ s. s) result (status_of line.now) }
{
    if line == b"status 0 ok".as_slice() {
        return Ok(NodeStatus::Ok);
    }
    if line == b"status 1 violations".as_slice() {
        return Ok(NodeStatus::Violations);
    }
    if line == b"status 6 link-fault".as_slice() {
        return Ok(NodeStatus::LinkFault);
    }
    if line == b"status 9 stuck".as_slice() {
        return Ok(NodeStatus::Stuck);
    }
    if line == b"status 10 journal-full".as_slice() {
        return Ok(NodeStatus::JournalFull);
    }
    Err(LineWhy::Form)
}

/// The status of the next line, and the bytes after the line.
fn status_at(line: u32, bytes: &[u8]) -> Result<(NodeStatus, &[u8]), TraceFault>
    ensures value { GivesAt (λ x. (x.0, x.1.now)) result (status_at line bytes.now) }
    ensures shorter { IfOk result (λ x. length x.1.now < length bytes.now) }
{
    let (text, rest) = match line_of(bytes) {
        Ok(read) => read,
        Err(why) => return Err(TraceFault::Bad { line, why }),
    };
    match status_of(text) {
        Ok(status) => Ok((status, rest)),
        Err(why) => Err(TraceFault::Bad { line, why }),
    }
}

/// The output, and the bytes after it.
#[tactic(auto, unfolding(crate::specs::OutputReading::output_at))]
fn output_at(alloc: Global, bytes: &[u8], wanted: Wanted) -> Result<(Output, &[u8]), TraceFault>
    requires { length bytes.now ≤ MAX_OUTPUT }
    ensures value { GivesAt (λ x. (x.0, x.1.now)) result (output_at wanted bytes.now) }
    ensures within { IfOk result (λ x. length x.1.now ≤ length bytes.now) }
{
    let version = u64::from(wanted.version);
    let rank = u64::from(wanted.rank);
    let rest = match setting_at(1, LineName::Trace, version, version, bytes) {
        Ok((_, rest)) => rest,
        Err(fault) => return Err(fault),
    };
    let rest = match setting_at(2, LineName::Job, wanted.job, wanted.job, rest) {
        Ok((_, rest)) => rest,
        Err(fault) => return Err(fault),
    };
    let rest = match setting_at(3, LineName::Rank, rank, rank, rest) {
        Ok((_, rest)) => rest,
        Err(fault) => return Err(fault),
    };
    let (entries, rest) = match entries_at(alloc, wanted.threads, 4, rest) {
        Ok(read) => read,
        Err(fault) => return Err(fault),
    };
    let line = entries.len() as u32 + 5;
    let (status, rest) = match status_at(line, rest) {
        Ok(read) => read,
        Err(fault) => return Err(fault),
    };
    let trace = Trace {
        job: wanted.job,
        rank: wanted.rank,
        entries: Journal::of(entries),
    };
    Ok((Output { trace, status }, rest))
}

/// The output of the wanted node with which the bytes begin, and how many bytes it has: a trace, and the line of a
/// status with which a node ends that writes one.
///
/// # Errors
///
/// `Bad` exactly where the bytes begin with no such output, with the first bad line and the first reason that applies
/// to it: another job or rank is `Value` at its line, another last line `Form`. `NoMemory` where memory ran out.
pub fn read_output(
    alloc: Global,
    bytes: &[u8],
    wanted: Wanted,
) -> Result<(Output, usize), TraceFault>
    requires { length bytes.now ≤ MAX_OUTPUT }
    // What is read is an output with whose text the bytes begin,
    ensures found { IfOk result (λ x. OutputBegins wanted bytes.now x.0 x.1) }
    // and it is the only one: unless memory runs out, it is read.
    ensures only { (output : OutputState) (len : ℕ)
        → OutputBegins wanted bytes.now output len → GivesOutput output len result }
    // Its entries' threads are the job's, and there are fewer entries than bytes.
    ensures threads { IfOk result (λ x. All (λ e. e.thread < wanted.threads) x.0.trace.entries) }
    ensures few { IfOk result (λ x. length x.0.trace.entries < length bytes.now) }
    // What is told is the first bad line, and the first reason that applies to it.
    ensures exact { ReadsOutput (length bytes.now) result (output_at wanted bytes.now) }
    // What that means, apart from the reader.
    ensures meant { IfErr result (λ fault. IsMeant (output_kind wanted) bytes.now fault) }
    // What is so meant of a line is told: no text has two bad lines, and no line two reasons.
    ensures told { (line : ℕ) (why : Why) → Means (output_kind wanted) bytes.now line why
        → IsTold result line why }
    // That line is no further than the bytes.
    ensures near { IfErr result (λ fault. IsNear (length bytes.now) fault) }
{
    match output_at(alloc, bytes, wanted) {
        Ok((output, rest)) => Ok((output, bytes.len() - rest.len())),
        Err(fault) => Err(fault),
    }
}
