//! Reading the input of a check.

ghost use Rattle.std.specs.Prelude.{◌≡◌, ◌≤◌, MatchResult, length};
ghost use Rattle.text_trace.specs.OutputReading.{IsNear};
ghost use Rattle.cli_check.specs.CheckInputs.{IsInput, IsRefused, IsUnread, TakesInput};
ghost use Rattle.cli_check.specs.CheckInputs.{ReadsOutputs, OutputsOf, fault_behind};
ghost use Rattle.cli_check.specs.CheckInputs.{lines_in, wanted_of};
ghost use Rattle.base_io.specs.declared.spawner.TheConstants.{MAX_OUTPUT};

use base_io::{MAX_OUTPUT, ReadAll, Source, read_all};
use base_text::LineWhy;
use std::alloc::Global;
use std::fmt;
use text_job::{Job, JobFault, read_job_prefix};
use text_trace::{Output, TraceFault, Wanted, read_output};

/// The most bytes of an input: as many as the output of a child may have.
pub const LIMIT: usize = MAX_OUTPUT;

/// A job, and what each of its nodes wrote.
#[derive(Drop)]
pub struct CheckInput {
    /// The job.
    pub job: Job,
    /// The output of each node, in rising order of ranks.
    pub outputs: Vec<Output>,
}

/// Why no input was read.
#[derive(Clone, Copy, Drop)]
pub enum InputFault {
    /// The bytes are no job's text with an output of each of its nodes behind it, or too many.
    Bad {
        /// The first bad line, counted from 1 over the whole input; 0 for its size or that of the job's text.
        line: u32,
        /// The first reason that applies to it.
        why: LineWhy,
    },
    /// The source failed.
    ReadFault,
    /// Memory ran out.
    NoMemory,
}

impl fmt::Display for InputFault {
    fn fmt<W: fmt::Write>(&self, f: &mut fmt::Formatter<W>) -> fmt::Result {
        match *self {
            InputFault::Bad { line, why: _ } => write!(f, "line {line} is bad"),
            InputFault::ReadFault => write!(f, "the source failed"),
            InputFault::NoMemory => write!(f, "no memory"),
        }
    }
}

/// How many lines end in the bytes.
fn lines_in(bytes: &[u8]) -> usize
    ensures is { result ≡ lines_in bytes.now }
    ensures few { result ≤ length bytes.now }
{
    bytes.iter().filter(|byte| **byte == b'\n').count()
}

/// The fault of an output behind these bytes.
fn fault_behind(before: &[u8], fault: TraceFault) -> InputFault
    requires few { length before.now ≤ MAX_OUTPUT }
    requires near { IsNear MAX_OUTPUT fault }
    ensures { result ≡ fault_behind before.now fault }
{
    match fault {
        TraceFault::Bad { line, why } => InputFault::Bad {
            line: lines_in(before) as u32 + line,
            why,
        },
        TraceFault::NoMemory => InputFault::NoMemory,
    }
}

/// The node of this rank of the job, as that whose output is wanted.
pub fn wanted_of(job: &Job, rank: u16) -> Wanted
    ensures { result ≡ wanted_of job.now rank }
{
    Wanted {
        version: job.settings.version(),
        threads: job.settings.threads(),
        job: job.settings.job(),
        rank,
    }
}

/// The outputs of the job's nodes, which begin at this place of the bytes, and where they end.
fn outputs_from(
    alloc: Global,
    job: &Job,
    bytes: &[u8],
    from: usize,
) -> Result<(Vec<Output>, usize), InputFault>
    requires few { length bytes.now ≤ MAX_OUTPUT }
    requires from { from ≤ length bytes.now }
    ensures { ReadsOutputs (record { job = job.now; bytes = bytes.now; from = from }) result }
{
    let mut outputs = Vec::new(alloc);
    let mut at = from;
    for rank in 0..job.settings.nodes() {
        let (before, rest) = bytes.split_at(at);
        let (output, len) = match read_output(alloc, rest, wanted_of(job, rank)) {
            Ok(read) => read,
            Err(fault) => return Err(fault_behind(before, fault)),
        };
        let Ok(()) = outputs.push(output) else {
            return Err(InputFault::NoMemory);
        };
        at += len;
    }
    Ok((outputs, at))
}

/// The input that the bytes are.
pub fn input_of(alloc: Global, bytes: &[u8]) -> Result<CheckInput, InputFault>
    requires { length bytes.now ≤ MAX_OUTPUT }
    ensures { MatchResult result (λ input. IsInput bytes.now input.job input.outputs.items)
        (IsRefused bytes.now) }
{
    let (job, from) = match read_job_prefix(alloc, bytes) {
        Ok(prefix) => prefix,
        Err(JobFault::Bad { line, why }) => return Err(InputFault::Bad { line, why }),
        Err(JobFault::NoMemory) => return Err(InputFault::NoMemory),
    };
    let (outputs, end) = outputs_from(alloc, &job, bytes, from)?;
    if end < bytes.len() {
        let (read, _) = bytes.split_at(end);
        let line = lines_in(read) as u32 + 1;
        let why = LineWhy::After;
        return Err(InputFault::Bad { line, why });
    }
    Ok(CheckInput { job, outputs })
}

/// Reads all, and the input that it is: a job, and what each of its nodes wrote, in rising order of ranks.
///
/// # Errors
///
/// `Bad` exactly where the bytes are no such input or more than 67,108,864, with the first bad line and the first
/// reason that applies to it; `ReadFault` only where the source's count of faults rose, or stands at its last value;
/// `NoMemory` where memory ran out.
pub fn read_input<S: Source>(alloc: Global, source: &mut S) -> Result<CheckInput, InputFault>
    ensures { MatchResult result
        (λ input. TakesInput (S.left source.old) (S.left source.new) input.job input.outputs.items)
        (IsUnread (S.left source.old) (S.left source.new) (S.faults source.old)
        (S.faults source.new)) }
{
    match read_all(alloc, source, LIMIT) {
        ReadAll::Bytes(bytes) => input_of(alloc, &bytes),
        ReadAll::TooLong => Err(InputFault::Bad {
            line: 0,
            why: LineWhy::Size,
        }),
        ReadAll::Fault => Err(InputFault::ReadFault),
        ReadAll::NoMemory => Err(InputFault::NoMemory),
    }
}
