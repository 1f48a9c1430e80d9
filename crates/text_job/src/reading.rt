//! Reading a job.

ghost use Rattle.std.specs.Prelude.{◌≡◌, ◌⊎◌, ℕ, IfOk, IfErr};
ghost use Rattle.text_job.specs.JobText.{BeginsWith, JobText};
ghost use Rattle.text_job.specs.Refusals.{PrefixMeans, IsBadPrefix, IsBadLine, IsPrefixMeant, IsMeant};
ghost use Rattle.text_job.specs.Refusals.{IsNoMemory, IsTold, Means};
ghost use Rattle.base_text.specs.declared.why.LineWhy.{LineWhy as Why};
ghost use Rattle.text_job.specs.declared.job.Job.{Job as JobState};
ghost use Rattle.text_job.specs.JobReading.{prefix_of, leading_job, job_of, read, start};
ghost use Rattle.text_job.specs.Reading.{GivesAt};

use crate::collect_line::services_from;
use crate::endings::{job_with, tail_at};
use crate::fault::JobFault;
use crate::handler_lines::handlers_at;
use crate::head::head_at;
use crate::head_scope::scope_of;
use crate::job::Job;
use crate::pair_lines::pairs_at;
use crate::script_lines::scripts_at;
use base_text::LineWhy;
use std::alloc::Global;

/// The most bytes of a job's text.
pub const MAX_JOB_BYTES: usize = 4_194_304;

/// The job with whose text the bytes begin, the number of the line behind it, and the bytes from there on.
fn prefix_at(alloc: Global, bytes: &[u8]) -> Result<(Job, u32, &[u8]), JobFault>
    ensures { GivesAt (λ x. leading_job x.0 x.1 x.2.now) result (read start 1 bytes.now) }
{
    let (head, rest) = match head_at(bytes) {
        Ok(read) => read,
        Err(fault) => return Err(fault),
    };
    let (head, line, rest) = match pairs_at(head, rest) {
        Ok(read) => read,
        Err(fault) => return Err(fault),
    };
    let (head, line, rest) = match services_from(head, line, rest) {
        Ok(read) => read,
        Err(fault) => return Err(fault),
    };
    let scope = scope_of(&head);
    let (handlers, line, rest) = match handlers_at(alloc, &scope, line, rest) {
        Ok(read) => read,
        Err(fault) => return Err(fault),
    };
    let (scripts, schedule, line, rest) = match scripts_at(alloc, &scope, line, rest) {
        Ok(read) => read,
        Err(fault) => return Err(fault),
    };
    tail_at(
        alloc,
        job_with(head, handlers, scripts),
        schedule,
        line,
        rest,
    )
}

/// The job whose text the bytes are, by its lines.
fn job_at(alloc: Global, bytes: &[u8]) -> Result<Job, JobFault>
    ensures { GivesAt (λ j. j) result (job_of bytes.now) }
{
    if bytes.len() > MAX_JOB_BYTES {
        let (line, why) = (0, LineWhy::Size);
        return Err(JobFault::Bad { line, why });
    }
    let (job, line, rest) = match prefix_at(alloc, bytes) {
        Ok(read) => read,
        Err(fault) => return Err(fault),
    };
    if !rest.is_empty() {
        drop(job);
        let why = LineWhy::After;
        return Err(JobFault::Bad { line, why });
    }
    Ok(job)
}

/// The job with whose text the bytes begin, by its lines, and the size of the text.
fn sized_job_at(alloc: Global, bytes: &[u8]) -> Result<(Job, usize), JobFault>
    ensures { GivesAt (λ x. x) result (prefix_of bytes.now) }
{
    let (job, _, rest) = match prefix_at(alloc, bytes) {
        Ok(read) => read,
        Err(fault) => return Err(fault),
    };
    let size = bytes.len() - rest.len();
    if size > MAX_JOB_BYTES {
        drop(job);
        let (line, why) = (0, LineWhy::Size);
        return Err(JobFault::Bad { line, why });
    }
    Ok((job, size))
}

/// The job whose text the bytes are.
///
/// # Errors
///
/// `NoMemory` where memory ran out, else `Bad` exactly where the bytes are no job's text, with the first bad line and
/// the first reason that applies to it.
pub fn read_job(alloc: Global, bytes: &[u8]) -> Result<Job, JobFault>
    // What is read has these bytes as its text.
    ensures found { IfOk result (λ job. JobText job bytes.now) }
    // It is the one job that has them.
    ensures one { IfOk result (λ job. (other : JobState) → JobText other bytes.now → other ≡ job) }
    // What is told is the first bad line, and the first reason that applies to it.
    ensures bad { IfErr result (λ fault. IsNoMemory fault ⊎ IsBadLine bytes.now fault) }
    // What that means, apart from the reader.
    ensures meant { IfErr result (λ fault. IsMeant bytes.now fault) }
    // What is so meant of a line is told: no text has two bad lines, and no line two reasons.
    ensures told { (line : ℕ) (why : Why) → Means bytes.now line why → IsTold result line why }
    // Where no job is read, no job has these bytes as its text, unless memory ran out.
    ensures none { IfErr result (λ fault.
        IsNoMemory fault ⊎ ((job : JobState) → JobText job bytes.now → ⊥)) }
{
    job_at(alloc, bytes)
}

/// The job with whose text the bytes begin, and how many bytes the text has. Any bytes may stand behind it.
///
/// # Errors
///
/// `NoMemory` where memory ran out, else `Bad` exactly where the bytes begin with no job's text: with the first bad
/// line of the job and the first reason that applies to it, or `Size` for line 0 where they begin with the text of a
/// job that is good, but too long. `After` never comes.
pub fn read_job_prefix(alloc: Global, bytes: &[u8]) -> Result<(Job, usize), JobFault>
    // The bytes begin with the text of what is read, which has this size.
    ensures found { IfOk result (λ x. BeginsWith x.0 x.1 bytes.now) }
    // It is the one job with whose text they begin.
    ensures one { IfOk result (λ x. (other : JobState) (size : ℕ) → BeginsWith other size bytes.now
        → (other ≡ x.0) × (size ≡ x.1)) }
    // What is told is the first bad line, and the first reason that applies to it.
    ensures bad { IfErr result (λ fault. IsNoMemory fault ⊎ IsBadPrefix bytes.now fault) }
    // What that means, apart from the reader.
    ensures meant { IfErr result (λ fault. IsPrefixMeant bytes.now fault) }
    // What is so meant of a line is told: no job has two bad lines, and no line two reasons.
    ensures told { (line : ℕ) (why : Why) → PrefixMeans bytes.now line why → IsTold result line why }
    // Where no job is read, the bytes begin with no job's text, unless memory ran out.
    ensures none { IfErr result (λ fault. IsNoMemory fault ⊎
        ((job : JobState) (size : ℕ) → BeginsWith job size bytes.now → ⊥)) }
{
    sized_job_at(alloc, bytes)
}
