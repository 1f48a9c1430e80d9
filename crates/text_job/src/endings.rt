//! Reading the end of a job: its schedule, and the line `done`.

ghost use Rattle.std.specs.Prelude.{◌≡◌, ◌≤◌, ◌+◌, None};
ghost use Rattle.text_job.specs.Places.{AtDone, Over, done_at};
ghost use Rattle.text_job.specs.JobReading.{State, item_of_line, job_of_head, leading_job, behind_scripts};
ghost use Rattle.text_job.specs.JobReading.{read};
ghost use Rattle.base_text.specs.Found.{Finds};
ghost use Rattle.text_job.specs.Reading.{GivesAt, Continues};
ghost use Rattle.text_job.specs.declared.job.Job.{Job as JobState};

use crate::fault::JobFault;
use crate::forms::JobForm;
use crate::job::{HandlerTexts, Head, Job, NodeScripts};
use crate::schedules::schedule_at;
use base_text::{Other, ended, name_of, reason_of};
use std::alloc::Global;
use text_calls::Scope;

/// The job of a head and these handlers and scripts, without a schedule.
pub fn job_with(head: Head, handlers: HandlerTexts, scripts: NodeScripts) -> Job
    ensures { result ≡ record (job_of_head head) { handlers = handlers; scripts = scripts } }
{
    Job {
        settings: head.settings,
        patience: head.patience,
        sieve: head.sieve,
        atomics: head.atomics,
        collect: head.collect,
        handlers,
        scripts,
        schedule: None,
    }
}

/// The bytes after the line `done`.
fn done_at(bytes: &[u8]) -> Result<&[u8], Other>
    ensures { Finds (λ rest. (tt, rest.now)) result (item_of_line done_at bytes.now) }
{
    let (word, rest) = name_of(bytes);
    if !JobForm::Done.has_name(word) {
        return Err(Other);
    }
    ended(rest)
}

/// The bytes after the line `done`, or why it isn't there.
fn done_line(line: u32, bytes: &[u8]) -> Result<&[u8], JobFault>
    requires { line ≤ 30000000 }
    ensures { (job : JobState) → Continues (λ rest. read (record { place = Over; job = job })
        (line + 1) rest.now) result (read (record { place = AtDone; job = job }) line
        bytes.now) }
{
    match done_at(bytes) {
        Ok(rest) => Ok(rest),
        Err(Other) => {
            let why = reason_of(false, bytes);
            Err(JobFault::Bad { line, why })
        }
    }
}

/// The job, with the schedule that comes next, if one does, and the number of the line behind its last one with the
/// bytes from there on.
pub fn tail_at(
    alloc: Global,
    job: Job,
    schedule: bool,
    line: u32,
    bytes: &[u8],
) -> Result<(Job, u32, &[u8]), JobFault>
    requires line { line ≤ 20000000 }
    requires none { job.schedule ≡ None }
    ensures { GivesAt (λ x. leading_job x.0 x.1 x.2.now) result
        (read (behind_scripts schedule job) line bytes.now) }
{
    if !schedule {
        return Ok((job, line, bytes));
    }
    let scope = Scope {
        settings: job.settings,
        atomics: job.atomics,
        collect: job.collect.is_some(),
    };
    let before = job.scripts.pieces();
    let (lines, line, rest) = match schedule_at(alloc, &scope, before, line, bytes) {
        Ok(read) => read,
        Err(fault) => return Err(fault),
    };
    let rest = match done_line(line, rest) {
        Ok(rest) => rest,
        Err(fault) => return Err(fault),
    };
    let job = Job {
        schedule: Some(lines),
        ..job
    };
    Ok((job, line + 1, rest))
}
