//! Reading a job, of the commands that read one.

ghost use Rattle.cli_commands.specs.Outsides.{reading_over};
ghost use Rattle.cli_commands.specs.TopParts.{ReadsOrNot, ReadsTextOrNot};

use crate::ending::CommandEnd;
use base_io::{ReadAll, Source, read_all};
use base_text::LineWhy;
use std::alloc::Global;
use text_job::{Job, JobFault, MAX_JOB_BYTES, read_job};

/// A job, and the bytes that are its text.
#[derive(Drop)]
pub struct JobRead {
    /// The job.
    pub job: Job,
    /// The bytes.
    pub bytes: Vec<u8>,
}

/// Reads all, and the job whose text it is. Else how the command ends: the bytes are no job's text or too many, the
/// source failed, or memory ran out.
pub fn text_from<S: Source>(alloc: Global, source: &mut S) -> Result<JobRead, CommandEnd>
    ensures { ReadsTextOrNot (reading_over S.left S.faults source.old source.new) result }
{
    match read_all(alloc, source, MAX_JOB_BYTES) {
        ReadAll::Bytes(bytes) => match read_job(alloc, &bytes) {
            Ok(job) => Ok(JobRead { job, bytes }),
            Err(JobFault::Bad { line, why }) => Err(CommandEnd::BadJob { line, why }),
            Err(JobFault::NoMemory) => Err(CommandEnd::NoMemory),
        },
        ReadAll::TooLong => Err(CommandEnd::BadJob {
            line: 0,
            why: LineWhy::Size,
        }),
        ReadAll::Fault => Err(CommandEnd::ReadFault),
        ReadAll::NoMemory => Err(CommandEnd::NoMemory),
    }
}

/// The same without the bytes.
pub fn job_from<S: Source>(alloc: Global, source: &mut S) -> Result<Job, CommandEnd>
    ensures { ReadsOrNot (reading_over S.left S.faults source.old source.new) result }
{
    match text_from(alloc, source) {
        Ok(read) => Ok(read.job),
        Err(end) => Err(end),
    }
}
