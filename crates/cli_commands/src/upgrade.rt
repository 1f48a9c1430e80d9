//! The command `upgrade`.

ghost use Rattle.base_io.specs.Buffered.{outbox};
ghost use Rattle.text_job.specs.JobText.{IsJob};
ghost use Rattle.cli_commands.specs.JobReads.{GivesJob};
ghost use Rattle.cli_commands.specs.Outsides.{Reading, reading_over};
ghost use Rattle.cli_commands.specs.TopParts.{EndsBy};
ghost use Rattle.cli_commands.specs.UpgradeCommand.{UpgradeEnds};

use crate::ending::{CommandEnd, EndedCommand, Given};
use crate::reading::job_from;
use crate::status::say;
use base_io::{BufferedSink, Sink, Source, Wrote};
use std::alloc::Global;
use text_job::Job;
use text_print::print_job;

/// Writes a job that was read with datagrams of version 2, without a status line.
fn write_upgraded<K: Sink>(job: Job, sink: &mut BufferedSink<K>) -> EndedCommand
    ensures { (reading : Reading) → GivesJob reading job → EndsBy (UpgradeEnds reading)
        (outbox K.taken K.faults sink.old) (outbox K.taken K.faults sink.new) result }
{
    let upgraded = job.into_upgraded();
    match print_job(&upgraded, sink) {
        Wrote::Done => EndedCommand {
            end: CommandEnd::Done,
            given: Given::nothing(),
        },
        Wrote::Fault => EndedCommand::cut(),
    }
}

/// The command `upgrade`: reads a job, and writes it with datagrams of version 2. All memory is taken by the time that
/// it writes.
pub fn upgrade_command<S: Source, K: Sink>(
    alloc: Global,
    source: &mut S,
    sink: &mut BufferedSink<K>,
) -> EndedCommand
    ensures { EndsBy
        (UpgradeEnds (reading_over S.left S.faults source.old source.new))
        (outbox K.taken K.faults sink.old) (outbox K.taken K.faults sink.new) result }
{
    match job_from(alloc, source) {
        Ok(job) => write_upgraded(job, sink),
        Err(end) => say(sink, end, Given::nothing()),
    }
}
