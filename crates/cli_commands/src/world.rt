//! The command `world`.

ghost use Rattle.base_io.specs.Buffered.{outbox};
ghost use Rattle.text_job.specs.JobText.{IsJob};
ghost use Rattle.cli_commands.specs.JobReads.{GivesJob};
ghost use Rattle.cli_commands.specs.Outsides.{Reading, reading_over};
ghost use Rattle.cli_commands.specs.TopParts.{EndsBy};
ghost use Rattle.cli_commands.specs.WorldCommand.{WorldEnds};

use crate::ending::{CommandEnd, EndedCommand, Given};
use crate::reading::job_from;
use crate::status::{say, say_run};
use base_io::{BufferedSink, Sink, Source};
use sim_drill::run_job;
use std::alloc::{AllocError, Global};
use std::mem::forget;
use text_job::Job;
use text_script::Script;

/// Runs a job that was read, and says its lines.
fn run_read<K: Sink>(alloc: Global, job: Job, sink: &mut BufferedSink<K>) -> EndedCommand
    requires { IsJob job }
    ensures { (reading : Reading) → GivesJob reading job → EndsBy (WorldEnds reading)
        (outbox K.taken K.faults sink.old) (outbox K.taken K.faults sink.new) result }
{
    match Script::new(alloc, job) {
        Ok(script) => {
            let run = run_job(alloc, &script, sink);
            // The process ends next, and the system takes all of its memory back at once.
            forget(script);
            say_run(sink, run)
        }
        Err(AllocError) => say(sink, CommandEnd::NoMemory, Given::nothing()),
    }
}

/// The command `world`: reads a job, runs it, and says the lines of its run.
pub fn world_command<S: Source, K: Sink>(
    alloc: Global,
    source: &mut S,
    sink: &mut BufferedSink<K>,
) -> EndedCommand
    ensures { EndsBy
        (WorldEnds (reading_over S.left S.faults source.old source.new))
        (outbox K.taken K.faults sink.old) (outbox K.taken K.faults sink.new) result }
{
    match job_from(alloc, source) {
        Ok(job) => run_read(alloc, job, sink),
        Err(end) => say(sink, end, Given::nothing()),
    }
}
