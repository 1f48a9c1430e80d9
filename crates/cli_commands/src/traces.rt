//! The check of what the nodes of a job wrote, of the commands that check it.

ghost use Rattle.std.specs.Prelude.{◌≡◌, All, length};
ghost use Rattle.base_io.specs.Buffered.{outbox};
ghost use Rattle.text_job.specs.JobText.{IsJob};
ghost use Rattle.cli_launch.specs.CheckInputs.{HaveTraces, IsTraceOf, traces_in};
ghost use Rattle.cli_commands.specs.TopParts.{EndsBy, SaysTraces};
ghost use Rattle.cli_commands.specs.TracesReports.{TracesEnds};

use crate::ending::{CommandEnd, EndedCommand, Given};
use crate::status::say;
use base_io::{BufferedSink, Sink};
use cli_launch::{Notes, TracesEnd, run_traces, traces_of};
use std::alloc::{AllocError, Global};
use text_job::Job;
use text_script::Script;
use text_trace::{Output, Trace};

/// Says the status line behind the lines of traces, and answers how the command ended.
fn say_traces<K: Sink>(sink: &mut BufferedSink<K>, end: TracesEnd) -> EndedCommand
    ensures { SaysTraces end (outbox K.taken K.faults sink.old)
        (outbox K.taken K.faults sink.new) result }
{
    match end {
        TracesEnd::Done { violated, nodes } => say(
            sink,
            CommandEnd::of_run(violated),
            Given::nodes(nodes),
        ),
        TracesEnd::NotARun { node, entry } => {
            say(sink, CommandEnd::NotARun { node, entry }, Given::nothing())
        }
        TracesEnd::Fault => EndedCommand::cut(),
        TracesEnd::NoMemory => say(sink, CommandEnd::NoMemory, Given::nothing()),
    }
}

/// Checks the traces of a job's nodes, and says their lines.
fn check_traces<K: Sink, N: Notes>(
    alloc: Global,
    job: Job,
    traces: Vec<Trace>,
    sink: &mut BufferedSink<K>,
    notes: &mut N,
) -> EndedCommand
    requires job { IsJob job }
    requires count { length traces.items ≡ job.settings.nodes }
    requires traces { All (IsTraceOf job) traces.items }
    ensures { EndsBy (TracesEnds job traces.items) (outbox K.taken K.faults sink.old)
        (outbox K.taken K.faults sink.new) result }
{
    match Script::new(alloc, job) {
        Ok(script) => {
            let end = run_traces(alloc, &script, traces, sink, notes);
            say_traces(sink, end)
        }
        Err(AllocError) => say(sink, CommandEnd::NoMemory, Given::nothing()),
    }
}

/// Checks the traces of the outputs of a job's nodes, in rising order of ranks, and says their lines.
pub fn check_outputs<K: Sink, N: Notes>(
    alloc: Global,
    job: Job,
    outputs: Vec<Output>,
    sink: &mut BufferedSink<K>,
    notes: &mut N,
) -> EndedCommand
    requires job { IsJob job }
    requires count { length outputs.items ≡ job.settings.nodes }
    requires traces { HaveTraces job outputs.items }
    ensures { EndsBy (TracesEnds job (traces_in outputs.items)) (outbox K.taken K.faults sink.old)
        (outbox K.taken K.faults sink.new) result }
{
    match traces_of(alloc, outputs) {
        Ok(traces) => check_traces(alloc, job, traces, sink, notes),
        Err(AllocError) => say(sink, CommandEnd::NoMemory, Given::nothing()),
    }
}
