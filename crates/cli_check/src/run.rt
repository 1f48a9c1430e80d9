//! The check of the traces of a job's nodes.

ghost use Rattle.std.specs.Prelude.{◌≡◌, All, List, length};
ghost use Rattle.base_io.specs.Buffered.{outbox};
ghost use Rattle.text_trace.specs.declared.trace.Trace.{Trace as TraceState};
ghost use Rattle.text_job.specs.JobText.{IsJob};
ghost use Rattle.text_job.specs.declared.job.Job.{Job as JobState};
ghost use Rattle.cli_check.specs.CheckInputs.{IsTraceOf};
ghost use Rattle.cli_check.specs.Merging.{CanBeWritten, IsMerged};
ghost use Rattle.cli_check.specs.Rejected.{accepted_traces};
ghost use Rattle.cli_check.specs.TracesEnds.{EndsTraces};

use crate::ending::{any_violation, write_ends, write_texts};
use crate::machines::{RunReport, merge_traces};
use crate::notes::Notes;
use base_io::{BufferedSink, Sink, Wrote};
use node_endpoint::Endpoint;
use std::alloc::Global;
use text_script::Script;
use text_trace::{MergeFault, Trace};

/// How the check of the traces of a job's nodes ended.
#[derive(Drop)]
pub enum TracesEnd {
    /// They are a run, and its lines were written.
    Done {
        /// Whether a node noted a violation in it.
        violated: bool,
        /// The nodes after it, in rising order of ranks.
        nodes: Vec<Endpoint>,
    },
    /// They are no run.
    NotARun {
        /// The smallest node whose next entry can't ever go.
        node: u16,
        /// That entry, counted from 1.
        entry: u32,
    },
    /// They are a run, and the sink failed: a prefix of the text of its lines was written.
    Fault,
    /// Memory ran out. Nothing was written; the clause allows whole lines of a run that is known by then.
    NoMemory,
}

/// Writes the lines of traces that are a run, which left these nodes.
fn tell_run<K: Sink>(report: RunReport, sink: &mut BufferedSink<K>) -> TracesEnd
    requires { CanBeWritten report }
    ensures { (job : JobState) (traces : List TraceState)
        → IsMerged job (accepted_traces job traces) report
        → EndsTraces job traces (outbox K.taken K.faults sink.old)
        (outbox K.taken K.faults sink.new) result }
{
    let RunReport { nodes, reports } = report;
    if let Wrote::Fault = write_texts(&reports, sink) {
        return TracesEnd::Fault;
    }
    match write_ends(&nodes, &reports, sink) {
        Wrote::Done => {
            let violated = any_violation(&nodes);
            TracesEnd::Done { violated, nodes }
        }
        Wrote::Fault => TracesEnd::Fault,
    }
}

/// Checks whether the traces of the nodes of a job, in rising order of ranks, are a run of the world, and writes the
/// lines of that run: for each node and each of its entries, where a step of a script ended in it, the rank, the thread
/// and the answer of the step; then the lines of each node at the end.
///
/// Bytes that their node refuses, whatever it did before, are rejected from the traces before: an entry that got such
/// bytes is read as one that got nothing. How many of a node's turns got such bytes is told to `notes`. Each node that
/// is left is the one that its trace leaves, read so or as it is.
pub fn run_traces<K: Sink, N: Notes>(
    alloc: Global,
    job: &Script,
    traces: Vec<Trace>,
    sink: &mut BufferedSink<K>,
    notes: &mut N,
) -> TracesEnd
    requires job { IsJob job.now }
    requires count { length traces.items ≡ job.now.settings.nodes }
    requires traces { All (IsTraceOf job.now) traces.items }
    ensures { EndsTraces job.now traces.items
        (outbox K.taken K.faults sink.old) (outbox K.taken K.faults sink.new) result }
{
    match merge_traces(alloc, job, traces, notes) {
        Ok(report) => tell_run(report, sink),
        Err(MergeFault::NotARun { node, entry }) => TracesEnd::NotARun { node, entry },
        Err(MergeFault::NoMemory) => TracesEnd::NoMemory,
    }
}
