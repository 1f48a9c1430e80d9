//! What is written of the nodes of a run of traces: the lines of their steps, and those at the end.

ghost use Rattle.std.specs.Prelude.{◌≡◌, ◌≤◌, ◌^◌, List, length, slice_get};
ghost use Rattle.std.specs.Option.{ForSome};
ghost use Rattle.node_endpoint.specs.EndpointState.{ForItsRecord};
ghost use Rattle.base_io.specs.Buffered.{GathersAll, outbox};
ghost use Rattle.text_trace.specs.declared.trace.Trace.{Trace as TraceState};
ghost use Rattle.text_job.specs.declared.job.Job.{Job as JobState};
ghost use Rattle.base_text.specs.LineTexts.{spell};
ghost use Rattle.sim_run.specs.RunText.{lines_of_node};
ghost use Rattle.cli_check.specs.Merging.{AreReports, texts_of};
ghost use Rattle.cli_check.specs.StepLines.{ends_from, is_violated};
ghost use Rattle.cli_check.specs.TracesRun.{AreNodesAfter, AreRanked};

use crate::recorder::NodeReport;
use base_io::{BufferedSink, Sink, Wrote};
use node_endpoint::Endpoint;
use sim_run::{write_node_line, write_violations};

/// Writes the lines of a node: its own, with the most message buffers that it held, and one for each of its last
/// violations.
fn write_end<K: Sink>(
    endpoint: &Endpoint,
    rank: u16,
    most: usize,
    sink: &mut BufferedSink<K>,
) -> Wrote
    requires { rank ≡ endpoint.now.core.me }
    ensures { ForItsRecord endpoint.now (λ node.
        GathersAll (outbox K.taken K.faults sink.old) (outbox K.taken K.faults sink.new)
        (spell (lines_of_node endpoint.now.core.settings rank most node)) result) }
{
    let log = endpoint.log();
    if let Wrote::Fault = write_node_line(sink, rank, endpoint.held(), most, log.count()) {
        return Wrote::Fault;
    }
    write_violations(log, rank, sink)
}

/// Writes the lines of the steps of all nodes.
pub fn write_texts<K: Sink>(reports: &[NodeReport], sink: &mut BufferedSink<K>) -> Wrote
    ensures { GathersAll (outbox K.taken K.faults sink.old) (outbox K.taken K.faults sink.new)
        (texts_of reports.now) result }
{
    for report in reports {
        if let Wrote::Fault = sink.write_all(report.text.taken()) {
            return Wrote::Fault;
        }
    }
    Wrote::Done
}

/// Writes the lines of all nodes at the end.
pub fn write_ends<K: Sink>(
    endpoints: &[Endpoint],
    reports: &[NodeReport],
    sink: &mut BufferedSink<K>,
) -> Wrote
    requires few { length endpoints.now ≤ 2 ^ 16 }
    requires count { length reports.now ≡ length endpoints.now }
    requires ranks { AreRanked endpoints.now }
    ensures { (job : JobState) (traces : List TraceState) → AreNodesAfter job traces endpoints.now
        → AreReports job traces reports.now
        → GathersAll (outbox K.taken K.faults sink.old) (outbox K.taken K.faults sink.new)
        (spell (ends_from job 0 traces)) result }
{
    for (rank, endpoint) in endpoints.iter().enumerate() {
        if let Wrote::Fault = write_end(endpoint, rank as u16, reports[rank].most, sink) {
            return Wrote::Fault;
        }
    }
    Wrote::Done
}

/// Whether one of the nodes noted a violation.
pub fn any_violation(endpoints: &[Endpoint]) -> bool
    ensures { (job : JobState) (traces : List TraceState) → AreNodesAfter job traces endpoints.now
        → result ≡ is_violated job traces }
{
    for endpoint in endpoints {
        if endpoint.log().count() != 0 {
            return true;
        }
    }
    false
}
