//! The recorders of a job's nodes, and the merge of their traces.

ghost use Rattle.std.specs.Prelude.{◌≡◌, All, IfOk, length};
ghost use Rattle.text_job.specs.JobText.{IsJob};
ghost use Rattle.cli_check.specs.CheckInputs.{IsTraceOf};
ghost use Rattle.cli_check.specs.Merging.{AreFirstRecorders, ClosesAll, MergesTraces};
ghost use Rattle.cli_check.specs.Rejected.{accepted_traces};

use crate::notes::Notes;
use crate::recorder::{NodeReport, Recorder};
use crate::rejecting::accepted_traces;
use node_endpoint::Endpoint;
use proc_machine::traces_law;
use std::alloc::{AllocError, Global};
use text_script::Script;
use text_trace::{MergeFault, Trace, merge};

/// The nodes of a job after their traces, in rising order of ranks.
#[derive(Drop)]
pub struct RunReport {
    /// Their endpoints.
    pub nodes: Vec<Endpoint>,
    /// What was recorded of each.
    pub reports: Vec<NodeReport>,
}

/// The recorder of each node, before all turns.
fn new_recorders(alloc: Global, job: &Script) -> Result<Vec<Recorder<'_>>, AllocError>
    requires { IsJob job.now }
    ensures { IfOk result (λ recorders. AreFirstRecorders job.now recorders.items) }
{
    let nodes = job.settings().nodes();
    let mut recorders = Vec::with_capacity(alloc, usize::from(nodes))?;
    for rank in 0..nodes {
        recorders.push(Recorder::new(alloc, job, rank)?)?;
    }
    Ok(recorders)
}

/// The nodes of recorders, and what these recorded.
fn close_all(alloc: Global, recorders: Vec<Recorder<'_>>) -> Result<RunReport, AllocError>
    ensures { IfOk result (λ report. ClosesAll recorders.entry.items report) }
{
    let mut nodes = Vec::with_capacity(alloc, recorders.len())?;
    let mut reports = Vec::with_capacity(alloc, recorders.len())?;
    for recorder in recorders {
        let (endpoint, report) = recorder.close()?;
        nodes.push(endpoint)?;
        reports.push(report)?;
    }
    Ok(RunReport { nodes, reports })
}

/// The nodes of a job after their traces, where these are a run without the bytes that their nodes refuse.
pub fn merge_traces<N: Notes>(
    alloc: Global,
    job: &Script,
    traces: Vec<Trace>,
    notes: &mut N,
) -> Result<RunReport, MergeFault>
    requires job { IsJob job.now }
    requires count { length traces.items ≡ job.now.settings.nodes }
    requires traces { All (IsTraceOf job.now) traces.items }
    ensures { MergesTraces job.now (accepted_traces job.now traces.items) result }
{
    traces_law();
    let Ok(mut recorders) = new_recorders(alloc, job) else {
        return Err(MergeFault::NoMemory);
    };
    let Ok(judged) = accepted_traces(alloc, &recorders, traces, notes) else {
        return Err(MergeFault::NoMemory);
    };
    match merge(alloc, recorders.as_mut_slice(), &judged) {
        Ok(_) => {}
        Err(fault) => return Err(fault),
    }
    match close_all(alloc, recorders) {
        Ok(report) => Ok(report),
        Err(AllocError) => Err(MergeFault::NoMemory),
    }
}
