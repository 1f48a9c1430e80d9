//! Traces without the bytes that their nodes refuse.

ghost use Rattle.std.specs.Prelude.{◌≡◌, ◌≤◌, IfOk, false, length};
ghost use Rattle.text_job.specs.declared.job.Job.{Job as JobState};
ghost use Rattle.proc_machine.specs.NodeState.{script_job};
ghost use Rattle.law_traces.specs.Rejected.{accepted_entry};
ghost use Rattle.cli_check.specs.Merging.{AreFirstRecorders};
ghost use Rattle.cli_check.specs.Rejected.{OfItsNode, is_refusal, refused_turns, refuses_at, refuses_got};
ghost use Rattle.cli_check.specs.Rejected.{accepted_entries, accepted_trace, accepted_traces};

use crate::notes::Notes;
use crate::recorder::Recorder;
use base_turns::{Bytes, Entry, Journal};
use node_endpoint::Endpoint;
use spec_node::Delivered;
use std::alloc::{AllocError, Global};
use text_trace::Trace;

/// Whether a delivery was refused.
fn is_refusal(answer: Delivered) -> bool
    ensures { result ≡ is_refusal answer }
{
    matches!(answer, Delivered::Refused(_))
}

/// Whether the node refuses these bytes, whatever it did before.
fn refuses(endpoint: &Endpoint, bytes: &[u8]) -> bool
    ensures { OfItsNode endpoint.now (λ job rank. result ≡ refuses_at job rank bytes.now) }
{
    is_refusal(endpoint.would_deliver(bytes))
}

/// Whether the node refuses what the entry got.
fn refuses_got(endpoint: &Endpoint, item: &Entry) -> bool
    ensures { OfItsNode endpoint.now
        (λ job rank. result ≡ refuses_got job rank item.entry.now.got) }
{
    match &item.got {
        Some(bytes) => refuses(endpoint, bytes.as_slice()),
        None => false,
    }
}

/// How many of the entries got what the node refuses.
pub fn refused_turns(endpoint: &Endpoint, entries: &[Entry]) -> usize
    ensures { OfItsNode endpoint.now (λ job rank. result ≡ refused_turns job rank entries.now) }
{
    let mut turns = 0;
    for entry in entries {
        if refuses_got(endpoint, entry) {
            turns += 1;
        }
    }
    turns
}

/// A copy of an entry.
fn copy_of(alloc: Global, item: &Entry) -> Result<Entry, AllocError>
    ensures { IfOk result (λ copy. copy ≡ item.entry.now) }
{
    let got = match &item.got {
        Some(bytes) => Some(Bytes::of(bytes.as_slice().to_vec(alloc)?)),
        None => None,
    };
    Ok(Entry {
        thread: item.thread,
        now: item.now,
        got,
    })
}

/// A copy of an entry, which got nothing where it got bytes that the node refuses.
fn accepted_entry(alloc: Global, endpoint: &Endpoint, item: &Entry) -> Result<Entry, AllocError>
    ensures { OfItsNode endpoint.now (λ job rank. IfOk result (λ accepted.
        accepted ≡ accepted_entry (script_job job).job rank item.entry.now)) }
{
    if refuses_got(endpoint, item) {
        return Ok(Entry {
            thread: item.thread,
            now: item.now,
            got: None,
        });
    }
    copy_of(alloc, item)
}

/// Copies of the entries, which got nothing where they got bytes that the node refuses.
fn accepted_entries(
    alloc: Global,
    endpoint: &Endpoint,
    entries: &[Entry],
) -> Result<Journal, AllocError>
    ensures { OfItsNode endpoint.now (λ job rank. IfOk result (λ accepted.
        accepted ≡ accepted_entries job rank entries.now)) }
{
    let mut accepted = Vec::with_capacity(alloc, entries.len())?;
    for entry in entries {
        accepted.push(accepted_entry(alloc, endpoint, entry)?)?;
    }
    Ok(Journal::of(accepted))
}

/// The trace of the node without the bytes that it refuses: itself, where there are none. How many turns got such bytes
/// is told.
pub fn accepted_trace<N: Notes>(
    alloc: Global,
    endpoint: &Endpoint,
    trace: Trace,
    notes: &mut N,
) -> Result<Trace, AllocError>
    ensures { OfItsNode endpoint.now (λ job rank. IfOk result (λ accepted.
        accepted ≡ accepted_trace job rank trace)) }
{
    let turns = refused_turns(endpoint, trace.entries.as_slice());
    if turns == 0 {
        return Ok(trace);
    }
    notes.rejected(trace.rank, turns);
    let entries = accepted_entries(alloc, endpoint, trace.entries.as_slice())?;
    Ok(Trace {
        job: trace.job,
        rank: trace.rank,
        entries,
    })
}

/// The traces of the nodes of these recorders, without the bytes that their nodes refuse. How many turns of each node
/// got such bytes is told.
///
/// Memory is taken for the list, and for each trace in which something is refused.
pub fn accepted_traces<N: Notes>(
    alloc: Global,
    recorders: &[Recorder<'_>],
    traces: Vec<Trace>,
    notes: &mut N,
) -> Result<Vec<Trace>, AllocError>
    requires few { length recorders.now ≤ 256 }
    requires count { length traces.items ≡ length recorders.now }
    ensures { (job : JobState) → AreFirstRecorders job recorders.now
        → IfOk result (λ accepted. accepted.items ≡ accepted_traces job traces.items) }
{
    let mut accepted = Vec::with_capacity(alloc, traces.len())?;
    for trace in traces {
        let endpoint = recorders[accepted.len()].endpoint();
        accepted.push(accepted_trace(alloc, endpoint, trace, notes)?)?;
    }
    Ok(accepted)
}
