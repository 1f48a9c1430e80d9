//! What the output of a node tells by itself: the replay of its trace.

ghost use Rattle.std.specs.Prelude.{◌≡◌, ◌<◌, IfOk, IfSome, IsSomeAnd, is_some, slice_get, true};
ghost use Rattle.text_job.specs.JobText.{IsJob};
ghost use Rattle.cli_check.specs.NodeReplays.{ReplaysOutput};
ghost use Rattle.cli_check.specs.Rejected.{OfItsNode, is_refusal, refuses_at, refuses_got};

use crate::notes::NoNotes;
use crate::recorder::Recorder;
use crate::rejecting::{accepted_trace, refused_turns};
use crate::requests::open_requests;
use base_io::MemorySink;
use base_turns::{Entry, Machine};
use node_endpoint::Endpoint;
use spec_node::{Delivered, Why};
use std::alloc::{AllocError, Global};
use text_script::Script;
use text_trace::{NodeStatus, Output, Replayed, Trace, replay};

/// An entry of a trace that got what its node refuses.
#[derive(Clone, Copy)]
pub struct Refusal {
    /// Its place, counted from 0.
    pub place: usize,
    /// Why the node refuses it.
    pub why: Why,
}

/// What the output of a node tells by itself.
#[derive(Drop)]
pub struct NodeReplay {
    /// The status that it tells.
    pub status: NodeStatus,
    /// Its trace, without the bytes that the node refuses.
    pub trace: Trace,
    /// How many of its turns got such bytes.
    pub refused: usize,
    /// The first of them.
    pub first_refused: Option<Refusal>,
    /// The text of the lines of the steps that ended in its replay.
    pub steps: MemorySink,
    /// Whether no script has a step left after it.
    pub over: bool,
    /// How many requests of the node aren't back after it.
    pub outstanding: usize,
    /// The node after it.
    pub node: Endpoint,
}

/// Why a delivery was refused, if it was.
fn refused_why(answer: Delivered) -> Option<Why>
    ensures { is_some result ≡ is_refusal answer }
{
    match answer {
        Delivered::Refused(why) => Some(why),
        _ => None,
    }
}

/// Why the node refuses these bytes, if it does.
fn why_refused(endpoint: &Endpoint, bytes: &[u8]) -> Option<Why>
    ensures { OfItsNode endpoint.now (λ job rank. is_some result ≡ refuses_at job rank bytes.now) }
{
    refused_why(endpoint.would_deliver(bytes))
}

/// Why the node refuses what the entry got, if it does.
fn why_got_refused(endpoint: &Endpoint, item: &Entry) -> Option<Why>
    ensures { OfItsNode endpoint.now (λ job rank.
        is_some result ≡ refuses_got job rank item.entry.now.got) }
{
    match &item.got {
        Some(bytes) => why_refused(endpoint, bytes.as_slice()),
        None => None,
    }
}

/// The first entry that got what the node refuses.
fn first_refused(endpoint: &Endpoint, entries: &[Entry]) -> Option<Refusal>
    ensures { OfItsNode endpoint.now (λ job rank. IfSome result (λ refusal.
        IsSomeAnd (slice_get entries.now refusal.place) (λ item.
        refuses_got job rank item.got ≡ true))) }
{
    for (place, item) in entries.iter().enumerate() {
        if let Some(why) = why_got_refused(endpoint, item) {
            return Some(Refusal { place, why });
        }
    }
    None
}

/// Replays the trace of an output of the node of this rank of the job, without the bytes that it refuses, up to the
/// first entry that is of none of its threads, or hands a datagram to one that holds a lock then.
///
/// It is refused for want of memory alone.
pub fn replay_output(
    alloc: Global,
    job: &Script,
    rank: u16,
    output: Output,
) -> Result<(NodeReplay, Replayed), AllocError>
    requires job { IsJob job.now }
    requires rank { rank < job.now.settings.nodes }
    ensures { IfOk result (λ found. ReplaysOutput job.now rank output found.0 found.1) }
{
    let Output { trace, status } = output;
    let mut recorder = Recorder::new(alloc, job, rank)?;
    let refused = refused_turns(recorder.endpoint(), trace.entries.as_slice());
    let first_refused = first_refused(recorder.endpoint(), trace.entries.as_slice());
    let Ok(trace) = accepted_trace(alloc, recorder.endpoint(), trace, &mut NoNotes) else {
        drop(recorder);
        return Err(AllocError);
    };
    let Ok(replayed) = replay(alloc, &mut recorder, trace.entries.as_slice()) else {
        drop(recorder);
        return Err(AllocError);
    };
    let over = recorder.over();
    let (node, report) = recorder.close()?;
    let found = NodeReplay {
        status,
        trace,
        refused,
        first_refused,
        steps: report.text,
        over,
        outstanding: open_requests(&node),
        node,
    };
    Ok((found, replayed))
}
