//! A node of a job that runs to its end.

ghost use Rattle.std.specs.Prelude.{◌≡◌, ◌<◌, MatchResult};
ghost use Rattle.base_io.specs.Buffered.{outbox};
ghost use Rattle.text_job.specs.JobText.{IsJob};
ghost use Rattle.proc_node.specs.NodeEnds.{EndsNode, EndsSo, IsReadyNode, node_for, unmade};
ghost use Rattle.proc_node.specs.NodeLeaves.{post_of};
ghost use Rattle.proc_node.specs.Seen.{devices_seen};

use crate::sieved::Sieved;
use base_io::{BufferedSink, Clock, Link, Sink, Waiter};
use node_endpoint::Endpoint;
use proc_machine::NodeMachine;
use proc_runner::{EndedStation, StationEnd};
use proc_station::{Node, NodeAddress, TraceSink, run_node};
use std::alloc::Global;
use std::sync::Wait;
use std::thread::Threads;
use text_script::Script;

/// What a node runs over.
#[derive(Drop)]
pub struct Devices<'g, L, C, K: Sink, G> {
    /// Its link, which isn't bound yet.
    pub link: L,
    /// Its clock.
    pub clock: C,
    /// The sink of its trace.
    pub sink: BufferedSink<K>,
    /// The waiter that its threads pass before each turn.
    pub waiter: &'g G,
}

/// What is left of a node of a job whose run ended.
#[derive(Drop)]
pub struct EndedJobNode<L, C, K: Sink> {
    /// How its turns ended; `WriteFault` too where the last line of its trace couldn't be written.
    pub end: StationEnd,
    /// Whether it noted a violation; false where there was no memory to make it.
    pub violated: bool,
    /// The node after its turns; there is one but after `NoMemory` and `WriteFault`.
    pub node: Option<Endpoint>,
    /// Its link.
    pub link: L,
    /// Its clock.
    pub clock: C,
    /// Its sink.
    pub sink: BufferedSink<K>,
}

/// The node that is given after this end, where one is.
fn node_for(end: StationEnd, endpoint: Endpoint) -> Option<Endpoint>
    ensures { result ≡ node_for end endpoint }
{
    match end {
        StationEnd::NoMemory | StationEnd::WriteFault => {
            drop(endpoint);
            None
        }
        _ => Some(endpoint),
    }
}

impl<L, C, K: Sink> EndedJobNode<L, C, K> {
    /// Nothing was done, for want of memory.
    fn unmade(link: L, clock: C, sink: BufferedSink<K>) -> EndedJobNode<L, C, K>
        ensures { result ≡ unmade link clock sink }
    {
        EndedJobNode {
            end: StationEnd::NoMemory,
            violated: false,
            node: None,
            link,
            clock,
            sink,
        }
    }
}

/// A node with its machine, over a link behind its job's sieve; or link and clock, for want of memory.
fn ready<'a, L: Link, C>(
    alloc: Global,
    job: &'a Script,
    address: NodeAddress,
    link: L,
    clock: C,
) -> Result<Node<NodeMachine<'a>, Sieved<L>, C>, (L, C)>
    requires job { IsJob job.now }
    requires rank { address.rank < job.now.settings.nodes }
    ensures { MatchResult result
        (IsReadyNode L.Link (post_of job.now address.rank address.port) link clock)
        (λ devices. devices ≡ (link, clock)) }
{
    let Ok(machine) = NodeMachine::new(alloc, job, address.rank) else {
        return Err((link, clock));
    };
    match Sieved::new(alloc, link, job.sieve()) {
        Ok(link) => Ok(Node {
            settings: *job.settings(),
            address,
            machine,
            link,
            clock,
            patience: job.patience(),
        }),
        Err(link) => {
            drop(machine);
            Err((link, clock))
        }
    }
}

/// What is left of a node, by what its threads left.
fn ended_node<L: Link, C, K: Sink>(
    left: EndedStation<NodeMachine<'_>, Sieved<L>, C, TraceSink<K>>,
) -> EndedJobNode<L, C, K>
    ensures { EndsSo L.Link left.entry result }
{
    let EndedStation {
        machine,
        link,
        clock,
        recorder,
        end,
    } = left;
    let endpoint = machine.into_endpoint();
    let violated = endpoint.log().count() != 0;
    EndedJobNode {
        end,
        violated,
        node: node_for(end, endpoint),
        link: link.into_inner(),
        clock,
        sink: recorder.into_sink(),
    }
}

/// Runs a node of a job to its end, and writes the trace of what it did as it grows.
///
/// The first lines of the trace go into the sink, the job's sieve is put before the link, and the link is bound. Then
/// the node's threads take turns under one lock, as `run_threads` says: a turn of a thread that polls takes a datagram,
/// if one waits, and ticks; each turn tries the next step of the thread's script. The line of a turn goes into the sink
/// behind it, and where the turn sends datagrams it goes on to the sink behind before they are sent. The line `end` is
/// last, whatever the end was, but after want of memory, and where the sink failed.
///
/// The end is `LinkFault` only where the link's count of faults rose, or stands at its last value; where that came as
/// it was to be bound, the trace has no turns. It is `WriteFault` only where the sink failed; a prefix of the trace
/// went in then, and no more turns were taken. Where there was no memory to make the node, nothing was written.
pub fn run_job_node<
    R: Threads + Wait + Sync,
    L: Link + Send,
    C: Clock + Send,
    G: Waiter + Sync,
    K: Sink + Send,
>(
    rt: &R,
    alloc: Global,
    job: &Script,
    address: NodeAddress,
    devices: Devices<'_, L, C, K, G>,
) -> EndedJobNode<L, C, K>
    requires job { IsJob job.now }
    requires rank { address.rank < job.now.settings.nodes }
    ensures { EndsNode (post_of job.now address.rank address.port)
        (devices_seen L.Link C.Clock devices.entry.link devices.entry.clock)
        (devices_seen L.Link C.Clock result.link result.clock)
        (outbox K.taken K.faults devices.entry.sink) (outbox K.taken K.faults result.sink)
        result.end result.violated result.node }
{
    let Devices {
        link,
        clock,
        sink,
        waiter,
    } = devices;
    match ready(alloc, job, address, link, clock) {
        Ok(node) => ended_node(run_node(rt, alloc, node, waiter, sink)),
        Err((link, clock)) => EndedJobNode::unmade(link, clock, sink),
    }
}
