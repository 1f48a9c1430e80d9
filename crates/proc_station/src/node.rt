//! A node that runs to its end.

ghost use Rattle.std.specs.Prelude.{◌≡◌, ◌≤◌, [], Some};
ghost use Rattle.base_io.specs.Buffered.{outbox};
ghost use Rattle.proc_runner.specs.Leaving.{StationLeaves};
ghost use Rattle.proc_station.specs.NodeRuns.{RunsSome, RunsStation, Finishes, has_last_line, opening_over, written_end};

use crate::recorder::TraceSink;
use base_io::{BufferedSink, Clock, Link, LinkAnswer, Sink, Waiter, Wrote};
use base_turns::Machine;
use proc_runner::{EndedStation, Recorder, Station, StationEnd, run_threads};
use std::alloc::Global;
use std::sync::Wait;
use std::thread::Threads;
use text_trace::print_head;
use wire_message::Settings;

/// Which node of a job it is, and where the links of its nodes are bound.
#[derive(Clone, Copy)]
pub struct NodeAddress {
    /// The number of the node.
    pub rank: u16,
    /// The port of rank 0; that of each other node is by its rank higher.
    pub port: u16,
}

/// A node before it runs.
#[derive(Drop)]
pub struct Node<M, L, C> {
    /// The settings of its job.
    pub settings: Settings,
    /// Which node of the job it is.
    pub address: NodeAddress,
    /// Its machine.
    pub machine: M,
    /// Its link, which isn't bound yet.
    pub link: L,
    /// Its clock.
    pub clock: C,
    /// How many quiet turns in a row end it.
    pub patience: u32,
}

/// Runs the threads of a node whose link is bound. Where memory for a station runs out, no turn is taken.
fn run_bound<
    R: Threads + Wait + Sync,
    M: Machine + Send,
    L: Link + Send,
    C: Clock + Send,
    D: Recorder + Send,
    G: Waiter + Sync,
>(rt: &R, alloc: Global, node: Node<M, L, C>, recorder: D, waiter: &G) -> EndedStation<M, L, C, D>
    requires { 1 ≤ node.patience }
    ensures { StationLeaves M.Machine L.Link C.Clock D.Recorder
        (opening_over node.link recorder node) result }
{
    let Node {
        settings: _,
        address: _,
        machine,
        link,
        clock,
        patience,
    } = node;
    let threads = machine.threads();
    match Station::new(alloc, machine, link, clock, recorder, patience) {
        Ok(station) => run_threads(rt, alloc, station, threads, waiter),
        Err(ended) => ended,
    }
}

/// Binds the link of a node, and runs its threads until an end.
fn run_to_end<
    R: Threads + Wait + Sync,
    M: Machine + Send,
    L: Link + Send,
    C: Clock + Send,
    D: Recorder + Send,
    G: Waiter + Sync,
>(rt: &R, alloc: Global, node: Node<M, L, C>, recorder: D, waiter: &G) -> EndedStation<M, L, C, D>
    requires { 1 ≤ node.patience }
    ensures { RunsSome M.Machine L.Link C.Clock D.Recorder node recorder result }
{
    let Node {
        settings,
        address,
        machine,
        link,
        clock,
        patience,
    } = node;
    let mut link = link;
    match link.bind(address.rank, settings.nodes(), address.port) {
        LinkAnswer::Done => {
            let bound = Node {
                settings,
                address,
                machine,
                link,
                clock,
                patience,
            };
            run_bound(rt, alloc, bound, recorder, waiter)
        }
        LinkAnswer::Failed => EndedStation {
            machine,
            link,
            clock,
            recorder,
            end: StationEnd::LinkFault,
        },
    }
}

/// Whether the last line of the trace is written where the turns ended so.
fn has_last_line(end: StationEnd) -> bool
    ensures { result ≡ has_last_line end }
{
    match end {
        StationEnd::NoMemory | StationEnd::WriteFault => false,
        _ => true,
    }
}

/// How a node ended whose turns ended so, by whether the last line of its trace was written.
fn written_end(end: StationEnd, wrote: Wrote) -> StationEnd
    ensures { result ≡ written_end end wrote }
{
    match (end, wrote) {
        (StationEnd::NoMemory, _) => StationEnd::NoMemory,
        (StationEnd::WriteFault, _) | (_, Wrote::Fault) => StationEnd::WriteFault,
        (StationEnd::Over, Wrote::Done) => StationEnd::Over,
        (StationEnd::Stuck, Wrote::Done) => StationEnd::Stuck,
        (StationEnd::LinkFault, Wrote::Done) => StationEnd::LinkFault,
        (StationEnd::JournalFull, Wrote::Done) => StationEnd::JournalFull,
    }
}

/// Writes the last line of the trace of what a node's threads left; nothing where memory ran out or the sink failed.
/// Where the sink fails at that line, the end is `WriteFault`.
fn write_end<M, L, C, K: Sink>(
    left: EndedStation<M, L, C, TraceSink<K>>,
) -> EndedStation<M, L, C, TraceSink<K>>
    ensures { Finishes K.Sink left result }
{
    if !has_last_line(left.end) {
        return left;
    }
    let EndedStation {
        machine,
        link,
        clock,
        recorder,
        end,
    } = left;
    let mut sink = recorder.into_sink();
    let wrote = sink.write_all(b"end\n");
    EndedStation {
        machine,
        link,
        clock,
        recorder: TraceSink::over(sink),
        end: written_end(end, wrote),
    }
}

/// Runs a node to its end, and writes the trace of what it did as it grows.
///
/// The lines of the trace before its entries go into the sink first; where that fails the end is `WriteFault`, and
/// nothing was done. Then its link is bound; where that fails the end is `LinkFault`, and the trace has no turns. Then
/// its threads take turns under one lock, as `run_threads` says, and each entry goes into the sink before the datagrams
/// of its turn are sent. Last comes the line `end`; where memory ran out, and where the sink failed, it isn't written.
/// Where the sink failed, the end is `WriteFault`, and a prefix of the text went in.
pub fn run_node<
    R: Threads + Wait + Sync,
    M: Machine + Send,
    L: Link + Send,
    C: Clock + Send,
    G: Waiter + Sync,
    K: Sink + Send,
>(
    rt: &R,
    alloc: Global,
    node: Node<M, L, C>,
    waiter: &G,
    sink: BufferedSink<K>,
) -> EndedStation<M, L, C, TraceSink<K>>
    requires { 1 ≤ node.patience }
    ensures { RunsStation M.Machine L.Link C.Clock K.Sink node sink result }
{
    let mut sink = sink;
    let settings = node.settings;
    match print_head(
        settings.version(),
        settings.job(),
        node.address.rank,
        &mut sink,
    ) {
        Wrote::Done => write_end(run_to_end(rt, alloc, node, TraceSink::over(sink), waiter)),
        Wrote::Fault => {
            let Node {
                settings: _,
                address: _,
                machine,
                link,
                clock,
                patience: _,
            } = node;
            EndedStation {
                machine,
                link,
                clock,
                recorder: TraceSink::over(sink),
                end: StationEnd::WriteFault,
            }
        }
    }
}
