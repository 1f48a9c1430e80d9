//! The command `node`.

ghost use Rattle.std.specs.Prelude.{◌≡◌};
ghost use Rattle.base_io.specs.Buffered.{outbox};
ghost use Rattle.text_job.specs.JobText.{IsJob};
ghost use Rattle.proc_node.specs.Seen.{devices_seen};
ghost use Rattle.cli_commands.specs.JobReads.{GivesJob};
ghost use Rattle.cli_commands.specs.NodeCommand.{NodeEnds, has_node_place};
ghost use Rattle.cli_commands.specs.Outsides.{Reading, course_over, course_with};
ghost use Rattle.cli_commands.specs.HowEnds.{nothing};
ghost use Rattle.cli_commands.specs.TopParts.{EndsBy, SaysEnd, SaysNode};

use crate::ending::{CommandEnd, EndedCommand, Given};
use crate::outside::Outside;
use crate::ports::has_ports;
use crate::reading::job_from;
use crate::status::say;
use base_io::{BufferedSink, Clock, Link, Sink, Source, Waiter};
use node_endpoint::Endpoint;
use proc_node::{Devices, EndedJobNode, run_job_node};
use proc_runner::StationEnd;
use proc_station::NodeAddress;
use std::alloc::{AllocError, Global};
use std::sync::Wait;
use std::thread::Threads;
use text_job::Job;
use text_script::Script;

/// Whether there is a node of this address among so many, and each of them has its port.
fn has_node_place(address: NodeAddress, nodes: u16) -> bool
    ensures { result ≡ has_node_place address.rank address.port nodes }
{
    address.rank < nodes && has_ports(address.port, nodes)
}

/// How the command `node` ended, and the devices that it ran over.
#[derive(Drop)]
struct EndedNodeCommand<L, C, K: Sink> {
    ended: EndedCommand,
    link: L,
    clock: C,
    sink: BufferedSink<K>,
}

/// Says the status line behind the trace of a node that ended so, and answers how the command ended.
fn say_node<K: Sink>(
    sink: &mut BufferedSink<K>,
    end: StationEnd,
    violated: bool,
    node: Option<Endpoint>,
) -> EndedCommand
    ensures { SaysNode end violated node (outbox K.taken K.faults sink.old)
        (outbox K.taken K.faults sink.new) result }
{
    let given = Given::node(node);
    match end {
        StationEnd::Over => say(sink, CommandEnd::of_run(violated), given),
        StationEnd::Stuck => say(sink, CommandEnd::Stuck, given),
        StationEnd::LinkFault => say(sink, CommandEnd::LinkFault, given),
        StationEnd::JournalFull => say(sink, CommandEnd::JournalFull, given),
        StationEnd::NoMemory => say(sink, CommandEnd::NoMemory, given),
        StationEnd::WriteFault => {
            drop(given);
            EndedCommand::cut()
        }
    }
}

/// Says the status line of an end alone, and leaves the devices as they are.
fn say_unrun<L, C, K: Sink, G>(
    end: CommandEnd,
    devices: Devices<'_, L, C, K, G>,
) -> EndedNodeCommand<L, C, K>
    ensures says { SaysEnd end nothing (outbox K.taken K.faults devices.entry.sink)
        (outbox K.taken K.faults result.sink) result.ended }
    ensures link { result.link ≡ devices.entry.link }
    ensures clock { result.clock ≡ devices.entry.clock }
{
    let Devices {
        link,
        clock,
        sink,
        waiter: _,
    } = devices;
    let mut sink = sink;
    let ended = say(&mut sink, end, Given::nothing());
    EndedNodeCommand {
        ended,
        link,
        clock,
        sink,
    }
}

/// Runs a node of a job that was read, if there is a place for it.
fn run_read<
    R: Threads + Wait + Sync,
    L: Link + Send,
    C: Clock + Send,
    K: Sink + Send,
    G: Waiter + Sync,
>(
    rt: &R,
    alloc: Global,
    job: Job,
    address: NodeAddress,
    devices: Devices<'_, L, C, K, G>,
) -> EndedNodeCommand<L, C, K>
    requires { IsJob job }
    ensures { (reading : Reading) → GivesJob reading job
        → EndsBy (NodeEnds address.rank address.port (course_with reading
        (devices_seen L.Link C.Clock devices.entry.link devices.entry.clock)
        (devices_seen L.Link C.Clock result.link result.clock)))
        (outbox K.taken K.faults devices.entry.sink) (outbox K.taken K.faults result.sink)
        result.ended }
{
    if !has_node_place(address, job.settings.nodes()) {
        return say_unrun(CommandEnd::Usage, devices);
    }
    match Script::new(alloc, job) {
        Ok(script) => {
            let EndedJobNode {
                end,
                violated,
                node,
                link,
                clock,
                sink,
            } = run_job_node(rt, alloc, &script, address, devices);
            let mut sink = sink;
            let ended = say_node(&mut sink, end, violated, node);
            EndedNodeCommand {
                ended,
                link,
                clock,
                sink,
            }
        }
        Err(AllocError) => say_unrun(CommandEnd::NoMemory, devices),
    }
}

/// The command `node`: reads a job, runs one of its nodes over the outside's link, and says its trace as it grows.
///
/// The status line is told by the first of these steps that gives one: reading the job; the rank, which has to be a
/// node of it, and the port, behind which there has to be one for each node; the run, which begins by binding the
/// link.
pub fn node_command<
    R: Threads + Wait + Sync,
    S: Source,
    K: Sink + Send,
    L: Link + Send,
    P,
    C: Clock + Send,
    G: Waiter + Sync,
>(
    rt: &R,
    alloc: Global,
    address: NodeAddress,
    outside: Outside<S, BufferedSink<K>, L, P, C, G>,
) -> (EndedCommand, Outside<S, BufferedSink<K>, L, P, C, G>)
    ensures ends { EndsBy (NodeEnds address.rank address.port
        (course_over S.Source L.Link C.Clock outside result.1))
        (outbox K.taken K.faults outside.sink) (outbox K.taken K.faults result.1.sink) result.0 }
    ensures spawner { result.1.spawner ≡ outside.spawner }
{
    let Outside {
        source,
        sink,
        link,
        spawner,
        clock,
        waiter,
    } = outside;
    let mut source = source;
    let devices = Devices {
        link,
        clock,
        sink,
        waiter: &waiter,
    };
    let ran = match job_from(alloc, &mut source) {
        Ok(job) => run_read(rt, alloc, job, address, devices),
        Err(end) => say_unrun(end, devices),
    };
    let EndedNodeCommand {
        ended,
        link,
        clock,
        sink,
    } = ran;
    let outside = Outside {
        source,
        sink,
        link,
        spawner,
        clock,
        waiter,
    };
    (ended, outside)
}
