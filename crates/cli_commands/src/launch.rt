//! The command `launch`.

ghost use Rattle.std.specs.Prelude.{◌≡◌};
ghost use Rattle.base_io.specs.Buffered.{outbox};
ghost use Rattle.text_job.specs.JobText.{IsJob};
ghost use Rattle.cli_commands.specs.LaunchCommand.{LaunchEnds};
ghost use Rattle.cli_commands.specs.Outsides.{Reading, reading_over, spawning_over};
ghost use Rattle.cli_commands.specs.TopParts.{EndsBy, GivesText, end_of_fault};

use crate::ending::{CommandEnd, EndedCommand, Given};
use crate::ports::has_ports;
use crate::reading::{JobRead, text_from};
use crate::status::say;
use crate::traces::check_outputs;
use base_io::{BufferedSink, Sink, Source, Spawner};
use cli_launch::{LaunchFault, Notes, launch_nodes};
use std::alloc::Global;

/// Where a launch has its nodes.
#[derive(Clone, Copy)]
pub struct LaunchAt {
    /// The memory of this process.
    pub alloc: Global,
    /// The port of the node of rank 0.
    pub port: u16,
}

/// How a command ends whose launch gave no outputs.
fn end_of_fault(fault: LaunchFault) -> CommandEnd
    ensures { result ≡ end_of_fault fault }
{
    match fault {
        LaunchFault::Child { rank, code } => CommandEnd::Child { rank, code },
        LaunchFault::SpawnFault => CommandEnd::SpawnFault,
        LaunchFault::NoMemory => CommandEnd::NoMemory,
    }
}

/// Launches the nodes of a job that was read, if each has a port, and checks what they gave.
fn launch_read<P: Spawner, K: Sink, N: Notes>(
    at: LaunchAt,
    read: JobRead,
    spawner: &mut P,
    sink: &mut BufferedSink<K>,
    notes: &mut N,
) -> EndedCommand
    requires { IsJob read.job }
    ensures { (reading : Reading) → GivesText reading read.job read.bytes.items
        → EndsBy (LaunchEnds at.port reading (spawning_over P.Spawner spawner.old spawner.new))
        (outbox K.taken K.faults sink.old) (outbox K.taken K.faults sink.new) result }
{
    let LaunchAt { alloc, port } = at;
    let JobRead { job, bytes } = read;
    if !has_ports(port, job.settings.nodes()) {
        return say(sink, CommandEnd::Usage, Given::nothing());
    }
    match launch_nodes(alloc, &job, port, &bytes, spawner) {
        Ok(outputs) => check_outputs(alloc, job, outputs, sink, notes),
        Err(fault) => say(sink, end_of_fault(fault), Given::nothing()),
    }
}

/// The command `launch`: reads a job, starts a child for each of its nodes and finishes them, checks whether the traces
/// that they gave are a run of the world, and says its lines.
///
/// The status line is told by the first of these steps that gives one: reading the job; its ports, of which there has
/// to be one for each node; the starts and the finishes of children; what each of them gave, and its status; the
/// check.
pub fn launch_command<S: Source, P: Spawner, K: Sink, N: Notes>(
    at: LaunchAt,
    source: &mut S,
    spawner: &mut P,
    sink: &mut BufferedSink<K>,
    notes: &mut N,
) -> EndedCommand
    ensures { EndsBy (LaunchEnds at.port
        (reading_over S.left S.faults source.old source.new)
        (spawning_over P.Spawner spawner.old spawner.new))
        (outbox K.taken K.faults sink.old) (outbox K.taken K.faults sink.new) result }
{
    match text_from(at.alloc, source) {
        Ok(read) => launch_read(at, read, spawner, sink, notes),
        Err(end) => say(sink, end, Given::nothing()),
    }
}
