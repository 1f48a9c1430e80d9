//! The commands that return whatever comes, by their words.

ghost use Rattle.base_io.specs.Buffered.{outbox};
ghost use Rattle.cli_commands.specs.Outsides.{course_over, spawning_over};
ghost use Rattle.cli_commands.specs.TopParts.{EndsAs, IsNoNode};

use crate::check::check_command;
use crate::drill::drill_command;
use crate::ending::{CommandEnd, EndedCommand, Given};
use crate::launch::{LaunchAt, launch_command};
use crate::outside::Outside;
use crate::status::say;
use crate::upgrade::upgrade_command;
use crate::words::Command;
use crate::world::world_command;
use base_io::{BufferedSink, Clock, Link, Sink, Source, Spawner};
use cli_launch::Notes;
use std::alloc::Global;

/// Does what was asked for, where that isn't `node`. What is told of a run beside its lines is told to `notes`.
pub fn returning_command<S: Source, K: Sink, L: Link, P: Spawner, C: Clock, G, N: Notes>(
    alloc: Global,
    asked: Option<Command>,
    outside: &mut Outside<S, BufferedSink<K>, L, P, C, G>,
    notes: &mut N,
) -> EndedCommand
    requires { IsNoNode asked }
    ensures { EndsAs asked
        (course_over S.Source L.Link C.Clock outside.old outside.new)
        (spawning_over P.Spawner outside.old.spawner outside.new.spawner)
        (outbox K.taken K.faults outside.old.sink) (outbox K.taken K.faults outside.new.sink)
        result }
{
    match asked {
        Some(Command::World) => world_command(alloc, &mut outside.source, &mut outside.sink),
        Some(Command::Upgrade) => upgrade_command(alloc, &mut outside.source, &mut outside.sink),
        Some(Command::Check) => {
            check_command(alloc, &mut outside.source, &mut outside.sink, notes)
        }
        Some(Command::Launch { port }) => launch_command(
            LaunchAt { alloc, port },
            &mut outside.source,
            &mut outside.spawner,
            &mut outside.sink,
            notes,
        ),
        Some(Command::Node { .. }) => unreachable!(),
        Some(Command::Drill { seed }) => drill_command(alloc, seed, &mut outside.sink),
        None => say(&mut outside.sink, CommandEnd::Usage, Given::nothing()),
    }
}
