//! The command `drill`.

ghost use Rattle.base_io.specs.Buffered.{outbox};
ghost use Rattle.cli_commands.specs.DrillCommand.{DrillEnds};
ghost use Rattle.cli_commands.specs.TopParts.{EndsBy};

use crate::ending::EndedCommand;
use crate::status::say_run;
use base_io::{BufferedSink, Sink};
use sim_drill::run_drill;
use std::alloc::Global;

/// The command `drill`: runs the drill of a seed, and says its lines.
pub fn drill_command<K: Sink>(alloc: Global, seed: u64, sink: &mut BufferedSink<K>) -> EndedCommand
    ensures { EndsBy (DrillEnds seed) (outbox K.taken K.faults sink.old)
        (outbox K.taken K.faults sink.new) result }
{
    let run = run_drill(alloc, seed, sink);
    say_run(sink, run)
}
