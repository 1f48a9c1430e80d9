//! The command `check`.

ghost use Rattle.std.specs.Prelude.{◌≡◌, length};
ghost use Rattle.base_io.specs.Buffered.{outbox};
ghost use Rattle.text_job.specs.JobText.{IsJob};
ghost use Rattle.cli_launch.specs.CheckInputs.{HaveTraces};
ghost use Rattle.cli_commands.specs.CheckCommand.{CheckEnds, GivesInput};
ghost use Rattle.cli_commands.specs.Outsides.{Reading, reading_over};
ghost use Rattle.cli_commands.specs.TopParts.{EndsBy, end_unread};

use crate::ending::{CommandEnd, EndedCommand, Given};
use crate::status::say;
use crate::traces::check_outputs;
use base_io::{BufferedSink, Sink, Source};
use cli_launch::{CheckInput, InputFault, Notes, first_failed, read_input};
use std::alloc::Global;

/// How the command ends where no input was read.
fn end_unread(fault: InputFault) -> CommandEnd
    ensures { result ≡ end_unread fault }
{
    match fault {
        InputFault::Bad { line, why } => CommandEnd::BadJob { line, why },
        InputFault::ReadFault => CommandEnd::ReadFault,
        InputFault::NoMemory => CommandEnd::NoMemory,
    }
}

/// Checks an input that was read.
fn check_input<K: Sink, N: Notes>(
    alloc: Global,
    input: CheckInput,
    sink: &mut BufferedSink<K>,
    notes: &mut N,
) -> EndedCommand
    requires job { IsJob input.job }
    requires count { length input.outputs.items ≡ input.job.settings.nodes }
    requires traces { HaveTraces input.job input.outputs.items }
    ensures { (reading : Reading) → GivesInput reading input.job input.outputs.items
        → EndsBy (CheckEnds reading)
        (outbox K.taken K.faults sink.old) (outbox K.taken K.faults sink.new) result }
{
    let CheckInput { job, outputs } = input;
    match first_failed(&outputs) {
        Some(failed) => {
            let end = CommandEnd::Child {
                rank: failed.rank,
                code: failed.code,
            };
            say(sink, end, Given::nothing())
        }
        None => check_outputs(alloc, job, outputs, sink, notes),
    }
}

/// The command `check`: reads a job and what each of its nodes wrote, checks whether their traces are a run of the
/// world, and says its lines.
pub fn check_command<S: Source, K: Sink, N: Notes>(
    alloc: Global,
    source: &mut S,
    sink: &mut BufferedSink<K>,
    notes: &mut N,
) -> EndedCommand
    ensures { EndsBy
        (CheckEnds (reading_over S.left S.faults source.old source.new))
        (outbox K.taken K.faults sink.old) (outbox K.taken K.faults sink.new) result }
{
    match read_input(alloc, source) {
        Ok(input) => check_input(alloc, input, sink, notes),
        Err(fault) => say(sink, end_unread(fault), Given::nothing()),
    }
}
