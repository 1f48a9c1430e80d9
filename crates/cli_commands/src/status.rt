//! Writing status lines.

ghost use Rattle.std.specs.Prelude.{◌≡◌, ◌∷◌, [], codes, decimal};
ghost use Rattle.base_io.specs.Buffered.{GathersAll, outbox};
ghost use Rattle.base_text.specs.LineTexts.{line_text};
ghost use Rattle.cli_commands.specs.Commands.{status_line, why_word};
ghost use Rattle.cli_commands.specs.TopParts.{SaysEnd, SaysRun};

use crate::ending::{CommandEnd, EndedCommand, Given, why_word};
use base_io::{BufferedSink, Sink, Wrote};
use base_text::{LineWhy, write_line};
use itoa::Buffer;
use sim_drill::RunEnd;

/// Writes a status line of a number and a name.
fn write_named<K: Sink>(sink: &mut BufferedSink<K>, code: &[u8], name: &[u8]) -> Wrote
    ensures { GathersAll (outbox K.taken K.faults sink.old) (outbox K.taken K.faults sink.new)
        (line_text (codes "status" ∷ code.now ∷ name.now ∷ [])) result }
{
    write_line(sink, b"status", &[code, name])
}

/// Writes the status line of a bad job: the line, and the reason.
fn write_bad_job<K: Sink>(sink: &mut BufferedSink<K>, line: u32, why: LineWhy) -> Wrote
    ensures { GathersAll (outbox K.taken K.faults sink.old) (outbox K.taken K.faults sink.new)
        (line_text (codes "status" ∷ codes "3" ∷ codes "bad-job" ∷ decimal line
        ∷ why_word why ∷ [])) result }
{
    let mut line_text = Buffer::new();
    write_line(
        sink,
        b"status",
        &[
            b"3".as_slice(),
            b"bad-job".as_slice(),
            line_text.format(line).as_bytes(),
            why_word(why),
        ],
    )
}

/// Writes the status line of traces that are no run: the node, and the number of its entry.
fn write_not_a_run<K: Sink>(sink: &mut BufferedSink<K>, node: u16, entry: u32) -> Wrote
    ensures { GathersAll (outbox K.taken K.faults sink.old) (outbox K.taken K.faults sink.new)
        (line_text (codes "status" ∷ codes "11" ∷ codes "not-a-run" ∷ decimal node
        ∷ decimal entry ∷ [])) result }
{
    let mut node_text = Buffer::new();
    let mut entry_text = Buffer::new();
    write_line(
        sink,
        b"status",
        &[
            b"11".as_slice(),
            b"not-a-run".as_slice(),
            node_text.format(node).as_bytes(),
            entry_text.format(entry).as_bytes(),
        ],
    )
}

/// Writes the status line of a node that failed: its rank, and its status, or that of its child.
fn write_child<K: Sink>(sink: &mut BufferedSink<K>, rank: u16, code: u8) -> Wrote
    ensures { GathersAll (outbox K.taken K.faults sink.old) (outbox K.taken K.faults sink.new)
        (line_text (codes "status" ∷ codes "12" ∷ codes "child" ∷ decimal rank
        ∷ decimal code ∷ [])) result }
{
    let mut rank_text = Buffer::new();
    let mut code_text = Buffer::new();
    write_line(
        sink,
        b"status",
        &[
            b"12".as_slice(),
            b"child".as_slice(),
            rank_text.format(rank).as_bytes(),
            code_text.format(code).as_bytes(),
        ],
    )
}

/// Writes the status line of an end. There is none for `WriteFault`, of which no line is written.
pub fn write_status<K: Sink>(sink: &mut BufferedSink<K>, end: CommandEnd) -> Wrote
    ensures { GathersAll (outbox K.taken K.faults sink.old) (outbox K.taken K.faults sink.new)
        (line_text (status_line end)) result }
{
    match end {
        CommandEnd::Done => write_named(sink, b"0", b"ok"),
        CommandEnd::Violations => write_named(sink, b"1", b"violations"),
        CommandEnd::Usage => write_named(sink, b"2", b"usage"),
        CommandEnd::BadJob { line, why } => write_bad_job(sink, line, why),
        CommandEnd::ReadFault => write_named(sink, b"4", b"read-fault"),
        CommandEnd::WriteFault => write_named(sink, b"5", b"write-fault"),
        CommandEnd::LinkFault => write_named(sink, b"6", b"link-fault"),
        CommandEnd::SpawnFault => write_named(sink, b"7", b"spawn-fault"),
        CommandEnd::NoMemory => write_named(sink, b"8", b"no-memory"),
        CommandEnd::Stuck => write_named(sink, b"9", b"stuck"),
        CommandEnd::JournalFull => write_named(sink, b"10", b"journal-full"),
        CommandEnd::NotARun { node, entry } => write_not_a_run(sink, node, entry),
        CommandEnd::Child { rank, code } => write_child(sink, rank, code),
    }
}

/// Writes the status line of an end behind what was written before, and answers how the command ended: so, and it gives
/// this; or as the sink failed, and it gives nothing.
pub fn say<K: Sink>(sink: &mut BufferedSink<K>, end: CommandEnd, given: Given) -> EndedCommand
    ensures { SaysEnd end given (outbox K.taken K.faults sink.old)
        (outbox K.taken K.faults sink.new) result }
{
    match write_status(sink, end) {
        Wrote::Done => EndedCommand { end, given },
        Wrote::Fault => {
            drop(given);
            EndedCommand::cut()
        }
    }
}

/// Says the status line behind the lines of a run, and answers how the command ended.
pub fn say_run<K: Sink>(sink: &mut BufferedSink<K>, run: RunEnd) -> EndedCommand
    ensures { SaysRun run (outbox K.taken K.faults sink.old)
        (outbox K.taken K.faults sink.new) result }
{
    match run {
        RunEnd::Done { violated, world } => {
            say(sink, CommandEnd::of_run(violated), Given::world(world))
        }
        RunEnd::Fault => EndedCommand::cut(),
        RunEnd::NoMemory => say(sink, CommandEnd::NoMemory, Given::nothing()),
    }
}
