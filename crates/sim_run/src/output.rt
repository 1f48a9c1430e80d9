//! The lines of the output of a run.

ghost use Rattle.std.specs.Prelude.{◌≡◌, ◌<◌, ◌∷◌, [], codes, decimal, map};
ghost use Rattle.base_io.specs.Buffered.{GathersAll, outbox};
ghost use Rattle.base_text.specs.LineTexts.{line_text};
ghost use Rattle.sim_run.specs.RunText.{node_line};
ghost use Rattle.sim_run.specs.ScheduleRun.{WritesText, answer_text, node_text, nodes_text};
ghost use Rattle.sim_run.specs.ScheduleRun.{TellsWhatIs, TellsViolation};

use crate::violations::write_violations;
use base_io::{BufferedSink, Sink, Wrote};
use base_text::write_line;
use itoa::Buffer;
use sim_world::{World, WorldAnswer};
use text_script::write_answer;

/// Writes the line of a number and a word.
pub fn write_numbered<K: Sink>(sink: &mut BufferedSink<K>, number: u64, word: &[u8]) -> Wrote
    ensures { GathersAll (outbox K.taken K.faults sink.old) (outbox K.taken K.faults sink.new)
        (line_text (decimal number ∷ word.now ∷ [])) result }
{
    let mut first = Buffer::new();
    write_line(sink, first.format(number).as_bytes(), &[word])
}

/// Writes the line of the answer to an event that fell on this node: its number, and its words. What the answer names
/// is there. No line of a run is that of `NoMemory`.
pub fn write_event_answer<K: Sink>(
    world: &World,
    node: u16,
    number: u64,
    answer: &WorldAnswer,
    sink: &mut BufferedSink<K>,
) -> Wrote
    requires node { node < world.now.settings.nodes }
    requires told { TellsWhatIs world.now node answer.now }
    ensures { WritesText world.now (answer_text world.now.settings number node answer.now)
        (outbox K.taken K.faults sink.old) (outbox K.taken K.faults sink.new) result }
{
    match answer {
        WorldAnswer::Node(answer) => write_answer(number, answer, world.endpoint(node), sink),
        WorldAnswer::Unsent => write_numbered(sink, number, b"unsent"),
        WorldAnswer::NoMemory => write_numbered(sink, number, b"no-memory"),
    }
}

/// Writes the line of a node by its numbers: what it holds, the most that it held, and how many violations it
/// noted.
pub fn write_node_line<K: Sink>(
    sink: &mut BufferedSink<K>,
    node: u16,
    held: usize,
    most: usize,
    violations: u64,
) -> Wrote
    ensures { GathersAll (outbox K.taken K.faults sink.old) (outbox K.taken K.faults sink.new)
        (line_text (node_line node held most violations)) result }
{
    let mut node_text = Buffer::new();
    let mut held_text = Buffer::new();
    let mut most_text = Buffer::new();
    let mut violations_text = Buffer::new();
    write_line(
        sink,
        b"node",
        &[
            node_text.format(node).as_bytes(),
            b"held".as_slice(),
            held_text.format(held).as_bytes(),
            b"most".as_slice(),
            most_text.format(most).as_bytes(),
            b"violations".as_slice(),
            violations_text.format(violations).as_bytes(),
        ],
    )
}

/// Writes the lines of a node of the world: its own, and one for each of its last violations.
fn write_node<K: Sink>(world: &World, node: u16, sink: &mut BufferedSink<K>) -> Wrote
    requires { node < world.now.settings.nodes }
    ensures { WritesText world.now (node_text world.now node)
        (outbox K.taken K.faults sink.old) (outbox K.taken K.faults sink.new) result }
{
    let endpoint = world.endpoint(node);
    let log = endpoint.log();
    let held = endpoint.held();
    let most = world.most_held(node);
    if let Wrote::Fault = write_node_line(sink, node, held, most, log.count()) {
        return Wrote::Fault;
    }
    write_violations(log, node, sink)
}

/// Writes the lines of all nodes of the world.
pub fn write_nodes<K: Sink>(world: &World, sink: &mut BufferedSink<K>) -> Wrote
    ensures { WritesText world.now (nodes_text world.now)
        (outbox K.taken K.faults sink.old) (outbox K.taken K.faults sink.new) result }
{
    for node in 0..world.nodes() {
        if let Wrote::Fault = write_node(world, node, sink) {
            return Wrote::Fault;
        }
    }
    Wrote::Done
}

/// Whether a node of the world noted a violation.
pub fn any_violation(world: &World) -> bool
    ensures { TellsViolation world.now result }
{
    for node in 0..world.nodes() {
        if world.endpoint(node).log().count() != 0 {
            return true;
        }
    }
    false
}
