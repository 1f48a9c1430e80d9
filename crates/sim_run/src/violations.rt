//! The lines of violations.

ghost use Rattle.std.specs.Prelude.{◌≡◌, ◌≤◌, ◌∷◌, [], codes, decimal, map, length};
ghost use Rattle.base_io.specs.Buffered.{GathersAll, outbox};
ghost use Rattle.base_text.specs.LineTexts.{line_text, spell};
ghost use Rattle.sim_run.specs.RunText.{violation_line, fault_word};

use base_io::{BufferedSink, Sink, Wrote};
use base_text::write_line;
use itoa::Buffer;
use part_handlers::{Context, Fault, Log, Violation};
use text_script::{lock_fault_word, rule_word};

/// The most violations that a log keeps.
const KEPT: usize = 64;

/// The word of what was wrong with a call.
fn fault_word(fault: Fault) -> &'static [u8]
    ensures { result.now ≡ fault_word fault }
{
    match fault {
        Fault::Rule(rule) => rule_word(rule),
        Fault::Lock(fault) => lock_fault_word(fault),
    }
}

/// Writes the line of a violation of a handler.
fn write_handler<K: Sink>(sink: &mut BufferedSink<K>, node: u16, who: &[u8], what: &[u8]) -> Wrote
    ensures { GathersAll (outbox K.taken K.faults sink.old) (outbox K.taken K.faults sink.new)
        (line_text (codes "violation" ∷ decimal node ∷ who.now ∷ what.now ∷ [])) result }
{
    let mut node_text = Buffer::new();
    write_line(
        sink,
        b"violation",
        &[node_text.format(node).as_bytes(), who, what],
    )
}

/// Writes the line of a violation of a thread.
fn write_thread<K: Sink>(sink: &mut BufferedSink<K>, node: u16, thread: u16, what: &[u8]) -> Wrote
    ensures { GathersAll (outbox K.taken K.faults sink.old) (outbox K.taken K.faults sink.new)
        (line_text (codes "violation" ∷ decimal node ∷ codes "thread" ∷ decimal thread
        ∷ what.now ∷ [])) result }
{
    let mut node_text = Buffer::new();
    let mut thread_text = Buffer::new();
    write_line(
        sink,
        b"violation",
        &[
            node_text.format(node).as_bytes(),
            b"thread".as_slice(),
            thread_text.format(thread).as_bytes(),
            what,
        ],
    )
}

/// Writes the line of a violation of a node.
fn write_violation<K: Sink>(sink: &mut BufferedSink<K>, node: u16, violation: Violation) -> Wrote
    ensures { GathersAll (outbox K.taken K.faults sink.old) (outbox K.taken K.faults sink.new)
        (line_text (violation_line node violation)) result }
{
    let what = fault_word(violation.fault);
    match violation.context {
        Context::Thread(thread) => write_thread(sink, node, thread, what),
        Context::RequestHandler => write_handler(sink, node, b"request", what),
        Context::ReplyHandler => write_handler(sink, node, b"reply", what),
    }
}

/// Writes the line of each violation that a log of a node keeps, the oldest first.
pub fn write_violations<K: Sink>(log: &Log, node: u16, sink: &mut BufferedSink<K>) -> Wrote
    ensures { length log.now.newest ≤ 64
        → GathersAll (outbox K.taken K.faults sink.old) (outbox K.taken K.faults sink.new)
        (spell (map (violation_line node) log.now.newest)) result }
{
    for turn in 0..KEPT {
        let Some(violation) = log.back(KEPT - 1 - turn) else {
            continue;
        };
        if let Wrote::Fault = write_violation(sink, node, violation) {
            return Wrote::Fault;
        }
    }
    Wrote::Done
}
