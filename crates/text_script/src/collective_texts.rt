//! The lines of answers to calls of collectives.

ghost use Rattle.std.specs.Prelude.{◌≡◌, ◌≤◌, ◌∷◌, decimal, length};
ghost use Rattle.base_io.specs.Buffered.{GathersAll, outbox};
ghost use Rattle.text_script.specs.CollectiveWords.{argument_word, collective_words, ended_words, started_words};
ghost use Rattle.text_script.specs.CollectiveWords.{stepped_words};
ghost use Rattle.base_text.specs.LineTexts.{ending, line_text};

use crate::answer_texts::{write_numbered, write_reason, write_word};
use crate::answer_words::rule_word;
use base_io::{BufferedSink, Sink, Wrote};
use node_collectives::{Argument, EndAnswer, StartAnswer, StepAnswer};

/// The most bytes of a line, and more.
const LINE: usize = 128;

/// What a call of collectives was answered.
#[derive(Clone, Copy)]
pub enum CollectiveAnswer {
    /// A start.
    Start(StartAnswer),
    /// A step.
    Step(StepAnswer),
    /// A try to end it.
    End(EndAnswer),
}

/// The word of the argument of a call that is bad.
fn argument_word(argument: Argument) -> &'static [u8]
    ensures word { result.now ≡ argument_word argument }
    ensures short { length result.now ≤ 20 }
{
    match argument {
        Argument::Root => b"root",
        Argument::Length => b"length",
        Argument::Source => b"source",
        Argument::Destination => b"dest",
    }
}

/// The text of the answer to a start.
fn write_started<K: Sink>(answer: StartAnswer, sink: &mut BufferedSink<K>) -> Wrote
    requires { 100 ≤ sink.old.room }
    ensures { GathersAll (outbox K.taken K.faults sink.old) (outbox K.taken K.faults sink.new)
        (ending (started_words answer)) result }
{
    match answer {
        StartAnswer::Started => write_word(b"ok", sink),
        StartAnswer::Busy => write_word(b"busy", sink),
        StartAnswer::BadArg(argument) => write_reason(b"bad-arg", argument_word(argument), sink),
        StartAnswer::Exhausted => write_word(b"worn-out", sink),
        StartAnswer::Forbidden(rule) => write_reason(b"forbidden", rule_word(rule), sink),
        StartAnswer::LockBusy(lock) => write_numbered(b"lock-busy", u64::from(lock), sink),
        StartAnswer::NoMemory => write_word(b"no-memory", sink),
    }
}

/// The text of the answer to a step.
fn write_stepped<K: Sink>(answer: StepAnswer, sink: &mut BufferedSink<K>) -> Wrote
    requires { 100 ≤ sink.old.room }
    ensures { GathersAll (outbox K.taken K.faults sink.old) (outbox K.taken K.faults sink.new)
        (ending (stepped_words answer)) result }
{
    match answer {
        StepAnswer::Sent(to) => write_numbered(b"sent", u64::from(to), sink),
        StepAnswer::Nothing => write_word(b"nothing", sink),
        StepAnswer::Forbidden(rule) => write_reason(b"forbidden", rule_word(rule), sink),
        StepAnswer::NoMemory => write_word(b"no-memory", sink),
    }
}

/// The text of the answer to a try to end a collective.
fn write_ended<K: Sink>(answer: EndAnswer, sink: &mut BufferedSink<K>) -> Wrote
    requires { 100 ≤ sink.old.room }
    ensures { GathersAll (outbox K.taken K.faults sink.old) (outbox K.taken K.faults sink.new)
        (ending (ended_words answer)) result }
{
    match answer {
        EndAnswer::Ended => write_word(b"ok", sink),
        EndAnswer::Mismatch(node) => write_numbered(b"mismatch-with", u64::from(node), sink),
        EndAnswer::NotReady => write_word(b"not-ready", sink),
        EndAnswer::NotStarted => write_word(b"not-started", sink),
        EndAnswer::BadArg(argument) => write_reason(b"bad-arg", argument_word(argument), sink),
        EndAnswer::Exhausted(node) => write_numbered(b"worn-out", u64::from(node), sink),
        EndAnswer::Forbidden(rule) => write_reason(b"forbidden", rule_word(rule), sink),
        EndAnswer::NoMemory => write_word(b"no-memory", sink),
    }
}

/// The text of an answer, behind the number of its line.
fn write_collective_words<K: Sink>(answer: CollectiveAnswer, sink: &mut BufferedSink<K>) -> Wrote
    requires { 100 ≤ sink.old.room }
    ensures { GathersAll (outbox K.taken K.faults sink.old) (outbox K.taken K.faults sink.new)
        (ending (collective_words answer)) result }
{
    match answer {
        CollectiveAnswer::Start(answer) => write_started(answer, sink),
        CollectiveAnswer::Step(answer) => write_stepped(answer, sink),
        CollectiveAnswer::End(answer) => write_ended(answer, sink),
    }
}

/// Writes the line of an answer to a call of collectives: this number, and then the words of the answer.
///
/// `Fault` comes only where the sink failed; a prefix of the line went in then, or none of it. It takes no memory.
pub fn write_collective<K: Sink>(
    number: u64,
    answer: CollectiveAnswer,
    sink: &mut BufferedSink<K>,
) -> Wrote
    ensures { GathersAll (outbox K.taken K.faults sink.old) (outbox K.taken K.faults sink.new)
        (line_text (decimal number ∷ collective_words answer)) result }
{
    if let Wrote::Fault = sink.make_room(LINE) {
        return Wrote::Fault;
    }
    sink.put_number(number);
    write_collective_words(answer, sink)
}
