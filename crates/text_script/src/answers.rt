//! The lines of answers.

ghost use Rattle.std.specs.Prelude.{◌≡◌, ◌≤◌, ◌∷◌, decimal, length};
ghost use Rattle.base_io.specs.Buffered.{GathersAll, outbox};
ghost use Rattle.base_text.specs.LineTexts.{ending, line_text};
ghost use Rattle.node_endpoint.specs.EndpointState.{ForItsRecord};
ghost use Rattle.text_script.specs.AnswerWords.{answer_words, local_words, sent_words, ticked_words, vis_words};
ghost use Rattle.text_script.specs.AnswersTold.{HasNumber, NamesItsBytes, NamesWhatIs, TicksItsNumbers, sight_at};

use crate::answer_texts::{
    write_asked, write_cell, write_delivered, write_lock, write_numbered, write_reason,
    write_request, write_unlock, write_word,
};
use crate::answer_words::rule_word;
use crate::shown::write_shown;
use crate::transfer_texts::{
    write_barrier, write_begun, write_issued, write_notified, write_region, write_synced,
};
use base_io::{BufferedSink, Sink, Wrote};
use node_core::SlotRef;
use node_endpoint::Endpoint;
use node_rules::{Answer, Local, Ticked};
use node_vis::Vis;

/// The most bytes of a line that shows no bytes of a segment, and more.
const LINE: usize = 128;

/// The text of a request that a tick sent from this slot.
fn write_sent<K: Sink>(
    word: &[u8],
    at: SlotRef,
    endpoint: &Endpoint,
    sink: &mut BufferedSink<K>,
) -> Wrote
    requires word { length word.now ≤ 20 }
    requires number { HasNumber endpoint.now at }
    requires room { 100 ≤ sink.old.room }
    ensures { ForItsRecord endpoint.now (λ node.
        GathersAll (outbox K.taken K.faults sink.old) (outbox K.taken K.faults sink.new)
        (ending (sent_words word.now at ((sight_at endpoint.now node).numbers at))) result) }
{
    write_request(word, at.peer, at.slot, endpoint.number(at).unwrap(), sink)
}

/// The text of the answer to a tick.
fn write_ticked<K: Sink>(answer: Ticked, endpoint: &Endpoint, sink: &mut BufferedSink<K>) -> Wrote
    requires numbers { TicksItsNumbers endpoint.now answer }
    requires room { 100 ≤ sink.old.room }
    ensures { ForItsRecord endpoint.now (λ node.
        GathersAll (outbox K.taken K.faults sink.old) (outbox K.taken K.faults sink.new)
        (ending (ticked_words (sight_at endpoint.now node).numbers answer)) result) }
{
    match answer {
        Ticked::Retransmission(at) => write_sent(b"resend", at, endpoint, sink),
        Ticked::Notification(at) => write_sent(b"note", at, endpoint, sink),
        Ticked::Chunk(at) => write_sent(b"chunk", at, endpoint, sink),
        Ticked::Nothing => write_word(b"nothing", sink),
    }
}

/// The text of the answer to a call on what the node itself has.
fn write_local<K: Sink>(answer: Local, endpoint: &Endpoint, sink: &mut BufferedSink<K>) -> Wrote
    requires bytes { NamesItsBytes endpoint.now answer }
    requires room { 100 ≤ sink.old.room }
    ensures { ForItsRecord endpoint.now (λ node.
        GathersAll (outbox K.taken K.faults sink.old) (outbox K.taken K.faults sink.new)
        (ending (local_words (sight_at endpoint.now node).segment answer)) result) }
{
    match answer {
        Local::Done => write_word(b"ok", sink),
        Local::Outside => write_word(b"outside", sink),
        Local::Unaligned => write_word(b"unaligned", sink),
        Local::Shown { offset, len } => {
            let bytes = endpoint.segment().part(offset, len).unwrap();
            write_shown(bytes, sink)
        }
        Local::Number(number) => write_numbered(b"word", number, sink),
        Local::Cell(value) => write_cell(value, sink),
    }
}

/// The text of an answer, behind the number of its line.
fn write_words<K: Sink>(answer: &Answer, endpoint: &Endpoint, sink: &mut BufferedSink<K>) -> Wrote
    requires told { NamesWhatIs endpoint.now answer.now }
    requires room { 100 ≤ sink.old.room }
    ensures { ForItsRecord endpoint.now (λ node.
        GathersAll (outbox K.taken K.faults sink.old) (outbox K.taken K.faults sink.new)
        (ending (answer_words (sight_at endpoint.now node) answer.now)) result) }
{
    match answer {
        Answer::Asked(asked) => write_asked(*asked, sink),
        Answer::Polled => write_word(b"ok", sink),
        Answer::Allowed => write_word(b"allowed", sink),
        Answer::Forbidden(rule) => write_reason(b"forbidden", rule_word(*rule), sink),
        Answer::Lock(answer) => write_lock(*answer, sink),
        Answer::Unlock(answer) => write_unlock(*answer, sink),
        Answer::Begun(begun) => write_begun(b"handle", *begun, sink),
        Answer::Started(begun) => write_begun(b"started", *begun, sink),
        Answer::Issued(issued) => write_issued(*issued, sink),
        Answer::Synced(synced) => write_synced(*synced, sink),
        Answer::Region(answer) => write_region(*answer, sink),
        Answer::Notified(answer) => write_notified(*answer, sink),
        Answer::Barrier(answer) => write_barrier(*answer, sink),
        Answer::Local(answer) => write_local(*answer, endpoint, sink),
        Answer::Delivered(delivered) => write_delivered(*delivered, sink),
        Answer::Ticked(sent) => write_ticked(*sent, endpoint, sink),
    }
}

/// The text of how a transfer of many pieces began, behind the number of its line.
fn write_vis_words<K: Sink>(answer: &Vis, sink: &mut BufferedSink<K>) -> Wrote
    requires { 100 ≤ sink.old.room }
    ensures { GathersAll (outbox K.taken K.faults sink.old) (outbox K.taken K.faults sink.new)
        (ending (vis_words answer.now)) result }
{
    match answer {
        Vis::Whole => write_word(b"whole", sink),
        Vis::Part { next } => write_numbered(b"part", *next as u64, sink),
        Vis::TooMany => write_word(b"too-many", sink),
        Vis::Nested => write_word(b"nested", sink),
        Vis::Forbidden(rule) => write_reason(b"forbidden", rule_word(*rule), sink),
        Vis::NoMemory => write_word(b"no-memory", sink),
    }
}

/// Writes the line of an answer of an endpoint as it stands after it: this number, and then the words of the answer.
/// Where the answer names a request that was sent, its slot has it; a range that it shows is inside the segment.
///
/// `Fault` comes only where the sink failed; a prefix of the line went in then, or none of it. It takes no memory.
pub fn write_answer<K: Sink>(
    number: u64,
    answer: &Answer,
    endpoint: &Endpoint,
    sink: &mut BufferedSink<K>,
) -> Wrote
    requires { NamesWhatIs endpoint.now answer.now }
    ensures { ForItsRecord endpoint.now (λ node.
        GathersAll (outbox K.taken K.faults sink.old) (outbox K.taken K.faults sink.new)
        (line_text (decimal number ∷ answer_words (sight_at endpoint.now node) answer.now)) result) }
{
    if let Wrote::Fault = sink.make_room(LINE) {
        return Wrote::Fault;
    }
    sink.put_number(number);
    write_words(answer, endpoint, sink)
}

/// Writes the line of how a transfer of many pieces began: this number, and then the words of that.
///
/// `Fault` comes only where the sink failed; a prefix of the line went in then, or none of it. It takes no memory.
pub fn write_vis<K: Sink>(number: u64, answer: &Vis, sink: &mut BufferedSink<K>) -> Wrote
    ensures { GathersAll (outbox K.taken K.faults sink.old) (outbox K.taken K.faults sink.new)
        (line_text (decimal number ∷ vis_words answer.now)) result }
{
    if let Wrote::Fault = sink.make_room(LINE) {
        return Wrote::Fault;
    }
    sink.put_number(number);
    write_vis_words(answer, sink)
}
