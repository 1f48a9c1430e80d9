//! The texts of answers on transfers, regions and the barrier. There is room for each, and no fault comes.

ghost use Rattle.std.specs.Prelude.{◌≤◌, length};
ghost use Rattle.base_io.specs.Buffered.{GathersAll, outbox};
ghost use Rattle.base_text.specs.LineTexts.{ending};
ghost use Rattle.text_script.specs.AnswerWords.{barrier_words, begun_words, issued_words, notified_words, region_words};
ghost use Rattle.text_script.specs.AnswerWords.{synced_words};

use crate::answer_texts::{write_numbered, write_reason, write_word};
use crate::answer_words::bad_word;
use base_io::{BufferedSink, Sink, Wrote};
use node_rules::{Begun, Region};
use part_barrier::{BarrierAnswer, Notified};
use part_transfers::Synced;

/// The text of the answer to the beginning of a transfer, where `word` stands before its number.
pub(crate) fn write_begun<K: Sink>(word: &[u8], answer: Begun, sink: &mut BufferedSink<K>) -> Wrote
    requires word { length word.now ≤ 20 }
    requires room { 100 ≤ sink.old.room }
    ensures { GathersAll (outbox K.taken K.faults sink.old) (outbox K.taken K.faults sink.new)
        (ending (begun_words word.now answer)) result }
{
    match answer {
        Begun::Handle(handle) => write_numbered(word, handle.serial, sink),
        Begun::Done => write_word(b"done", sink),
        Begun::BadArg(part) => write_reason(b"bad-arg", bad_word(part), sink),
        Begun::TooMany => write_word(b"too-many", sink),
    }
}

/// The text of the answer to the question whether all of a transfer was issued.
pub(crate) fn write_issued<K: Sink>(answer: Option<bool>, sink: &mut BufferedSink<K>) -> Wrote
    requires { 100 ≤ sink.old.room }
    ensures { GathersAll (outbox K.taken K.faults sink.old) (outbox K.taken K.faults sink.new)
        (ending (issued_words answer)) result }
{
    match answer {
        None => write_word(b"bad-handle", sink),
        Some(true) => write_word(b"issued", sink),
        Some(false) => write_word(b"not-ready", sink),
    }
}

/// The text of the answer to a synchronisation.
pub(crate) fn write_synced<K: Sink>(answer: Synced, sink: &mut BufferedSink<K>) -> Wrote
    requires { 100 ≤ sink.old.room }
    ensures { GathersAll (outbox K.taken K.faults sink.old) (outbox K.taken K.faults sink.new)
        (ending (synced_words answer)) result }
{
    match answer {
        Synced::Ok => write_word(b"ok", sink),
        Synced::NotReady => write_word(b"not-ready", sink),
        Synced::NotYours => write_word(b"not-yours", sink),
        Synced::BadHandle => write_word(b"bad-handle", sink),
        Synced::Exhausted(node) => write_numbered(b"worn-out", u64::from(node), sink),
    }
}

/// The text of the answer to a call on access regions.
pub(crate) fn write_region<K: Sink>(answer: Region, sink: &mut BufferedSink<K>) -> Wrote
    requires { 100 ≤ sink.old.room }
    ensures { GathersAll (outbox K.taken K.faults sink.old) (outbox K.taken K.faults sink.new)
        (ending (region_words answer)) result }
{
    match answer {
        Region::Begun => write_word(b"ok", sink),
        Region::Done => write_word(b"done", sink),
        Region::Handle(handle) => write_numbered(b"handle", handle.serial, sink),
        Region::Nested => write_word(b"nested", sink),
        Region::NoRegion => write_word(b"no-region", sink),
        Region::InRegion => write_word(b"in-region", sink),
    }
}

/// The text of the answer to a notify.
pub(crate) fn write_notified<K: Sink>(answer: Notified, sink: &mut BufferedSink<K>) -> Wrote
    requires { 100 ≤ sink.old.room }
    ensures { GathersAll (outbox K.taken K.faults sink.old) (outbox K.taken K.faults sink.new)
        (ending (notified_words answer)) result }
{
    match answer {
        Notified::Ok => write_word(b"ok", sink),
        Notified::BadFlags => write_word(b"bad-flags", sink),
        Notified::Twice => write_word(b"twice", sink),
        Notified::Exhausted => write_word(b"worn-out", sink),
    }
}

/// The text of the answer to a try of the barrier.
pub(crate) fn write_barrier<K: Sink>(answer: BarrierAnswer, sink: &mut BufferedSink<K>) -> Wrote
    requires { 100 ≤ sink.old.room }
    ensures { GathersAll (outbox K.taken K.faults sink.old) (outbox K.taken K.faults sink.new)
        (ending (barrier_words answer)) result }
{
    match answer {
        BarrierAnswer::Ok => write_word(b"ok", sink),
        BarrierAnswer::Mismatch => write_word(b"mismatch", sink),
        BarrierAnswer::NotReady => write_word(b"not-ready", sink),
        BarrierAnswer::NoNotify => write_word(b"no-notify", sink),
        BarrierAnswer::BadFlags => write_word(b"bad-flags", sink),
        BarrierAnswer::Exhausted(node) => write_numbered(b"worn-out", u64::from(node), sink),
    }
}
