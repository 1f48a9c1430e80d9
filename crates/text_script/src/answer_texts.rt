//! The texts of answers that name nothing but what they say: what stands behind the number of a line. There is room for
//! each, and no fault comes.

ghost use Rattle.std.specs.Prelude.{◌≡◌, ◌≤◌, ◌∷◌, [], codes, decimal, length};
ghost use Rattle.std.specs.Fmt.{signed_decimal};
ghost use Rattle.base_io.specs.Buffered.{GathersAll, outbox};
ghost use Rattle.base_text.specs.LineTexts.{ending};
ghost use Rattle.text_script.specs.AnswerWords.{asked_words, delivered_words, lock_words, unlock_words};

use crate::answer_words::{bad_word, lock_fault_word, refusal_word, rule_word};
use base_io::{BufferedSink, Sink, Wrote};
use base_text::{put_end, put_number, put_word};
use itoa::Buffer;
use node_core::{Asked, Delivered};
use part_handlers::{LockAnswer, UnlockAnswer};

/// The text of one word.
#[inline(always)]
pub(crate) fn write_word<K: Sink>(word: &[u8], sink: &mut BufferedSink<K>) -> Wrote
    requires word { length word.now ≤ 20 }
    requires room { 100 ≤ sink.old.room }
    ensures { GathersAll (outbox K.taken K.faults sink.old) (outbox K.taken K.faults sink.new)
        (ending (word.now ∷ [])) result }
{
    put_word(word, sink);
    put_end(sink);
    Wrote::Done
}

/// The text of two words.
#[inline(always)]
pub(crate) fn write_reason<K: Sink>(word: &[u8], reason: &[u8], sink: &mut BufferedSink<K>) -> Wrote
    requires word { length word.now ≤ 20 }
    requires reason { length reason.now ≤ 40 }
    requires room { 100 ≤ sink.old.room }
    ensures { GathersAll (outbox K.taken K.faults sink.old) (outbox K.taken K.faults sink.new)
        (ending (word.now ∷ reason.now ∷ [])) result }
{
    put_word(word, sink);
    put_word(reason, sink);
    put_end(sink);
    Wrote::Done
}

/// The text of a word and a number.
#[inline(always)]
pub(crate) fn write_numbered<K: Sink>(word: &[u8], number: u64, sink: &mut BufferedSink<K>) -> Wrote
    requires word { length word.now ≤ 20 }
    requires room { 100 ≤ sink.old.room }
    ensures { GathersAll (outbox K.taken K.faults sink.old) (outbox K.taken K.faults sink.new)
        (ending (word.now ∷ decimal number ∷ [])) result }
{
    put_word(word, sink);
    put_number(number, sink);
    put_end(sink);
    Wrote::Done
}

/// The text of a request: a word, its target, its slot and its number.
#[inline(always)]
pub(crate) fn write_request<K: Sink>(
    word: &[u8],
    to: u16,
    slot: u16,
    number: u64,
    sink: &mut BufferedSink<K>,
) -> Wrote
    requires word { length word.now ≤ 20 }
    requires room { 100 ≤ sink.old.room }
    ensures { GathersAll (outbox K.taken K.faults sink.old) (outbox K.taken K.faults sink.new)
        (ending (word.now ∷ decimal to ∷ decimal slot ∷ decimal number ∷ [])) result }
{
    put_word(word, sink);
    put_number(u64::from(to), sink);
    put_number(u64::from(slot), sink);
    put_number(number, sink);
    put_end(sink);
    Wrote::Done
}

/// The text of the answer to a request.
pub(crate) fn write_asked<K: Sink>(answer: Asked, sink: &mut BufferedSink<K>) -> Wrote
    requires { 100 ≤ sink.old.room }
    ensures { GathersAll (outbox K.taken K.faults sink.old) (outbox K.taken K.faults sink.new)
        (ending (asked_words answer)) result }
{
    match answer {
        Asked::Accepted { to, slot, number } => write_request(b"accepted", to, slot, number, sink),
        Asked::Ran => write_word(b"ran", sink),
        Asked::BadArg(part) => write_reason(b"bad-arg", bad_word(part), sink),
        Asked::Forbidden(rule) => write_reason(b"forbidden", rule_word(rule), sink),
        Asked::LockBusy(lock) => write_numbered(b"lock-busy", u64::from(lock), sink),
        Asked::Exhausted => write_word(b"worn-out", sink),
        Asked::NotYet => write_word(b"not-yet", sink),
    }
}

/// The text of the answer to bytes that were delivered.
pub(crate) fn write_delivered<K: Sink>(answer: Delivered, sink: &mut BufferedSink<K>) -> Wrote
    requires { 100 ≤ sink.old.room }
    ensures { GathersAll (outbox K.taken K.faults sink.old) (outbox K.taken K.faults sink.new)
        (ending (delivered_words answer)) result }
{
    match answer {
        Delivered::Ran(_) | Delivered::Notified(..) => write_word(b"ran", sink),
        Delivered::Duplicate(_) => write_word(b"again", sink),
        Delivered::Stale => write_word(b"stale", sink),
        Delivered::Returned { .. } => write_word(b"returned", sink),
        Delivered::Late => write_word(b"late", sink),
        Delivered::Deferred(lock) => write_numbered(b"deferred", u64::from(lock), sink),
        Delivered::Refused(reason) => write_reason(b"refused", refusal_word(reason), sink),
    }
}

/// The text of the number in a cell.
pub(crate) fn write_cell<K: Sink>(value: i32, sink: &mut BufferedSink<K>) -> Wrote
    requires { 100 ≤ sink.old.room }
    ensures { GathersAll (outbox K.taken K.faults sink.old) (outbox K.taken K.faults sink.new)
        (ending (codes "cell" ∷ signed_decimal value ∷ [])) result }
{
    let mut digits = Buffer::new();
    write_reason(b"cell", digits.format(value).as_bytes(), sink)
}

/// The text of the answer to taking a lock.
pub(crate) fn write_lock<K: Sink>(answer: LockAnswer, sink: &mut BufferedSink<K>) -> Wrote
    requires { 100 ≤ sink.old.room }
    ensures { GathersAll (outbox K.taken K.faults sink.old) (outbox K.taken K.faults sink.new)
        (ending (lock_words answer)) result }
{
    match answer {
        LockAnswer::Taken => write_word(b"taken", sink),
        LockAnswer::Held => write_word(b"held", sink),
        LockAnswer::Refused(fault) => write_reason(b"lock-fault", lock_fault_word(fault), sink),
    }
}

/// The text of the answer to giving a lock back.
pub(crate) fn write_unlock<K: Sink>(answer: UnlockAnswer, sink: &mut BufferedSink<K>) -> Wrote
    requires { 100 ≤ sink.old.room }
    ensures { GathersAll (outbox K.taken K.faults sink.old) (outbox K.taken K.faults sink.new)
        (ending (unlock_words answer)) result }
{
    match answer {
        UnlockAnswer::Freed => write_word(b"freed", sink),
        UnlockAnswer::Refused(fault) => write_reason(b"lock-fault", lock_fault_word(fault), sink),
    }
}
