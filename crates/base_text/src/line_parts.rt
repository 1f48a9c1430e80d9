//! The parts of a line, put into a sink where there is room for the whole line.

ghost use Rattle.std.specs.Prelude.{◌≡◌, ◌<◌, ◌≤◌, ◌+◌, ◌∷◌, [], decimal, length};
ghost use Rattle.base_io.specs.Buffered.{Gathers, outbox};
ghost use Rattle.base_text.specs.LineTexts.{spaced_word};

use base_io::{BufferedSink, Sink};

/// Puts a space and a word.
#[inline(always)]
pub fn put_word<K: Sink>(word: &[u8], sink: &mut BufferedSink<K>)
    requires { length word.now < sink.old.room }
    ensures gathers { Gathers (outbox K.taken K.faults sink.old) (outbox K.taken K.faults sink.new)
        (spaced_word word.now) }
    ensures room { sink.old.room ≡ sink.new.room + length word.now + 1 }
{
    sink.put(b" ");
    sink.put(word);
}

/// Puts a space and a number.
#[inline(always)]
pub fn put_number<K: Sink>(number: u64, sink: &mut BufferedSink<K>)
    requires { 21 ≤ sink.old.room }
    ensures gathers { Gathers (outbox K.taken K.faults sink.old) (outbox K.taken K.faults sink.new)
        (spaced_word (decimal number)) }
    ensures room { sink.old.room ≤ sink.new.room + 21 }
{
    sink.put(b" ");
    sink.put_number(number);
}

/// Puts the end of a line.
#[inline(always)]
pub fn put_end<K: Sink>(sink: &mut BufferedSink<K>)
    requires { 1 ≤ sink.old.room }
    ensures { Gathers (outbox K.taken K.faults sink.old) (outbox K.taken K.faults sink.new)
        (10 ∷ []) }
{
    sink.put(b"\n");
}
