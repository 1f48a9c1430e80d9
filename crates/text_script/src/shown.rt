//! The lines that show bytes of a segment.

ghost use Rattle.std.specs.Prelude.{◌∷◌, [], codes};
ghost use Rattle.base_io.specs.Buffered.{GathersAll, outbox};
ghost use Rattle.text_script.specs.AnswerWords.{shown_word};
ghost use Rattle.base_text.specs.LineTexts.{ending};

use base_io::{BufferedSink, Sink, Wrote};
use base_text::write_digits;

/// Writes the word of bytes that are shown: two digits for each, or `-` where there are none.
fn write_shown_word<K: Sink>(bytes: &[u8], sink: &mut BufferedSink<K>) -> Wrote
    ensures { GathersAll (outbox K.taken K.faults sink.old) (outbox K.taken K.faults sink.new)
        (shown_word bytes.now) result }
{
    if bytes.is_empty() {
        return sink.write_all(b"-");
    }
    write_digits(bytes, sink)
}

/// The text of bytes that are shown, behind the number of a line.
pub(crate) fn write_shown<K: Sink>(bytes: &[u8], sink: &mut BufferedSink<K>) -> Wrote
    ensures { GathersAll (outbox K.taken K.faults sink.old) (outbox K.taken K.faults sink.new)
        (ending (codes "bytes" ∷ shown_word bytes.now ∷ [])) result }
{
    if let Wrote::Fault = sink.write_all(b" bytes ") {
        return Wrote::Fault;
    }
    if let Wrote::Fault = write_shown_word(bytes, sink) {
        return Wrote::Fault;
    }
    sink.write_all(b"\n")
}
