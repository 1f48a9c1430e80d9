//! Writing lines of words.

ghost use Rattle.std.specs.Prelude.{◌∷◌, map};
ghost use Rattle.std.specs.List.{flat_map};
ghost use Rattle.base_io.specs.Buffered.{GathersAll, outbox};
ghost use Rattle.base_text.specs.LineTexts.{line_text, spaced_word};

use base_io::{BufferedSink, Sink, Wrote};

/// Writes a space and the word, for each of them.
fn write_spaced<K: Sink>(sink: &mut BufferedSink<K>, words: &[&[u8]]) -> Wrote
    ensures { GathersAll (outbox K.taken K.faults sink.old) (outbox K.taken K.faults sink.new)
        (flat_map spaced_word (map (λ w. w.now) words.now)) result }
{
    for word in words {
        if let Wrote::Fault = sink.write_all(b" ") {
            return Wrote::Fault;
        }
        if let Wrote::Fault = sink.write_all(word) {
            return Wrote::Fault;
        }
    }
    Wrote::Done
}

/// Writes a line of these words: the first one, and the others.
///
/// `Fault` comes only where the sink failed; a prefix of the line went in then. It takes no memory.
pub fn write_line<K: Sink>(sink: &mut BufferedSink<K>, first: &[u8], others: &[&[u8]]) -> Wrote
    ensures { GathersAll (outbox K.taken K.faults sink.old) (outbox K.taken K.faults sink.new)
        (line_text (first.now ∷ map (λ w. w.now) others.now)) result }
{
    if let Wrote::Fault = sink.write_all(first) {
        return Wrote::Fault;
    }
    if let Wrote::Fault = write_spaced(sink, others) {
        return Wrote::Fault;
    }
    sink.write_all(b"\n")
}
