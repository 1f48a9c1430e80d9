//! Payloads as words of a line.

ghost use Rattle.std.specs.Prelude.{◌++◌, ◌∷◌, decimal};
ghost use Rattle.base_io.specs.Buffered.{GathersAll, outbox};
ghost use Rattle.text_calls.specs.Payloads.{payload_word};

use base_io::{BufferedSink, Sink, Wrote};
use base_text::{write_bytes, write_number};
use text_calls::Payload;

/// Writes the word of a range: its offset and its length.
fn write_range<K: Sink>(offset: u64, len: u64, sink: &mut BufferedSink<K>) -> Wrote
    ensures { GathersAll (outbox K.taken K.faults sink.old) (outbox K.taken K.faults sink.new)
        (decimal offset ++ 43 ∷ decimal len) result }
{
    if let Wrote::Fault = write_number(offset, sink) {
        return Wrote::Fault;
    }
    if let Wrote::Fault = sink.write_all(b"+") {
        return Wrote::Fault;
    }
    write_number(len, sink)
}

/// Writes the word of a payload.
pub(crate) fn write_payload<K: Sink>(payload: &Payload, sink: &mut BufferedSink<K>) -> Wrote
    ensures { GathersAll (outbox K.taken K.faults sink.old) (outbox K.taken K.faults sink.new)
        (payload_word payload.now) result }
{
    match payload {
        Payload::Bytes { bytes } => write_bytes(bytes.items(), sink),
        Payload::Range { offset, len } => write_range(*offset, *len, sink),
        Payload::Message => sink.write_all(b"p"),
    }
}
