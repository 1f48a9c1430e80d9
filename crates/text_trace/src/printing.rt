//! Printing the lines of a trace.

ghost use Rattle.base_io.specs.Buffered.{GathersAll, outbox};
ghost use Rattle.base_text.specs.LineTexts.{line_text};
ghost use Rattle.text_trace.specs.LineNames.{line_name};
ghost use Rattle.text_trace.specs.TraceText.{entry_line, got_word, head_text, line_of_number};

use crate::line_name::LineName;
use base_io::{BufferedSink, Sink, Wrote};
use base_text::{put_number, write_bytes, write_line};
use base_turns::{Bytes, Entry};
use itoa::Buffer;

/// The most bytes of an entry's line before what it got: `turn`, two numbers of 20 digits, and three spaces.
const HEAD_BYTES: usize = 47;

/// Writes the word of what a turn got.
fn write_got<K: Sink>(sink: &mut BufferedSink<K>, got: &Option<Bytes>) -> Wrote
    ensures { GathersAll (outbox K.taken K.faults sink.old) (outbox K.taken K.faults sink.new)
        (got_word got.now) result }
{
    let Some(bytes) = got else {
        return sink.write_all(b"-");
    };
    write_bytes(bytes.as_slice(), sink)
}

/// Writes the line of a name and a number.
fn write_setting<K: Sink>(sink: &mut BufferedSink<K>, name: LineName, number: u64) -> Wrote
    ensures { GathersAll (outbox K.taken K.faults sink.old) (outbox K.taken K.faults sink.new)
        (line_text (line_of_number (line_name name) number)) result }
{
    let mut buffer = Buffer::new();
    let digits = buffer.format(number).as_bytes();
    write_line(sink, name.word(), &[digits])
}

/// Writes the line of an entry, into a sink that gathers.
///
/// `Fault` comes only where the sink behind failed; a prefix of the line went in then.
pub fn print_entry<K: Sink>(sink: &mut BufferedSink<K>, entry: &Entry) -> Wrote
    ensures { GathersAll (outbox K.taken K.faults sink.old) (outbox K.taken K.faults sink.new)
        (line_text (entry_line entry.entry.now)) result }
{
    if let Wrote::Fault = sink.make_room(HEAD_BYTES) {
        return Wrote::Fault;
    }
    sink.put(LineName::Turn.word());
    put_number(u64::from(entry.thread), sink);
    put_number(entry.now, sink);
    sink.put(b" ");
    if let Wrote::Fault = write_got(sink, &entry.got) {
        return Wrote::Fault;
    }
    sink.write_all(b"\n")
}

/// Writes the lines of a trace before its entries, in this version of the text, into a sink that gathers.
///
/// `Fault` comes only where the sink behind failed; a prefix of the lines went in then.
pub fn print_head<K: Sink>(version: u8, job: u64, rank: u16, sink: &mut BufferedSink<K>) -> Wrote
    ensures { GathersAll (outbox K.taken K.faults sink.old) (outbox K.taken K.faults sink.new)
        (head_text version job rank) result }
{
    if let Wrote::Fault = write_setting(sink, LineName::Trace, u64::from(version)) {
        return Wrote::Fault;
    }
    if let Wrote::Fault = write_setting(sink, LineName::Job, job) {
        return Wrote::Fault;
    }
    write_setting(sink, LineName::Rank, u64::from(rank))
}
