//! Writing numbers as words of a line.

ghost use Rattle.std.specs.Prelude.{decimal};
ghost use Rattle.std.specs.Fmt.{signed_decimal};
ghost use Rattle.base_io.specs.Buffered.{GathersAll, outbox};

use base_io::{BufferedSink, Sink, Wrote};
use itoa::Buffer;

/// The most digits of a number.
const DIGITS: usize = 20;

/// Writes the digits of a number.
///
/// `Fault` comes only where the sink failed; a prefix of the digits went in then. It takes no memory.
pub fn write_number<K: Sink>(number: u64, sink: &mut BufferedSink<K>) -> Wrote
    ensures { GathersAll (outbox K.taken K.faults sink.old) (outbox K.taken K.faults sink.new)
        (decimal number) result }
{
    if let Wrote::Fault = sink.make_room(DIGITS) {
        return Wrote::Fault;
    }
    sink.put_number(number);
    Wrote::Done
}

/// Writes the digits of a number that may be negative.
///
/// `Fault` comes only where the sink failed; a prefix of the digits went in then. It takes no memory.
pub fn write_integer<K: Sink>(number: i32, sink: &mut BufferedSink<K>) -> Wrote
    ensures { GathersAll (outbox K.taken K.faults sink.old) (outbox K.taken K.faults sink.new)
        (signed_decimal number) result }
{
    let mut digits = Buffer::new();
    sink.write_all(digits.format(number).as_bytes())
}
