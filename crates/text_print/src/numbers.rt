//! Numbers as words of a line.

ghost use Rattle.std.specs.Prelude.{◌++◌, decimal};
ghost use Rattle.base_io.specs.Buffered.{GathersAll, outbox};
ghost use Rattle.text_calls.specs.Kinds.{operand_word};

use base_io::{BufferedSink, Sink, Wrote};
use base_text::{write_integer, write_number};
use text_calls::Operand;

/// Writes a mark and the digits of a number.
fn write_marked<K: Sink>(mark: &[u8], number: u64, sink: &mut BufferedSink<K>) -> Wrote
    ensures { GathersAll (outbox K.taken K.faults sink.old) (outbox K.taken K.faults sink.new)
        (mark.now ++ decimal number) result }
{
    if let Wrote::Fault = sink.write_all(mark) {
        return Wrote::Fault;
    }
    write_number(number, sink)
}

/// Writes the word of a number as an action has it.
pub(crate) fn write_operand<K: Sink>(operand: Operand, sink: &mut BufferedSink<K>) -> Wrote
    ensures { GathersAll (outbox K.taken K.faults sink.old) (outbox K.taken K.faults sink.new)
        (operand_word operand) result }
{
    match operand {
        Operand::Number(number) => write_integer(number, sink),
        Operand::Cell(cell) => write_marked(b"c", u64::from(cell), sink),
        Operand::Argument(place) => write_marked(b"a", u64::from(place), sink),
    }
}
