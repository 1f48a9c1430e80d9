//! Lines that are calls of collectives.

ghost use Rattle.base_io.specs.Buffered.{GathersAll, outbox};
ghost use Rattle.text_steps.specs.CollectiveLines.{collective_text};

use crate::forms::write;
use crate::words::Word;
use base_io::{BufferedSink, Sink, Wrote};
use text_steps::{CollectiveForm, CollectiveText};

/// Writes the words of such a line.
pub(crate) fn write_collective<K: Sink>(call: &CollectiveText, sink: &mut BufferedSink<K>) -> Wrote
    ensures { GathersAll (outbox K.taken K.faults sink.old) (outbox K.taken K.faults sink.new)
        (collective_text call.now) result }
{
    use Word::{Collective, U16, U64};
    match *call {
        CollectiveText::Start { shape, from } => {
            let words = [
                Collective(shape.kind),
                U16(shape.root),
                U64(from),
                U64(shape.len),
            ];
            write(CollectiveForm::Start, &words, sink)
        }
        CollectiveText::Step => write(CollectiveForm::Step, &[], sink),
        CollectiveText::Try { dest } => write(CollectiveForm::Try, &[U64(dest)], sink),
    }
}
