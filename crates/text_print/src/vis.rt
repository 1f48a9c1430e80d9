//! Lines that begin transfers of many pieces.

ghost use Rattle.std.specs.Prelude.{◌≡◌};
ghost use Rattle.base_io.specs.Buffered.{GathersAll, outbox};
ghost use Rattle.text_vis.specs.VisLines.{vis_text};
ghost use Rattle.text_print.specs.Writing.{indexed_name, strided_name};

use crate::forms::{Last, write_named_form};
use crate::words::Word;
use base_io::{BufferedSink, Sink, Wrote};
use node_vis::Way;
use text_calls::HasName;
use text_vis::{VisForm, VisShape, VisText};

/// The name of a strided transfer.
fn strided_name(way: Way) -> &'static [u8]
    ensures { result.now ≡ strided_name way }
{
    match way {
        Way::Put => VisForm::PutStrided.name(),
        Way::Get => VisForm::GetStrided.name(),
    }
}

/// The name of an indexed transfer.
fn indexed_name(way: Way) -> &'static [u8]
    ensures { result.now ≡ indexed_name way }
{
    match way {
        Way::Put => VisForm::PutIndexed.name(),
        Way::Get => VisForm::GetIndexed.name(),
    }
}

/// Writes the words of such a line.
pub(crate) fn write_vis<K: Sink>(vis: &VisText, sink: &mut BufferedSink<K>) -> Wrote
    ensures { GathersAll (outbox K.taken K.faults sink.old) (outbox K.taken K.faults sink.new)
        (vis_text vis.now) result }
{
    use Word::{U8, U16, U64};
    let words = &vis.words;
    let register = U8(words.register);
    let (from, to) = (U16(words.from), U16(words.to));
    match &words.shape {
        VisShape::Strided {
            remote,
            local,
            len,
            levels,
        } => {
            let first = [register, from, to, U64(*remote), U64(*local), U64(*len)];
            write_named_form(
                strided_name(words.way),
                &first,
                Last::Levels(levels.items()),
                sink,
            )
        }
        VisShape::Indexed { remote, local } => {
            let remote = remote.items();
            let local = local.items();
            let first = [register, from, to, U64(remote.len() as u64)];
            write_named_form(
                indexed_name(words.way),
                &first,
                Last::Ranges(remote, local),
                sink,
            )
        }
    }
}
