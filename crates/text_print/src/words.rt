//! The words of a line.

ghost use Rattle.base_io.specs.Buffered.{GathersAll, outbox};
ghost use Rattle.std.specs.List.{flat_map};
ghost use Rattle.text_print.specs.Writing.{spaced_word, word_bytes};

use crate::numbers::write_operand;
use crate::payloads::write_payload;
use base_io::{BufferedSink, Sink, Wrote};
use base_text::{LineBytes, write_bytes, write_integer, write_number};
use node_atomics::Op;
use part_collective_area::CollectiveKind;
use part_handlers::{CallKind, Role};
use part_transfers::ImplicitKinds;
use text_calls::{HasName, Operand, Payload};

/// A word of a line behind its name, by what it says.
#[derive(Clone, Copy)]
pub(crate) enum Word<'a> {
    /// A number of 8 bits.
    U8(u8),
    /// A number of 16 bits.
    U16(u16),
    /// A number of 32 bits.
    U32(u32),
    /// A number of 64 bits.
    U64(u64),
    /// A number of 32 bits that may be negative.
    Integer(i32),
    /// A number as an action has it.
    Value(Operand),
    /// A kind of calls.
    Kind(CallKind),
    /// A handler's role.
    Role(Role),
    /// Implicit operations.
    Implicit(ImplicitKinds),
    /// An operation of remote atomics.
    Operation(Op),
    /// A kind of collective.
    Collective(CollectiveKind),
    /// Bytes.
    Bytes(&'a LineBytes),
    /// A payload.
    Payload(&'a Payload),
}

/// Writes a word.
pub(crate) fn write_word<K: Sink>(word: Word<'_>, sink: &mut BufferedSink<K>) -> Wrote
    ensures { GathersAll (outbox K.taken K.faults sink.old) (outbox K.taken K.faults sink.new)
        (word_bytes word.entry) result }
{
    match word {
        Word::U8(number) => write_number(u64::from(number), sink),
        Word::U16(number) => write_number(u64::from(number), sink),
        Word::U32(number) => write_number(u64::from(number), sink),
        Word::U64(number) => write_number(number, sink),
        Word::Integer(number) => write_integer(number, sink),
        Word::Value(operand) => write_operand(operand, sink),
        Word::Kind(kind) => sink.write_all(kind.name()),
        Word::Role(role) => sink.write_all(role.name()),
        Word::Implicit(which) => sink.write_all(which.name()),
        Word::Operation(op) => sink.write_all(op.name()),
        Word::Collective(kind) => sink.write_all(kind.name()),
        Word::Bytes(bytes) => write_bytes(bytes.items(), sink),
        Word::Payload(payload) => write_payload(payload, sink),
    }
}

/// Writes a space and a word for each.
pub(crate) fn write_spaced<K: Sink>(words: &[Word<'_>], sink: &mut BufferedSink<K>) -> Wrote
    ensures { GathersAll (outbox K.taken K.faults sink.old) (outbox K.taken K.faults sink.new)
        (flat_map spaced_word words.now) result }
{
    for word in words {
        if let Wrote::Fault = sink.write_all(b" ") {
            return Wrote::Fault;
        }
        if let Wrote::Fault = write_word(*word, sink) {
            return Wrote::Fault;
        }
    }
    Wrote::Done
}
