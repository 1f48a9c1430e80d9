//! Forms of lines: a name, words, and of some a list at the end.

ghost use Rattle.std.specs.Prelude.{◌++◌, ◌∷◌, [], decimal};
ghost use Rattle.std.specs.List.{flat_map};
ghost use Rattle.base_io.specs.Buffered.{GathersAll, outbox};
ghost use Rattle.text_calls.specs.Forms.{Operations, Spans, Strides, bundle_text};
ghost use Rattle.text_calls.specs.Kinds.{operand_word};
ghost use Rattle.text_print.specs.Writing.{last_text, words_then};

use crate::numbers::write_operand;
use crate::words::{Word, write_spaced};
use base_io::{BufferedSink, Sink, Wrote};
use base_text::write_number;
use node_atomics::WordOp;
use node_vis::Level;
use text_calls::{HasName, Operand, Operands, Registers};
use text_job::ListedLocks;

/// The list of words at the end of a line.
#[derive(Clone, Copy)]
pub(crate) enum Last<'a> {
    /// None.
    Nothing,
    /// Numbers as an action has them.
    Operands(&'a Operands),
    /// Registers.
    Registers(&'a Registers),
    /// Locks.
    Locks(&'a ListedLocks),
    /// Operations of remote atomics.
    WordOps(&'a [WordOp]),
    /// Levels of a strided transfer.
    Levels(&'a [Level]),
    /// Ranges of the other segment, and of the local one.
    Ranges(&'a [(u64, u64)], &'a [(u64, u64)]),
}

/// Writes a space and the word of each operand.
fn write_operands<K: Sink>(operands: &[Operand], sink: &mut BufferedSink<K>) -> Wrote
    ensures { GathersAll (outbox K.taken K.faults sink.old) (outbox K.taken K.faults sink.new)
        (flat_map (λ operand. 32 ∷ operand_word operand) operands.now) result }
{
    for operand in operands {
        if let Wrote::Fault = sink.write_all(b" ") {
            return Wrote::Fault;
        }
        if let Wrote::Fault = write_operand(*operand, sink) {
            return Wrote::Fault;
        }
    }
    Wrote::Done
}

/// Writes a space and the digits of each number.
fn write_numbers<K: Sink>(numbers: &[u8], sink: &mut BufferedSink<K>) -> Wrote
    ensures { GathersAll (outbox K.taken K.faults sink.old) (outbox K.taken K.faults sink.new)
        (flat_map (λ number. 32 ∷ decimal number) numbers.now) result }
{
    for number in numbers {
        if let Wrote::Fault = sink.write_all(b" ") {
            return Wrote::Fault;
        }
        if let Wrote::Fault = write_number(u64::from(*number), sink) {
            return Wrote::Fault;
        }
    }
    Wrote::Done
}

/// Writes a space and each word of an operation of remote atomics.
fn write_op<K: Sink>(op: &WordOp, sink: &mut BufferedSink<K>) -> Wrote
    ensures { GathersAll (outbox K.taken K.faults sink.old) (outbox K.taken K.faults sink.new)
        (bundle_text Operations op.now) result }
{
    let words = [
        Word::Operation(op.op),
        Word::U64(op.offset),
        Word::U64(op.a),
        Word::U64(op.b),
    ];
    write_spaced(&words, sink)
}

/// Writes the words of operations, in their order.
fn write_ops<K: Sink>(ops: &[WordOp], sink: &mut BufferedSink<K>) -> Wrote
    ensures { GathersAll (outbox K.taken K.faults sink.old) (outbox K.taken K.faults sink.new)
        (flat_map (bundle_text Operations) ops.now) result }
{
    for op in ops {
        if let Wrote::Fault = write_op(op, sink) {
            return Wrote::Fault;
        }
    }
    Wrote::Done
}

/// Writes a space and each word of a level of a strided transfer.
fn write_level<K: Sink>(level: &Level, sink: &mut BufferedSink<K>) -> Wrote
    ensures { GathersAll (outbox K.taken K.faults sink.old) (outbox K.taken K.faults sink.new)
        (bundle_text Strides level.now) result }
{
    let words = [
        Word::U64(level.count),
        Word::U64(level.remote),
        Word::U64(level.local),
    ];
    write_spaced(&words, sink)
}

/// Writes the words of levels, in their order.
fn write_levels<K: Sink>(levels: &[Level], sink: &mut BufferedSink<K>) -> Wrote
    ensures { GathersAll (outbox K.taken K.faults sink.old) (outbox K.taken K.faults sink.new)
        (flat_map (bundle_text Strides) levels.now) result }
{
    for level in levels {
        if let Wrote::Fault = write_level(level, sink) {
            return Wrote::Fault;
        }
    }
    Wrote::Done
}

/// Writes a space and each word of a range.
fn write_range<K: Sink>(range: &(u64, u64), sink: &mut BufferedSink<K>) -> Wrote
    ensures { GathersAll (outbox K.taken K.faults sink.old) (outbox K.taken K.faults sink.new)
        (bundle_text Spans range.now) result }
{
    write_spaced(&[Word::U64(range.0), Word::U64(range.1)], sink)
}

/// Writes the words of ranges, in their order.
fn write_ranges<K: Sink>(ranges: &[(u64, u64)], sink: &mut BufferedSink<K>) -> Wrote
    ensures { GathersAll (outbox K.taken K.faults sink.old) (outbox K.taken K.faults sink.new)
        (flat_map (bundle_text Spans) ranges.now) result }
{
    for range in ranges {
        if let Wrote::Fault = write_range(range, sink) {
            return Wrote::Fault;
        }
    }
    Wrote::Done
}

/// Writes the words of ranges, and of others behind them.
fn write_both<K: Sink>(
    first: &[(u64, u64)],
    others: &[(u64, u64)],
    sink: &mut BufferedSink<K>,
) -> Wrote
    ensures { GathersAll (outbox K.taken K.faults sink.old) (outbox K.taken K.faults sink.new)
        (flat_map (bundle_text Spans) first.now ++ flat_map (bundle_text Spans) others.now) result }
{
    if let Wrote::Fault = write_ranges(first, sink) {
        return Wrote::Fault;
    }
    write_ranges(others, sink)
}

/// Writes the list at the end of a line.
fn write_last<K: Sink>(last: Last<'_>, sink: &mut BufferedSink<K>) -> Wrote
    ensures { GathersAll (outbox K.taken K.faults sink.old) (outbox K.taken K.faults sink.new)
        (last_text last.entry) result }
{
    match last {
        Last::Nothing => Wrote::Done,
        Last::Operands(operands) => write_operands(operands.items(), sink),
        Last::Registers(registers) => write_numbers(registers.items(), sink),
        Last::Locks(locks) => write_numbers(locks.items(), sink),
        Last::WordOps(ops) => write_ops(ops, sink),
        Last::Levels(levels) => write_levels(levels, sink),
        Last::Ranges(remote, local) => write_both(remote, local, sink),
    }
}

/// Writes a name, a space and a word for each of the words, and a list.
pub(crate) fn write_named_form<K: Sink>(
    name: &[u8],
    words: &[Word<'_>],
    last: Last<'_>,
    sink: &mut BufferedSink<K>,
) -> Wrote
    ensures { GathersAll (outbox K.taken K.faults sink.old) (outbox K.taken K.faults sink.new)
        (name.now ++ words_then words.now (last_text last.entry)) result }
{
    if let Wrote::Fault = sink.write_all(name) {
        return Wrote::Fault;
    }
    if let Wrote::Fault = write_spaced(words, sink) {
        return Wrote::Fault;
    }
    write_last(last, sink)
}

/// Writes the name of a form, a space and a word for each of the words, and a list.
pub(crate) fn write_form<K: Sink, F: HasName>(
    form: F,
    words: &[Word<'_>],
    last: Last<'_>,
    sink: &mut BufferedSink<K>,
) -> Wrote
    ensures { GathersAll (outbox K.taken K.faults sink.old) (outbox K.taken K.faults sink.new)
        (F.name_of form ++ words_then words.now (last_text last.entry)) result }
{
    write_named_form(form.name(), words, last, sink)
}

/// Writes the name of a form, and a space and a word for each of the words.
pub(crate) fn write<K: Sink, F: HasName>(
    form: F,
    words: &[Word<'_>],
    sink: &mut BufferedSink<K>,
) -> Wrote
    ensures { GathersAll (outbox K.taken K.faults sink.old) (outbox K.taken K.faults sink.new)
        (F.name_of form ++ words_then words.now []) result }
{
    write_named_form(form.name(), words, Last::Nothing, sink)
}

/// Writes the name of a form, and a space and a word for each of the registers.
pub(crate) fn write_list<K: Sink, F: HasName>(
    form: F,
    registers: &Registers,
    sink: &mut BufferedSink<K>,
) -> Wrote
    ensures { GathersAll (outbox K.taken K.faults sink.old) (outbox K.taken K.faults sink.new)
        (F.name_of form ++ flat_map (λ register. 32 ∷ decimal register) registers.now) result }
{
    write_named_form(form.name(), &[], Last::Registers(registers), sink)
}

/// Writes the line of a form that has no words.
pub(crate) fn write_bare<K: Sink, F: HasName>(form: F, sink: &mut BufferedSink<K>) -> Wrote
    ensures { GathersAll (outbox K.taken K.faults sink.old) (outbox K.taken K.faults sink.new)
        (F.name_of form ++ 10 ∷ []) result }
{
    if let Wrote::Fault = sink.write_all(form.name()) {
        return Wrote::Fault;
    }
    sink.write_all(b"\n")
}
