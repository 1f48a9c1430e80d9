//! The calls of a schedule.

ghost use Rattle.std.specs.Prelude.{◌++◌};
ghost use Rattle.base_io.specs.Buffered.{GathersAll, outbox};
ghost use Rattle.text_calls.specs.Calls.{begin_entry, call_text, implicit_entry, long_row};
ghost use Rattle.text_calls.specs.Calls.{notify_row};
ghost use Rattle.text_calls.specs.Forms.{entry_text, none_text, values_text};
ghost use Rattle.text_calls.specs.declared.scheduled.ScheduledCall.TheVariants as calls;

use crate::forms::{Last, write, write_form, write_list};
use crate::words::Word;
use base_io::{BufferedSink, Sink, Wrote};
use part_transfers::Transfer;
use text_calls::{BatchText, CallForm, HasName, LongText, MediumText, Operands, ScheduledCall};

/// Writes a Short request.
fn write_short<K: Sink>(
    to: u16,
    handler: u8,
    operands: &Operands,
    sink: &mut BufferedSink<K>,
) -> Wrote
    ensures { GathersAll (outbox K.taken K.faults sink.old) (outbox K.taken K.faults sink.new)
        (call_text (calls.Short to handler operands.now)) result }
{
    let words = [Word::U16(to), Word::U8(handler)];
    write_form(CallForm::Short, &words, Last::Operands(operands), sink)
}

/// Writes a Medium request.
fn write_medium<K: Sink>(text: &MediumText, sink: &mut BufferedSink<K>) -> Wrote
    ensures { GathersAll (outbox K.taken K.faults sink.old) (outbox K.taken K.faults sink.new)
        (call_text (calls.Medium text.now)) result }
{
    let words = [
        Word::U16(text.to),
        Word::U8(text.handler),
        Word::Payload(&text.payload),
    ];
    write_form(
        CallForm::Medium,
        &words,
        Last::Operands(&text.operands),
        sink,
    )
}

/// Writes a Long request of this form.
fn write_long<K: Sink, F: HasName>(form: F, text: &LongText, sink: &mut BufferedSink<K>) -> Wrote
    ensures { GathersAll (outbox K.taken K.faults sink.old) (outbox K.taken K.faults sink.new)
        (F.name_of form ++ values_text none_text long_row.shape (
          text.now.to,
          (
            text.now.handler,
            (text.now.payload, (text.now.offset, text.now.operands)),
          ),
        )) result }
{
    let words = [
        Word::U16(text.to),
        Word::U8(text.handler),
        Word::Payload(&text.payload),
        Word::U64(text.offset),
    ];
    write_form(form, &words, Last::Operands(&text.operands), sink)
}

/// Writes the call that puts the same byte at each place of a range.
fn write_fill<K: Sink>(offset: u64, len: u64, byte: u8, sink: &mut BufferedSink<K>) -> Wrote
    ensures { GathersAll (outbox K.taken K.faults sink.old) (outbox K.taken K.faults sink.new)
        (call_text (calls.Fill offset len byte)) result }
{
    let words = [Word::U64(offset), Word::U64(len), Word::U8(byte)];
    write(CallForm::Fill, &words, sink)
}

/// Writes an explicit transfer, whose handle is put into the register.
fn write_begin<K: Sink>(register: u8, transfer: &Transfer, sink: &mut BufferedSink<K>) -> Wrote
    ensures { GathersAll (outbox K.taken K.faults sink.old) (outbox K.taken K.faults sink.new)
        (entry_text none_text (begin_entry register transfer.now)) result }
{
    use Word::{U8, U16, U64};
    match *transfer {
        Transfer::Put {
            to,
            remote,
            local,
            len,
        } => {
            let words = [U8(register), U16(to), U64(remote), U64(local), U64(len)];
            write(CallForm::Put, &words, sink)
        }
        Transfer::Get {
            to,
            remote,
            local,
            len,
        } => {
            let words = [U8(register), U16(to), U64(remote), U64(local), U64(len)];
            write(CallForm::Get, &words, sink)
        }
        Transfer::Memset {
            to,
            remote,
            len,
            byte,
        } => {
            let words = [U8(register), U16(to), U64(remote), U64(len), U8(byte)];
            write(CallForm::Memset, &words, sink)
        }
    }
}

/// Writes an implicit transfer.
fn write_implicit<K: Sink>(transfer: &Transfer, sink: &mut BufferedSink<K>) -> Wrote
    ensures { GathersAll (outbox K.taken K.faults sink.old) (outbox K.taken K.faults sink.new)
        (entry_text none_text (implicit_entry transfer.now)) result }
{
    use Word::{U8, U16, U64};
    match *transfer {
        Transfer::Put {
            to,
            remote,
            local,
            len,
        } => {
            let words = [U16(to), U64(remote), U64(local), U64(len)];
            write(CallForm::ImplicitPut, &words, sink)
        }
        Transfer::Get {
            to,
            remote,
            local,
            len,
        } => {
            let words = [U16(to), U64(remote), U64(local), U64(len)];
            write(CallForm::ImplicitGet, &words, sink)
        }
        Transfer::Memset {
            to,
            remote,
            len,
            byte,
        } => {
            let words = [U16(to), U64(remote), U64(len), U8(byte)];
            write(CallForm::ImplicitMemset, &words, sink)
        }
    }
}

/// Writes a call on the barrier of this form, by the identifier and the flags.
pub(crate) fn write_barrier<K: Sink, F: HasName>(
    form: F,
    id: i32,
    flags: u8,
    sink: &mut BufferedSink<K>,
) -> Wrote
    ensures { GathersAll (outbox K.taken K.faults sink.old) (outbox K.taken K.faults sink.new)
        (F.name_of form ++ values_text none_text notify_row.shape (id, (flags, tt))) result }
{
    write(form, &[Word::Integer(id), Word::U8(flags)], sink)
}

/// Writes a batch of remote atomics.
fn write_batch<K: Sink>(batch: &BatchText, sink: &mut BufferedSink<K>) -> Wrote
    ensures { GathersAll (outbox K.taken K.faults sink.old) (outbox K.taken K.faults sink.new)
        (call_text (calls.Atomic batch.now)) result }
{
    let words = [
        Word::U16(batch.to()),
        Word::U64(batch.local()),
        Word::U64(batch.tag()),
    ];
    write_form(CallForm::Atomic, &words, Last::WordOps(batch.ops()), sink)
}

/// Writes a call.
pub(crate) fn write_call<K: Sink>(call: &ScheduledCall, sink: &mut BufferedSink<K>) -> Wrote
    ensures { GathersAll (outbox K.taken K.faults sink.old) (outbox K.taken K.faults sink.new)
        (call_text call.now) result }
{
    use ScheduledCall as Call;
    use Word::{Bytes, Implicit, Kind, U8, U16, U64, Value};
    match call {
        Call::Short {
            to,
            handler,
            operands,
        } => write_short(*to, *handler, operands, sink),
        Call::Medium { text } => write_medium(text.text(), sink),
        Call::Long { text } => write_long(CallForm::Long, text.text(), sink),
        Call::LongAsync { text } => write_long(CallForm::Async, text.text(), sink),
        Call::Lock { lock } => write(CallForm::Lock, &[U8(*lock)], sink),
        Call::Unlock { lock } => write(CallForm::Unlock, &[U8(*lock)], sink),
        Call::Poll => write(CallForm::Poll, &[], sink),
        Call::Attempt { call } => write(CallForm::Attempt, &[Kind(*call)], sink),
        Call::Cell { cell } => write(CallForm::Cell, &[U8(*cell)], sink),
        Call::SetCell { cell, operand } => write(
            CallForm::SetCell,
            &[U8(*cell), Value(*operand)],
            sink,
        ),
        Call::Show { offset, len } => write(CallForm::Show, &[U64(*offset), U16(*len)], sink),
        Call::Set { offset, bytes } => write(CallForm::Set, &[U64(*offset), Bytes(bytes)], sink),
        Call::Fill { offset, len, byte } => write_fill(*offset, *len, *byte, sink),
        Call::Word { offset } => write(CallForm::Word, &[U64(*offset)], sink),
        Call::SetWord { offset, number } => write(
            CallForm::SetWord,
            &[U64(*offset), U64(*number)],
            sink,
        ),
        Call::Begin { register, transfer } => write_begin(*register, transfer.text(), sink),
        Call::BeginImplicit { transfer } => write_implicit(transfer.text(), sink),
        Call::IsIssued { register } => write(CallForm::Issued, &[U8(*register)], sink),
        Call::Sync { register } => write(CallForm::Try, &[U8(*register)], sink),
        Call::SyncAll { registers } => write_list(CallForm::TryAll, registers, sink),
        Call::SyncSome { registers } => write_list(CallForm::TrySome, registers, sink),
        Call::SyncImplicit { which } => write(CallForm::TryImplicit, &[Implicit(*which)], sink),
        Call::RegionBegin => write(CallForm::RegionBegin, &[], sink),
        Call::RegionEnd { register } => write(CallForm::RegionEnd, &[U8(*register)], sink),
        Call::Notify { id, flags } => write_barrier(CallForm::Notify, *id, *flags, sink),
        Call::TryBarrier { id, flags } => write_barrier(CallForm::TryBarrier, *id, *flags, sink),
        Call::Atomic { batch } => write_batch(batch.text(), sink),
    }
}
