//! The steps of a script.

ghost use Rattle.base_io.specs.Buffered.{GathersAll, outbox};
ghost use Rattle.text_calls.specs.Forms.{entry_text, none_text};
ghost use Rattle.text_steps.specs.declared.steps.WaitingStep.TheVariants as waits;
ghost use Rattle.text_steps.specs.Scripts.{step_text, transfer_entry, waiting_text};

use crate::calls::{write_barrier, write_call};
use crate::collectives::write_collective;
use crate::forms::{write, write_list};
use crate::vis::write_vis;
use crate::words::Word;
use base_io::{BufferedSink, Sink, Wrote};
use part_collective_area::Shape;
use part_transfers::Transfer;
use text_steps::{PutText, ScriptStep, WaitingForm, WaitingStep};

/// Writes a transfer that is waited for.
fn write_transfer<K: Sink>(transfer: &Transfer, sink: &mut BufferedSink<K>) -> Wrote
    ensures { GathersAll (outbox K.taken K.faults sink.old) (outbox K.taken K.faults sink.new)
        (entry_text none_text (transfer_entry transfer.now)) result }
{
    use Word::{U8, U16, U64};
    match *transfer {
        Transfer::Put {
            to,
            remote,
            local,
            len,
        } => {
            let words = [U16(to), U64(remote), U64(local), U64(len)];
            write(WaitingForm::Put, &words, sink)
        }
        Transfer::Get {
            to,
            remote,
            local,
            len,
        } => {
            let words = [U16(to), U64(remote), U64(local), U64(len)];
            write(WaitingForm::Get, &words, sink)
        }
        Transfer::Memset {
            to,
            remote,
            len,
            byte,
        } => {
            let words = [U16(to), U64(remote), U64(len), U8(byte)];
            write(WaitingForm::Memset, &words, sink)
        }
    }
}

/// Writes a whole collective.
fn write_coll<K: Sink>(shape: Shape, from: u64, dest: u64, sink: &mut BufferedSink<K>) -> Wrote
    ensures { GathersAll (outbox K.taken K.faults sink.old) (outbox K.taken K.faults sink.new)
        (waiting_text (waits.Collective shape from dest)) result }
{
    use Word::{Collective, U16, U64};
    let words = [
        Collective(shape.kind),
        U16(shape.root),
        U64(from),
        U64(shape.len),
        U64(dest),
    ];
    write(WaitingForm::Coll, &words, sink)
}

/// Writes a step that scripts alone have.
fn write_waiting<K: Sink>(step: &WaitingStep, sink: &mut BufferedSink<K>) -> Wrote
    ensures { GathersAll (outbox K.taken K.faults sink.old) (outbox K.taken K.faults sink.new)
        (waiting_text step.now) result }
{
    use WaitingStep as Step;
    use Word::{Implicit, U8, U16, U64, Value};
    match step {
        Step::Until { cell, operand } => write(
            WaitingForm::Until,
            &[U8(*cell), Value(*operand)],
            sink,
        ),
        Step::Transfer { transfer } => write_transfer(transfer.text(), sink),
        Step::PutBegin { register, put } => {
            let PutText {
                to,
                remote,
                local,
                len,
            } = *put;
            let words = [U8(*register), U16(to), U64(remote), U64(local), U64(len)];
            write(WaitingForm::PutBegin, &words, sink)
        }
        Step::PutImplicit { put } => {
            let words = [U16(put.to), U64(put.remote), U64(put.local), U64(put.len)];
            write(WaitingForm::PutImplicit, &words, sink)
        }
        Step::Wait { register } => write(WaitingForm::Wait, &[U8(*register)], sink),
        Step::WaitAll { registers } => write_list(WaitingForm::WaitAll, registers, sink),
        Step::WaitSome { registers } => write_list(WaitingForm::WaitSome, registers, sink),
        Step::WaitImplicit { which } => write(WaitingForm::WaitImplicit, &[Implicit(*which)], sink),
        Step::BarrierWait { id, flags } => write_barrier(
            WaitingForm::BarrierWait,
            *id,
            *flags,
            sink,
        ),
        Step::UntilWord { offset, number } => {
            write(WaitingForm::UntilWord, &[U64(*offset), U64(*number)], sink)
        }
        Step::Collective { shape, from, dest } => write_coll(*shape, *from, *dest, sink),
    }
}

/// Writes a step.
pub(crate) fn write_step<K: Sink>(step: &ScriptStep, sink: &mut BufferedSink<K>) -> Wrote
    ensures { GathersAll (outbox K.taken K.faults sink.old) (outbox K.taken K.faults sink.new)
        (step_text step.now) result }
{
    match step {
        ScriptStep::Call { call } => write_call(call, sink),
        ScriptStep::Vis { vis } => write_vis(vis.text(), sink),
        ScriptStep::Collective { call } => write_collective(call, sink),
        ScriptStep::Waiting { step } => write_waiting(step, sink),
    }
}
