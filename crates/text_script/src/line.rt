//! The calls of a schedule, as they are made.

ghost use Rattle.std.specs.Prelude.{◌≡◌, ℤ, List, [], map};
ghost use Rattle.node_core.specs.AskedFor.{payload_from};
ghost use Rattle.node_rules.specs.Called.{Requests, meant};
ghost use Rattle.node_atomics.specs.Asking.{batch_asking};
ghost use Rattle.text_script.specs.Callable.{IsCallable};
ghost use Rattle.text_script.specs.Bodies.{operand_value};
ghost use Rattle.text_script.specs.ScheduledCalls.{IsGiven, IsOnSegment, IsOnTransfers, IsOwn, given_from, meant_by};
ghost use Rattle.text_script.specs.ScheduledCalls.{meant_long, meant_medium};
ghost use Rattle.text_calls.specs.Payloads.{IsPayload};

use crate::body_numbers::{value_of, values_of};
use node_atomics::BATCH_HANDLER;
use node_core::Payload;
use node_rules::Call;
use part_handlers::Cells;
use text_calls::{BatchText, LongText, MediumText, Operands, Payload as Given, ScheduledCall};

/// A call, by the cells of its node. The arguments of a request are put into `args`.
pub fn call_of<'a>(call: &'a ScheduledCall, cells: &Cells, args: &'a mut [i32; 17]) -> Call<'a>
    requires { IsGiven call.now }
    ensures meant { meant result ≡ meant_by cells.now call.now }
    ensures callable { IsCallable result }
{
    match call {
        ScheduledCall::Short {
            to,
            handler,
            operands,
        } => Call::Short {
            to: *to,
            handler: *handler,
            args: args_of(operands, cells, args),
        },
        ScheduledCall::Medium { text } => medium_of(text.text(), cells, args),
        ScheduledCall::Long { text } => long_of(text.text(), cells, args),
        ScheduledCall::LongAsync { text } => async_of(text.text(), cells, args),
        ScheduledCall::Atomic { batch } => batch_of(batch.text()),
        _ => own_call_of(call, cells),
    }
}

/// The numbers of the arguments of a request, put into `args`.
fn args_of<'a>(operands: &Operands, cells: &Cells, args: &'a mut [i32; 17]) -> &'a [i32]
    ensures { result.now ≡ map (operand_value cells.now []) operands.now }
{
    let operands = operands.items();
    *args = values_of(operands, cells, &[]);
    let args: &'a [i32; 17] = args;
    &args[..operands.len()]
}

/// Where the payload of a request is.
fn payload_of(payload: &Given) -> Payload<'_>
    requires { IsPayload payload.now }
    ensures { payload_from result ≡ given_from payload.now }
{
    match payload {
        Given::Bytes { bytes } => Payload::Lent(bytes.items()),
        Given::Range { offset, len } => Payload::Own {
            offset: *offset,
            len: *len,
        },
        Given::Message => unreachable!(),
    }
}

/// A Medium request.
fn medium_of<'a>(text: &'a MediumText, cells: &Cells, args: &'a mut [i32; 17]) -> Call<'a>
    requires { IsPayload text.now.payload }
    ensures meant { meant result ≡ meant_medium cells.now text.now }
    ensures callable { IsCallable result }
{
    Call::Medium {
        to: text.to,
        handler: text.handler,
        args: args_of(&text.operands, cells, args),
        payload: payload_of(&text.payload),
    }
}

/// A Long request.
fn long_of<'a>(text: &'a LongText, cells: &Cells, args: &'a mut [i32; 17]) -> Call<'a>
    requires { IsPayload text.now.payload }
    ensures meant { meant result ≡ meant_long cells.now text.now }
    ensures callable { IsCallable result }
{
    Call::Long {
        to: text.to,
        handler: text.handler,
        args: args_of(&text.operands, cells, args),
        payload: payload_of(&text.payload),
        offset: text.offset,
    }
}

/// A Long request whose payload may be read later.
fn async_of<'a>(text: &'a LongText, cells: &Cells, args: &'a mut [i32; 17]) -> Call<'a>
    requires { IsPayload text.now.payload }
    ensures meant { meant result ≡ meant_long cells.now text.now }
    ensures callable { IsCallable result }
{
    Call::LongAsync {
        to: text.to,
        handler: text.handler,
        args: args_of(&text.operands, cells, args),
        payload: payload_of(&text.payload),
        offset: text.offset,
    }
}

/// The request of a batch of atomic operations.
fn batch_of(batch: &BatchText) -> Call<'_>
    ensures meant { meant result ≡ Requests batch.now.to (batch_asking batch.now.request) }
    ensures callable { IsCallable result }
{
    Call::Medium {
        to: batch.to(),
        handler: BATCH_HANDLER,
        args: batch.arguments(),
        payload: Payload::Lent(batch.payload()),
    }
}

/// A call that makes no request.
fn own_call_of<'a>(call: &'a ScheduledCall, cells: &Cells) -> Call<'a>
    requires { IsOwn call.now }
    ensures meant { meant result ≡ meant_by cells.now call.now }
    ensures callable { IsCallable result }
{
    match call {
        ScheduledCall::Lock { lock } => Call::Lock { k: *lock },
        ScheduledCall::Unlock { lock } => Call::Unlock { k: *lock },
        ScheduledCall::Poll => Call::Poll,
        ScheduledCall::Attempt { call } => Call::Attempt { call: *call },
        ScheduledCall::Cell { cell } => Call::Cell { c: *cell },
        ScheduledCall::SetCell { cell, operand } => Call::SetCell {
            c: *cell,
            value: value_of(*operand, cells, &[]),
        },
        ScheduledCall::Show { .. }
        | ScheduledCall::Set { .. }
        | ScheduledCall::Fill { .. }
        | ScheduledCall::Word { .. }
        | ScheduledCall::SetWord { .. } => segment_call_of(call),
        _ => transfer_call_of(call),
    }
}

/// A call on the local segment.
fn segment_call_of(call: &ScheduledCall) -> Call<'_>
    requires { IsOnSegment call.now }
    ensures meant { (cells : List ℤ) → meant result ≡ meant_by cells call.now }
    ensures callable { IsCallable result }
{
    match call {
        ScheduledCall::Show { offset, len } => Call::Show {
            offset: *offset,
            len: u64::from(*len),
        },
        ScheduledCall::Set { offset, bytes } => Call::Set {
            offset: *offset,
            bytes: bytes.items(),
        },
        ScheduledCall::Fill { offset, len, byte } => Call::Fill {
            offset: *offset,
            len: *len,
            byte: *byte,
        },
        ScheduledCall::Word { offset } => Call::LoadWord { offset: *offset },
        ScheduledCall::SetWord { offset, number } => Call::SetWord {
            offset: *offset,
            value: *number,
        },
        _ => unreachable!(),
    }
}

/// A call on transfers, regions or the barrier.
fn transfer_call_of(call: &ScheduledCall) -> Call<'_>
    requires { IsOnTransfers call.now }
    ensures meant { (cells : List ℤ) → meant result ≡ meant_by cells call.now }
    ensures callable { IsCallable result }
{
    match call {
        ScheduledCall::Begin { register, transfer } => Call::Begin {
            reg: Some(*register),
            transfer: *transfer.text(),
        },
        ScheduledCall::BeginImplicit { transfer } => Call::BeginImplicit {
            transfer: *transfer.text(),
        },
        ScheduledCall::IsIssued { register } => Call::IsIssued { reg: *register },
        ScheduledCall::Sync { register } => Call::Sync { reg: *register },
        ScheduledCall::SyncAll { registers } => Call::SyncAll {
            regs: registers.items(),
        },
        ScheduledCall::SyncSome { registers } => Call::SyncSome {
            regs: registers.items(),
        },
        ScheduledCall::SyncImplicit { which } => Call::SyncImplicit { which: *which },
        ScheduledCall::RegionBegin => Call::RegionBegin,
        ScheduledCall::RegionEnd { register } => Call::RegionEnd { reg: *register },
        ScheduledCall::Notify { id, flags } => Call::Notify {
            id: *id,
            flags: *flags,
        },
        ScheduledCall::TryBarrier { id, flags } => Call::TryBarrier {
            id: *id,
            flags: *flags,
        },
        _ => unreachable!(),
    }
}
