//! The tries of the steps that scripts alone have.

ghost use Rattle.std.specs.Prelude.{◌≡◌, ◌<◌, ℤ, List, None, Some};
ghost use Rattle.node_rules.specs.Called.{meant};
ghost use Rattle.node_rules.specs.declared.answer.Answer.{Answer};
ghost use Rattle.node_endpoint.specs.EndpointState.{ForItsRecord, MayBeCalled};
ghost use Rattle.text_steps.specs.declared.steps.WaitingStep.{WaitingStep};
ghost use Rattle.law_traces.specs.Actions.{Again, Looks};
ghost use Rattle.text_script.specs.Callable.{IsCallable};
ghost use Rattle.proc_steps.specs.Forms.{IsPlain, IsPut, IsSync, is_not_ready, is_sent, put_of, waiting_form};
ghost use Rattle.proc_steps.specs.Tries.{TriesForm, read_as, look_result};

use crate::answers::{as_synced, begun_handle, is_not_ready, reached, word_reached};
use crate::making::{is_sent, make};
use crate::trial::{Trial, Tried};
use law_traces::ScriptAnswer;
use node_endpoint::Endpoint;
use node_rules::{Answer, Call};
use part_handlers::Handlers;
use part_transfers::Transfer;
use text_calls::Operand;
use text_script::value_of;
use text_steps::{PutText, WaitingStep};

/// The try of an `until`: it reads the cell.
pub(crate) fn try_until<H: Handlers>(
    endpoint: &mut Endpoint,
    handlers: &H,
    trial: &Trial<'_>,
    cell: u8,
    operand: Operand,
) -> Tried
    requires { trial.now.thread < endpoint.old.core.settings.threads }
    ensures { TriesForm (H.meaning handlers.now) endpoint.old
        (read_as trial.now (λ node.
        waiting_form node.local.core.cells (WaitingStep.Until cell operand)))
        result endpoint.new }
{
    let value = value_of(operand, endpoint.cells(), &[]);
    let answer = make(endpoint, handlers, trial, &Call::Cell { c: cell });
    Tried {
        sent: answer.sends(),
        ended: reached(value, &answer),
        began: None,
    }
}

/// The try of an `until-word`: it reads the word.
fn try_until_word<H: Handlers>(
    endpoint: &mut Endpoint,
    handlers: &H,
    trial: &Trial<'_>,
    offset: u64,
    number: u64,
) -> Tried
    requires { trial.now.thread < endpoint.old.core.settings.threads }
    ensures { TriesForm (H.meaning handlers.now) endpoint.old
        (read_as trial.now (λ node.
        waiting_form node.local.core.cells (WaitingStep.UntilWord offset number)))
        result endpoint.new }
{
    let answer = make(endpoint, handlers, trial, &Call::LoadWord { offset });
    Tried {
        sent: answer.sends(),
        ended: word_reached(number, &answer),
        began: None,
    }
}

/// The first try of a blocking transfer: it begins the operation.
fn begin_transfer<H: Handlers>(
    endpoint: &mut Endpoint,
    handlers: &H,
    trial: &Trial<'_>,
    transfer: &Transfer,
) -> Tried
    requires thread { trial.now.thread < endpoint.old.core.settings.threads }
    requires first { trial.now.began ≡ None }
    ensures { TriesForm (H.meaning handlers.now) endpoint.old
        (read_as trial.now (λ node.
        waiting_form node.local.core.cells (WaitingStep.Transfer transfer.now)))
        result endpoint.new }
{
    let call = Call::Begin {
        reg: None,
        transfer: *transfer,
    };
    let answer = make(endpoint, handlers, trial, &call);
    match begun_handle(&answer) {
        Some(_) => Tried::begun(answer),
        None => Tried::unless(false, &answer, as_synced(answer)),
    }
}

/// A later try of a blocking transfer, which began with this answer: it synchronises the operation.
fn sync_transfer<H: Handlers>(
    endpoint: &mut Endpoint,
    handlers: &H,
    trial: &Trial<'_>,
    transfer: &Transfer,
    first: &Answer,
) -> Tried
    requires thread { trial.now.thread < endpoint.old.core.settings.threads }
    requires later { trial.now.began ≡ Some first.now }
    ensures { TriesForm (H.meaning handlers.now) endpoint.old
        (read_as trial.now (λ node.
        waiting_form node.local.core.cells (WaitingStep.Transfer transfer.now)))
        result endpoint.new }
{
    let Some(handle) = begun_handle(first) else {
        return Tried::nothing();
    };
    let answer = make(endpoint, handlers, trial, &Call::SyncHandle { handle });
    Tried::unless(is_not_ready(&answer), &answer, as_synced(answer))
}

/// The try of a blocking transfer.
pub(crate) fn try_transfer<H: Handlers>(
    endpoint: &mut Endpoint,
    handlers: &H,
    trial: &Trial<'_>,
    transfer: &Transfer,
) -> Tried
    requires { trial.now.thread < endpoint.old.core.settings.threads }
    ensures { TriesForm (H.meaning handlers.now) endpoint.old
        (read_as trial.now (λ node.
        waiting_form node.local.core.cells (WaitingStep.Transfer transfer.now)))
        result endpoint.new }
{
    match &trial.began {
        None => begin_transfer(endpoint, handlers, trial, transfer),
        Some(first) => sync_transfer(endpoint, handlers, trial, transfer, first),
    }
}

/// The transfer of a put.
fn put_of(put: &PutText) -> Transfer
    ensures { result ≡ put_of put.now }
{
    Transfer::Put {
        to: put.to,
        remote: put.remote,
        local: put.local,
        len: put.len,
    }
}

/// The call by which a put begins that waits until its chunks are issued.
fn put_call(step: &WaitingStep) -> Call<'_>
    requires { IsPut step.now }
    ensures form { (cells : List ℤ) → waiting_form cells step.now ≡ Looks (meant result) is_sent }
    ensures callable { IsCallable result }
{
    match step {
        WaitingStep::PutBegin { register, put } => Call::Begin {
            reg: Some(*register),
            transfer: put_of(put),
        },
        WaitingStep::PutImplicit { put } => Call::BeginImplicit {
            transfer: put_of(put),
        },
        _ => unreachable!(),
    }
}

/// A later try of such a put, which began with this answer: it looks whether all its chunks are issued.
fn look(endpoint: &Endpoint, first: &Answer) -> Tried
    ensures { ForItsRecord endpoint.now (λ node. result ≡ look_result first.now node) }
{
    if is_sent(endpoint, first) {
        Tried {
            sent: None,
            ended: Some(ScriptAnswer::Call(*first)),
            began: None,
        }
    } else {
        Tried::nothing()
    }
}

/// The first try of such a put: it begins the operation, and looks.
fn begin_put<H: Handlers>(
    endpoint: &mut Endpoint,
    handlers: &H,
    trial: &Trial<'_>,
    begin: &Call<'_>,
) -> Tried
    requires call { MayBeCalled endpoint.old.core.settings trial.now.thread begin.now }
    requires first { trial.now.began ≡ None }
    ensures { TriesForm (H.meaning handlers.now) endpoint.old
        (read_as trial.now (λ node. Looks (meant begin.now) is_sent)) result endpoint.new }
{
    let answer = make(endpoint, handlers, trial, begin);
    if is_sent(endpoint, &answer) {
        Tried::unless(false, &answer, answer)
    } else {
        Tried::begun(answer)
    }
}

/// The try of a put that waits until its chunks are issued, and that begins with this call.
fn try_put<H: Handlers>(
    endpoint: &mut Endpoint,
    handlers: &H,
    trial: &Trial<'_>,
    begin: &Call<'_>,
) -> Tried
    requires { MayBeCalled endpoint.old.core.settings trial.now.thread begin.now }
    ensures { TriesForm (H.meaning handlers.now) endpoint.old
        (read_as trial.now (λ node. Looks (meant begin.now) is_sent)) result endpoint.new }
{
    match &trial.began {
        None => begin_put(endpoint, handlers, trial, begin),
        Some(first) => look(endpoint, first),
    }
}

/// The call of a step that waits at a synchronisation or at the barrier.
fn sync_call(step: &WaitingStep) -> Call<'_>
    requires { IsSync step.now }
    ensures form { (cells : List ℤ)
        → waiting_form cells step.now ≡ Again is_not_ready (meant result) }
    ensures callable { IsCallable result }
{
    match step {
        WaitingStep::Wait { register } => Call::Sync { reg: *register },
        WaitingStep::WaitAll { registers } => Call::SyncAll {
            regs: registers.items(),
        },
        WaitingStep::WaitSome { registers } => Call::SyncSome {
            regs: registers.items(),
        },
        WaitingStep::WaitImplicit { which } => Call::SyncImplicit { which: *which },
        WaitingStep::BarrierWait { id, flags } => Call::TryBarrier {
            id: *id,
            flags: *flags,
        },
        _ => unreachable!(),
    }
}

/// The try of a step that makes this call, and waits while it is answered that something isn't complete.
fn try_sync<H: Handlers>(
    endpoint: &mut Endpoint,
    handlers: &H,
    trial: &Trial<'_>,
    call: &Call<'_>,
) -> Tried
    requires { MayBeCalled endpoint.old.core.settings trial.now.thread call.now }
    ensures { TriesForm (H.meaning handlers.now) endpoint.old
        (read_as trial.now (λ node. Again is_not_ready (meant call.now))) result endpoint.new }
{
    let answer = make(endpoint, handlers, trial, call);
    Tried::unless(is_not_ready(&answer), &answer, answer)
}

/// The try of a step that scripts alone have.
pub(crate) fn try_waiting<H: Handlers>(
    endpoint: &mut Endpoint,
    handlers: &H,
    trial: &Trial<'_>,
    step: &WaitingStep,
) -> Tried
    requires thread { trial.now.thread < endpoint.old.core.settings.threads }
    requires plain { IsPlain step.now }
    ensures { TriesForm (H.meaning handlers.now) endpoint.old
        (read_as trial.now (λ node. waiting_form node.local.core.cells step.now))
        result endpoint.new }
{
    match step {
        WaitingStep::Until { cell, operand } => {
            try_until(endpoint, handlers, trial, *cell, *operand)
        }
        WaitingStep::UntilWord { offset, number } => {
            try_until_word(endpoint, handlers, trial, *offset, *number)
        }
        WaitingStep::Transfer { transfer } => {
            try_transfer(endpoint, handlers, trial, transfer.text())
        }
        WaitingStep::PutBegin { .. } | WaitingStep::PutImplicit { .. } => {
            try_put(endpoint, handlers, trial, &put_call(step))
        }
        _ => try_sync(endpoint, handlers, trial, &sync_call(step)),
    }
}
