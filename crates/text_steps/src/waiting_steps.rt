//! Reading the steps of a script.

ghost use Rattle.std.specs.Prelude.{◌≡◌, false};
ghost use Rattle.text_calls.specs.Forms.{named_at, none_at};
ghost use Rattle.base_text.specs.Found.{Reads};
ghost use Rattle.text_calls.specs.FormTests.{named_form};
ghost use Rattle.text_steps.specs.Scripts.{is_waiting_name, put, step_at, step_form};
ghost use Rattle.text_steps.specs.declared.waiting_forms.WaitingForm.TheVariants as forms;
ghost use Rattle.text_steps.specs.Scripts.{step_of, waiting_at, waiting_fits, waiting_form, waiting_words_at};
ghost use Rattle.text_steps.specs.Scripts.{waits};

use crate::collectives::coll_at;
use crate::steps::{PutText, ScriptStep, WaitingStep};
use crate::thread_actions::{ThreadAction, thread_action_at, thread_action_form};
use crate::waiting_forms::WaitingForm;
use base_text::{Miss, is_name, name_of};
use std::alloc::Global;
use text_calls::{
    HasName, Move, Scope, boxed, byte_at, fill_at, get_of, implicit_at, integer_at, is_second,
    memset_of, move_at, number_at, put_of, registers_at, value_at,
};

/// The put of such words.
fn put_text(words: Move) -> PutText
    ensures { result ≡ put words.to words.remote words.local words.len }
{
    PutText {
        to: words.to,
        remote: words.remote,
        local: words.local,
        len: words.len,
    }
}

/// Waiting until a cell holds a number at least.
#[tactic(auto, unfolding(crate::specs::Scripts::waiting_words_at))]
fn until_step(rest: &[u8]) -> Result<(WaitingStep, &[u8]), Miss>
    ensures { Reads (λ x. (x.0, x.1.now)) result (waiting_words_at forms.Until rest.now) }
{
    let (cell, rest) = byte_at(rest, 255)?;
    let (operand, rest) = value_at(rest)?;
    Ok((WaitingStep::Until { cell, operand }, rest))
}

/// A put that is waited for.
#[tactic(auto, unfolding(crate::specs::Scripts::waiting_words_at))]
fn put_step(alloc: Global, rest: &[u8]) -> Result<(WaitingStep, &[u8]), Miss>
    ensures { Reads (λ x. (x.0, x.1.now)) result (waiting_words_at forms.Put rest.now) }
{
    let (words, rest) = move_at(rest)?;
    let transfer = boxed(alloc, put_of(words))?;
    Ok((WaitingStep::Transfer { transfer }, rest))
}

/// A get that is waited for.
#[tactic(auto, unfolding(crate::specs::Scripts::waiting_words_at))]
fn get_step(alloc: Global, rest: &[u8]) -> Result<(WaitingStep, &[u8]), Miss>
    ensures { Reads (λ x. (x.0, x.1.now)) result (waiting_words_at forms.Get rest.now) }
{
    let (words, rest) = move_at(rest)?;
    let transfer = boxed(alloc, get_of(words))?;
    Ok((WaitingStep::Transfer { transfer }, rest))
}

/// A memset that is waited for.
#[tactic(auto, unfolding(crate::specs::Scripts::waiting_words_at))]
fn memset_step(alloc: Global, rest: &[u8]) -> Result<(WaitingStep, &[u8]), Miss>
    ensures { Reads (λ x. (x.0, x.1.now)) result (waiting_words_at forms.Memset rest.now) }
{
    let (words, rest) = fill_at(rest)?;
    let transfer = boxed(alloc, memset_of(words))?;
    Ok((WaitingStep::Transfer { transfer }, rest))
}

/// An explicit put, until all of it was sent.
#[tactic(auto, unfolding(crate::specs::Scripts::waiting_words_at))]
fn put_begin_step(rest: &[u8]) -> Result<(WaitingStep, &[u8]), Miss>
    ensures { Reads (λ x. (x.0, x.1.now)) result (waiting_words_at forms.PutBegin rest.now) }
{
    let (register, rest) = byte_at(rest, 255)?;
    let (words, rest) = move_at(rest)?;
    let put = put_text(words);
    Ok((WaitingStep::PutBegin { register, put }, rest))
}

/// An implicit put, until all of it was sent.
#[tactic(auto, unfolding(crate::specs::Scripts::waiting_words_at))]
fn put_implicit_step(rest: &[u8]) -> Result<(WaitingStep, &[u8]), Miss>
    ensures { Reads (λ x. (x.0, x.1.now)) result (waiting_words_at forms.PutImplicit rest.now) }
{
    let (words, rest) = move_at(rest)?;
    let put = put_text(words);
    Ok((WaitingStep::PutImplicit { put }, rest))
}

/// Waiting for a transfer or a region.
#[tactic(auto, unfolding(crate::specs::Scripts::waiting_words_at))]
fn wait_step(rest: &[u8]) -> Result<(WaitingStep, &[u8]), Miss>
    ensures { Reads (λ x. (x.0, x.1.now)) result (waiting_words_at forms.Wait rest.now) }
{
    let (register, rest) = byte_at(rest, 255)?;
    Ok((WaitingStep::Wait { register }, rest))
}

/// Waiting for all of some.
#[tactic(auto, unfolding(crate::specs::Scripts::waiting_words_at))]
fn wait_all_step(alloc: Global, rest: &[u8]) -> Result<(WaitingStep, &[u8]), Miss>
    ensures { Reads (λ x. (x.0, x.1.now)) result (waiting_words_at forms.WaitAll rest.now) }
{
    let (registers, rest) = registers_at(alloc, rest)?;
    Ok((WaitingStep::WaitAll { registers }, rest))
}

/// Waiting for one of some at least.
#[tactic(auto, unfolding(crate::specs::Scripts::waiting_words_at))]
fn wait_some_step(alloc: Global, rest: &[u8]) -> Result<(WaitingStep, &[u8]), Miss>
    ensures { Reads (λ x. (x.0, x.1.now)) result (waiting_words_at forms.WaitSome rest.now) }
{
    let (registers, rest) = registers_at(alloc, rest)?;
    Ok((WaitingStep::WaitSome { registers }, rest))
}

/// Waiting for implicit transfers.
#[tactic(auto, unfolding(crate::specs::Scripts::waiting_words_at))]
fn wait_implicit_step(rest: &[u8]) -> Result<(WaitingStep, &[u8]), Miss>
    ensures { Reads (λ x. (x.0, x.1.now)) result (waiting_words_at forms.WaitImplicit rest.now) }
{
    let (which, rest) = implicit_at(rest)?;
    Ok((WaitingStep::WaitImplicit { which }, rest))
}

/// Waiting at the barrier.
#[tactic(auto, unfolding(crate::specs::Scripts::waiting_words_at))]
fn barrier_wait_step(rest: &[u8]) -> Result<(WaitingStep, &[u8]), Miss>
    ensures { Reads (λ x. (x.0, x.1.now)) result (waiting_words_at forms.BarrierWait rest.now) }
{
    let (id, rest) = integer_at(rest)?;
    let (flags, rest) = byte_at(rest, 255)?;
    Ok((WaitingStep::BarrierWait { id, flags }, rest))
}

/// Waiting until a word of the local segment is a number.
#[tactic(auto, unfolding(crate::specs::Scripts::waiting_words_at))]
fn until_word_step(rest: &[u8]) -> Result<(WaitingStep, &[u8]), Miss>
    ensures { Reads (λ x. (x.0, x.1.now)) result (waiting_words_at forms.UntilWord rest.now) }
{
    let (offset, rest) = number_at(rest, 0, u64::MAX)?;
    let (number, rest) = number_at(rest, 0, u64::MAX)?;
    Ok((WaitingStep::UntilWord { offset, number }, rest))
}

/// A whole collective.
#[tactic(auto, unfolding(crate::specs::Scripts::waiting_words_at))]
fn coll_step(rest: &[u8]) -> Result<(WaitingStep, &[u8]), Miss>
    ensures { Reads (λ x. (x.0, x.1.now)) result (waiting_words_at forms.Coll rest.now) }
{
    let (step, rest) = coll_at(rest)?;
    Ok((step, rest))
}

/// The step that the words behind the name of a form say, and the bytes after them.
fn words_at(alloc: Global, form: WaitingForm, rest: &[u8]) -> Result<(WaitingStep, &[u8]), Miss>
    ensures { Reads (λ x. (x.0, x.1.now)) result (waiting_words_at form rest.now) }
{
    match form {
        WaitingForm::Until => until_step(rest),
        WaitingForm::Put => put_step(alloc, rest),
        WaitingForm::Get => get_step(alloc, rest),
        WaitingForm::Memset => memset_step(alloc, rest),
        WaitingForm::PutBegin => put_begin_step(rest),
        WaitingForm::PutImplicit => put_implicit_step(rest),
        WaitingForm::Wait => wait_step(rest),
        WaitingForm::WaitAll => wait_all_step(alloc, rest),
        WaitingForm::WaitSome => wait_some_step(alloc, rest),
        WaitingForm::WaitImplicit => wait_implicit_step(rest),
        WaitingForm::BarrierWait => barrier_wait_step(rest),
        WaitingForm::UntilWord => until_word_step(rest),
        WaitingForm::Coll => coll_step(rest),
    }
}

/// The step that a line says, by its name and the bytes after it.
fn named_wait_at<'a>(
    alloc: Global,
    name: &[u8],
    rest: &'a [u8],
) -> Result<(WaitingStep, &'a [u8]), Miss>
    ensures { Reads (λ x. (x.0, x.1.now)) result (named_at none_at waits name.now rest.now) }
{
    let Some(form) = WaitingForm::named(name) else {
        return Err(Miss::Unlike);
    };
    words_at(alloc, form, rest)
}

/// Whether a step that scripts alone have may stand in the job.
fn waiting_fits(scope: &Scope, step: &WaitingStep) -> bool
    ensures { result ≡ waiting_fits scope.now step.now }
{
    match step {
        WaitingStep::UntilWord { .. } => is_second(scope),
        WaitingStep::Collective { .. } => scope.collect,
        _ => true,
    }
}

/// The step that scripts alone have and a line says, and the bytes after it.
#[tactic(auto, unfolding(crate::specs::Scripts::waiting_at))]
fn waiting_at<'a>(
    alloc: Global,
    scope: &Scope,
    bytes: &'a [u8],
) -> Result<(WaitingStep, &'a [u8]), Miss>
    ensures { Reads (λ x. (x.0, x.1.now)) result (waiting_at scope.now bytes.now) }
{
    let (name, rest) = name_of(bytes);
    let (step, rest) = named_wait_at(alloc, name, rest)?;
    if !waiting_fits(scope, &step) {
        drop(step);
        return Err(Miss::Unlike);
    }
    Ok((step, rest))
}

/// The step that a thread does this.
fn step_of(action: ThreadAction) -> ScriptStep
    ensures { result ≡ step_of action }
{
    match action {
        ThreadAction::Call { call } => ScriptStep::Call { call },
        ThreadAction::Vis { vis } => ScriptStep::Vis { vis },
        ThreadAction::Collective { call } => ScriptStep::Collective { call },
    }
}

/// The step that a line says, and the bytes after it.
#[tactic(auto, unfolding(crate::specs::Scripts::step_at))]
pub fn step_at<'a>(
    alloc: Global,
    scope: &Scope,
    bytes: &'a [u8],
) -> Result<(ScriptStep, &'a [u8]), Miss>
    ensures { Reads (λ x. (x.0, x.1.now)) result (step_at scope.now bytes.now) }
{
    match thread_action_at(alloc, scope, bytes) {
        Ok((action, rest)) => Ok((step_of(action), rest)),
        Err(Miss::NoMemory) => Err(Miss::NoMemory),
        Err(Miss::Unlike) => {
            let (step, rest) = waiting_at(alloc, scope, bytes)?;
            Ok((ScriptStep::Waiting { step }, rest))
        }
    }
}

/// Whether the words after a name are a form of step that scripts alone have.
fn named_wait_form(name: &[u8], rest: &[u8]) -> bool
    ensures { result ≡ named_form (λ bytes. false) waits name.now rest.now }
{
    match WaitingForm::named(name) {
        Some(form) => form.fits(rest),
        None => false,
    }
}

/// Whether a word names a step that waits of the job, if it names one.
fn is_waiting_name(scope: &Scope, name: &[u8]) -> bool
    ensures { result ≡ is_waiting_name scope.now name.now }
{
    (is_second(scope) || !is_name(name, WaitingForm::UntilWord.name()))
        && (scope.collect || !is_name(name, WaitingForm::Coll.name()))
}

/// Whether bytes have the form of a step that scripts alone have.
#[tactic(auto, unfolding(crate::specs::Scripts::waiting_form))]
fn waiting_form(scope: &Scope, bytes: &[u8]) -> bool
    ensures { result ≡ waiting_form scope.now bytes.now }
{
    let (name, rest) = name_of(bytes);
    named_wait_form(name, rest) && is_waiting_name(scope, name)
}

/// Whether bytes have the form of a step.
#[tactic(auto, unfolding(crate::specs::Scripts::step_form))]
pub fn step_form(scope: &Scope, bytes: &[u8]) -> bool
    ensures { result ≡ step_form scope.now bytes.now }
{
    thread_action_form(scope, bytes) || waiting_form(scope, bytes)
}
