//! Reading calls: the form of a line by its name, and then its words.

ghost use Rattle.std.specs.Prelude.{◌≡◌, false};
ghost use Rattle.text_calls.specs.Calls.{call_at, call_form, calls, form_at};
ghost use Rattle.text_calls.specs.FormTests.{named_form};
ghost use Rattle.base_text.specs.Found.{Reads};

use crate::batches::batch_at;
use crate::forms::CallForm;
use crate::own_calls::{
    attempt_call, cell_call, fill_call, lock_call, poll_call, set_call, set_cell_call,
    set_word_call, show_call, unlock_call, word_call,
};
use crate::request_calls::{async_call, long_call, medium_call, short_call};
use crate::scheduled::ScheduledCall;
use crate::sync_calls::{
    issued_call, notify_call, region_begin_call, region_end_call, try_all_call, try_barrier_call,
    try_call, try_implicit_call, try_some_call,
};
use crate::transfer_calls::{
    get_call, implicit_get_call, implicit_memset_call, implicit_put_call, memset_call, put_call,
};
use crate::{HasName, Scope};
use base_text::{Miss, is_name, name_of};
use std::alloc::Global;

/// The call that the words behind the name of a form say, and the bytes after them.
fn named_call_at<'a>(
    alloc: Global,
    scope: &Scope,
    form: CallForm,
    rest: &'a [u8],
) -> Result<(ScheduledCall, &'a [u8]), Miss>
    ensures { Reads (λ x. (x.0, x.1.now)) result (form_at scope.now form rest.now) }
{
    match form {
        CallForm::Short => short_call(alloc, rest),
        CallForm::Atomic => batch_at(alloc, scope, rest),
        CallForm::Medium => medium_call(alloc, rest),
        CallForm::Long => long_call(alloc, rest),
        CallForm::Async => async_call(alloc, rest),
        CallForm::Lock => lock_call(rest),
        CallForm::Unlock => unlock_call(rest),
        CallForm::Poll => poll_call(rest),
        CallForm::Attempt => attempt_call(rest),
        CallForm::Cell => cell_call(rest),
        CallForm::SetCell => set_cell_call(rest),
        CallForm::Show => show_call(rest),
        CallForm::Set => set_call(alloc, rest),
        CallForm::Fill => fill_call(rest),
        CallForm::Word => word_call(rest),
        CallForm::SetWord => set_word_call(rest),
        CallForm::Put => put_call(alloc, rest),
        CallForm::Get => get_call(alloc, rest),
        CallForm::Memset => memset_call(alloc, rest),
        CallForm::ImplicitPut => implicit_put_call(alloc, rest),
        CallForm::ImplicitGet => implicit_get_call(alloc, rest),
        CallForm::ImplicitMemset => implicit_memset_call(alloc, rest),
        CallForm::Issued => issued_call(rest),
        CallForm::Try => try_call(rest),
        CallForm::TryAll => try_all_call(alloc, rest),
        CallForm::TrySome => try_some_call(alloc, rest),
        CallForm::TryImplicit => try_implicit_call(rest),
        CallForm::RegionBegin => region_begin_call(rest),
        CallForm::RegionEnd => region_end_call(rest),
        CallForm::Notify => notify_call(rest),
        CallForm::TryBarrier => try_barrier_call(rest),
    }
}

/// The call that a line says, and the bytes after it.
pub fn call_at<'a>(
    alloc: Global,
    scope: &Scope,
    bytes: &'a [u8],
) -> Result<(ScheduledCall, &'a [u8]), Miss>
    ensures { Reads (λ x. (x.0, x.1.now)) result (call_at scope.now bytes.now) }
{
    let (name, rest) = name_of(bytes);
    let Some(form) = CallForm::named(name) else {
        return Err(Miss::Unlike);
    };
    named_call_at(alloc, scope, form, rest)
}

/// Whether the words after a name are as many as a form of call of that name has.
fn named_call_form(name: &[u8], rest: &[u8]) -> bool
    ensures { result ≡ named_form (λ bytes. false) calls name.now rest.now }
{
    match CallForm::named(name) {
        Some(form) => form.fits(rest),
        None => false,
    }
}

/// Whether bytes have the form of a call.
#[tactic(auto, unfolding(crate::specs::Calls::call_form))]
pub fn call_form(scope: &Scope, bytes: &[u8]) -> bool
    ensures { result ≡ call_form scope.now bytes.now }
{
    let (name, rest) = name_of(bytes);
    named_call_form(name, rest) && (scope.atomics || !is_name(name, CallForm::Atomic.name()))
}
