//! Reading the words of calls that synchronise transfers, and of those on access regions and the barrier.
#![tactic(auto, unfolding(crate::specs::Calls::form_at))]

ghost use Rattle.text_calls.specs.Calls.{form_at};
ghost use Rattle.text_calls.specs.declared.forms.CallForm.TheVariants as forms;
ghost use Rattle.text_calls.specs.declared.scope.Scope.{Scope};
ghost use Rattle.base_text.specs.Found.{Reads};

use crate::scheduled::ScheduledCall;
use crate::{byte_at, implicit_at, integer_at, registers_at};
use base_text::Miss;
use std::alloc::Global;

/// Whether all of a transfer was sent.
pub(crate) fn issued_call(rest: &[u8]) -> Result<(ScheduledCall, &[u8]), Miss>
    ensures { (scope : Scope) → Reads (λ x. (x.0, x.1.now)) result
        (form_at scope forms.Issued rest.now) }
{
    let (register, rest) = byte_at(rest, 255)?;
    Ok((ScheduledCall::IsIssued { register }, rest))
}

/// The synchronisation of a transfer or a region.
pub(crate) fn try_call(rest: &[u8]) -> Result<(ScheduledCall, &[u8]), Miss>
    ensures { (scope : Scope) → Reads (λ x. (x.0, x.1.now)) result
        (form_at scope forms.Try rest.now) }
{
    let (register, rest) = byte_at(rest, 255)?;
    Ok((ScheduledCall::Sync { register }, rest))
}

/// The synchronisation of all of some.
pub(crate) fn try_all_call(alloc: Global, rest: &[u8]) -> Result<(ScheduledCall, &[u8]), Miss>
    ensures { (scope : Scope) → Reads (λ x. (x.0, x.1.now)) result
        (form_at scope forms.TryAll rest.now) }
{
    let (registers, rest) = registers_at(alloc, rest)?;
    Ok((ScheduledCall::SyncAll { registers }, rest))
}

/// The synchronisation of those of some that are complete.
pub(crate) fn try_some_call(alloc: Global, rest: &[u8]) -> Result<(ScheduledCall, &[u8]), Miss>
    ensures { (scope : Scope) → Reads (λ x. (x.0, x.1.now)) result
        (form_at scope forms.TrySome rest.now) }
{
    let (registers, rest) = registers_at(alloc, rest)?;
    Ok((ScheduledCall::SyncSome { registers }, rest))
}

/// The synchronisation of implicit transfers.
pub(crate) fn try_implicit_call(rest: &[u8]) -> Result<(ScheduledCall, &[u8]), Miss>
    ensures { (scope : Scope) → Reads (λ x. (x.0, x.1.now)) result
        (form_at scope forms.TryImplicit rest.now) }
{
    let (which, rest) = implicit_at(rest)?;
    Ok((ScheduledCall::SyncImplicit { which }, rest))
}

/// The begin of an access region.
pub(crate) fn region_begin_call(rest: &[u8]) -> Result<(ScheduledCall, &[u8]), Miss>
    ensures { (scope : Scope) → Reads (λ x. (x.0, x.1.now)) result
        (form_at scope forms.RegionBegin rest.now) }
{
    Ok((ScheduledCall::RegionBegin, rest))
}

/// The end of an access region.
pub(crate) fn region_end_call(rest: &[u8]) -> Result<(ScheduledCall, &[u8]), Miss>
    ensures { (scope : Scope) → Reads (λ x. (x.0, x.1.now)) result
        (form_at scope forms.RegionEnd rest.now) }
{
    let (register, rest) = byte_at(rest, 255)?;
    Ok((ScheduledCall::RegionEnd { register }, rest))
}

/// The notifying of the barrier.
pub(crate) fn notify_call(rest: &[u8]) -> Result<(ScheduledCall, &[u8]), Miss>
    ensures { (scope : Scope) → Reads (λ x. (x.0, x.1.now)) result
        (form_at scope forms.Notify rest.now) }
{
    let (id, rest) = integer_at(rest)?;
    let (flags, rest) = byte_at(rest, 255)?;
    Ok((ScheduledCall::Notify { id, flags }, rest))
}

/// The passing of the barrier.
pub(crate) fn try_barrier_call(rest: &[u8]) -> Result<(ScheduledCall, &[u8]), Miss>
    ensures { (scope : Scope) → Reads (λ x. (x.0, x.1.now)) result
        (form_at scope forms.TryBarrier rest.now) }
{
    let (id, rest) = integer_at(rest)?;
    let (flags, rest) = byte_at(rest, 255)?;
    Ok((ScheduledCall::TryBarrier { id, flags }, rest))
}
