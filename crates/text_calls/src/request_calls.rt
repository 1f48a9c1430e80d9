//! Reading the words of requests.
#![tactic(auto, unfolding(crate::specs::Calls::form_at))]

ghost use Rattle.text_calls.specs.Calls.{async_row, form_at, long_row, medium_row};
ghost use Rattle.text_calls.specs.declared.forms.CallForm.TheVariants as forms;
ghost use Rattle.text_calls.specs.declared.scheduled.ScheduledCall.TheVariants as call;
ghost use Rattle.text_calls.specs.Forms.{none_at, row_at};
ghost use Rattle.text_calls.specs.declared.scope.Scope.{Scope};
ghost use Rattle.base_text.specs.Found.{Reads};

use crate::scheduled::{BoxedLong, BoxedMedium, LongText, MediumText, ScheduledCall};
use crate::{NumberPlace, byte_at, number_at, operands_at, payload_at, short_at};
use base_text::Miss;
use std::alloc::Global;

/// What the words of a Long request say behind its name, in an allocation of its own, and the bytes after them.
fn long_at(alloc: Global, bytes: &[u8]) -> Result<(BoxedLong, &[u8]), Miss>
    ensures long { Reads (λ x. (call.Long x.0, x.1.now)) result
        (row_at none_at long_row bytes.now) }
    ensures later { Reads (λ x. (call.LongAsync x.0, x.1.now)) result
        (row_at none_at async_row bytes.now) }
{
    let (to, rest) = short_at(bytes, 65_535)?;
    let (handler, rest) = byte_at(rest, 255)?;
    let (payload, rest) = payload_at(alloc, rest)?;
    let (offset, rest) = number_at(rest, 0, u64::MAX)?;
    let (operands, rest) = operands_at(alloc, NumberPlace::Schedule, rest)?;
    let text = LongText {
        to,
        handler,
        payload,
        offset,
        operands,
    };
    let inside = Box::new(alloc, text)?;
    Ok((BoxedLong { inside }, rest))
}

/// What the words of a Medium request say behind its name, in an allocation of its own, and the bytes after them.
fn medium_at(alloc: Global, bytes: &[u8]) -> Result<(BoxedMedium, &[u8]), Miss>
    ensures { Reads (λ x. (call.Medium x.0, x.1.now)) result (row_at none_at medium_row bytes.now) }
{
    let (to, rest) = short_at(bytes, 65_535)?;
    let (handler, rest) = byte_at(rest, 255)?;
    let (payload, rest) = payload_at(alloc, rest)?;
    let (operands, rest) = operands_at(alloc, NumberPlace::Schedule, rest)?;
    let text = MediumText {
        to,
        handler,
        payload,
        operands,
    };
    let inside = Box::new(alloc, text)?;
    Ok((BoxedMedium { inside }, rest))
}

/// A Short request.
pub(crate) fn short_call(alloc: Global, rest: &[u8]) -> Result<(ScheduledCall, &[u8]), Miss>
    ensures { (scope : Scope) → Reads (λ x. (x.0, x.1.now)) result
        (form_at scope forms.Short rest.now) }
{
    let (to, rest) = short_at(rest, 65_535)?;
    let (handler, rest) = byte_at(rest, 255)?;
    let (operands, rest) = operands_at(alloc, NumberPlace::Schedule, rest)?;
    let call = ScheduledCall::Short {
        to,
        handler,
        operands,
    };
    Ok((call, rest))
}

/// A Medium request.
pub(crate) fn medium_call(alloc: Global, rest: &[u8]) -> Result<(ScheduledCall, &[u8]), Miss>
    ensures { (scope : Scope) → Reads (λ x. (x.0, x.1.now)) result
        (form_at scope forms.Medium rest.now) }
{
    let (text, rest) = medium_at(alloc, rest)?;
    Ok((ScheduledCall::Medium { text }, rest))
}

/// A Long request.
pub(crate) fn long_call(alloc: Global, rest: &[u8]) -> Result<(ScheduledCall, &[u8]), Miss>
    ensures { (scope : Scope) → Reads (λ x. (x.0, x.1.now)) result
        (form_at scope forms.Long rest.now) }
{
    let (text, rest) = long_at(alloc, rest)?;
    Ok((ScheduledCall::Long { text }, rest))
}

/// A Long request whose payload may be taken later.
pub(crate) fn async_call(alloc: Global, rest: &[u8]) -> Result<(ScheduledCall, &[u8]), Miss>
    ensures { (scope : Scope) → Reads (λ x. (x.0, x.1.now)) result
        (form_at scope forms.Async rest.now) }
{
    let (text, rest) = long_at(alloc, rest)?;
    Ok((ScheduledCall::LongAsync { text }, rest))
}
