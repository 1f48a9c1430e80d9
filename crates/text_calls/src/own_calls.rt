//! Reading the words of calls that no other node hears of: polls, and what is done to locks, cells and the local
//! segment.
#![tactic(auto, unfolding(crate::specs::Calls::form_at))]

ghost use Rattle.text_calls.specs.Calls.{form_at};
ghost use Rattle.text_calls.specs.declared.forms.CallForm.TheVariants as forms;
ghost use Rattle.text_calls.specs.declared.scope.Scope.{Scope};
ghost use Rattle.base_text.specs.Found.{Reads};

use crate::scheduled::ScheduledCall;
use crate::{byte_at, bytes_at, kind_at, number_at, short_at, value_at};
use base_text::Miss;
use std::alloc::Global;
use wire_message::MAX_PAYLOAD;

/// The most bytes that are shown at once: those of a payload.
const MOST_SHOWN: u16 = MAX_PAYLOAD as u16;

/// The locking of a lock.
pub(crate) fn lock_call(rest: &[u8]) -> Result<(ScheduledCall, &[u8]), Miss>
    ensures { (scope : Scope) → Reads (λ x. (x.0, x.1.now)) result
        (form_at scope forms.Lock rest.now) }
{
    let (lock, rest) = byte_at(rest, 255)?;
    Ok((ScheduledCall::Lock { lock }, rest))
}

/// The unlocking of a lock.
pub(crate) fn unlock_call(rest: &[u8]) -> Result<(ScheduledCall, &[u8]), Miss>
    ensures { (scope : Scope) → Reads (λ x. (x.0, x.1.now)) result
        (form_at scope forms.Unlock rest.now) }
{
    let (lock, rest) = byte_at(rest, 255)?;
    Ok((ScheduledCall::Unlock { lock }, rest))
}

/// A poll.
pub(crate) fn poll_call(rest: &[u8]) -> Result<(ScheduledCall, &[u8]), Miss>
    ensures { (scope : Scope) → Reads (λ x. (x.0, x.1.now)) result
        (form_at scope forms.Poll rest.now) }
{
    Ok((ScheduledCall::Poll, rest))
}

/// A call that is judged alone.
pub(crate) fn attempt_call(rest: &[u8]) -> Result<(ScheduledCall, &[u8]), Miss>
    ensures { (scope : Scope) → Reads (λ x. (x.0, x.1.now)) result
        (form_at scope forms.Attempt rest.now) }
{
    let (call, rest) = kind_at(rest)?;
    Ok((ScheduledCall::Attempt { call }, rest))
}

/// The number in a cell.
pub(crate) fn cell_call(rest: &[u8]) -> Result<(ScheduledCall, &[u8]), Miss>
    ensures { (scope : Scope) → Reads (λ x. (x.0, x.1.now)) result
        (form_at scope forms.Cell rest.now) }
{
    let (cell, rest) = byte_at(rest, 255)?;
    Ok((ScheduledCall::Cell { cell }, rest))
}

/// The putting of a number into a cell.
pub(crate) fn set_cell_call(rest: &[u8]) -> Result<(ScheduledCall, &[u8]), Miss>
    ensures { (scope : Scope) → Reads (λ x. (x.0, x.1.now)) result
        (form_at scope forms.SetCell rest.now) }
{
    let (cell, rest) = byte_at(rest, 255)?;
    let (operand, rest) = value_at(rest)?;
    Ok((ScheduledCall::SetCell { cell, operand }, rest))
}

/// The bytes of a range of the local segment.
pub(crate) fn show_call(rest: &[u8]) -> Result<(ScheduledCall, &[u8]), Miss>
    ensures { (scope : Scope) → Reads (λ x. (x.0, x.1.now)) result
        (form_at scope forms.Show rest.now) }
{
    let (offset, rest) = number_at(rest, 0, u64::MAX)?;
    let (len, rest) = short_at(rest, MOST_SHOWN)?;
    Ok((ScheduledCall::Show { offset, len }, rest))
}

/// The putting of bytes into the local segment.
pub(crate) fn set_call(alloc: Global, rest: &[u8]) -> Result<(ScheduledCall, &[u8]), Miss>
    ensures { (scope : Scope) → Reads (λ x. (x.0, x.1.now)) result
        (form_at scope forms.Set rest.now) }
{
    let (offset, rest) = number_at(rest, 0, u64::MAX)?;
    let (bytes, rest) = bytes_at(alloc, rest)?;
    Ok((ScheduledCall::Set { offset, bytes }, rest))
}

/// The putting of one byte at each place of a range of the local segment.
pub(crate) fn fill_call(rest: &[u8]) -> Result<(ScheduledCall, &[u8]), Miss>
    ensures { (scope : Scope) → Reads (λ x. (x.0, x.1.now)) result
        (form_at scope forms.Fill rest.now) }
{
    let (offset, rest) = number_at(rest, 0, u64::MAX)?;
    let (len, rest) = number_at(rest, 0, u64::MAX)?;
    let (byte, rest) = byte_at(rest, 255)?;
    Ok((ScheduledCall::Fill { offset, len, byte }, rest))
}

/// The number of 64 bits at a place of the local segment.
pub(crate) fn word_call(rest: &[u8]) -> Result<(ScheduledCall, &[u8]), Miss>
    ensures { (scope : Scope) → Reads (λ x. (x.0, x.1.now)) result
        (form_at scope forms.Word rest.now) }
{
    let (offset, rest) = number_at(rest, 0, u64::MAX)?;
    Ok((ScheduledCall::Word { offset }, rest))
}

/// The putting of a number of 64 bits at a place of the local segment.
pub(crate) fn set_word_call(rest: &[u8]) -> Result<(ScheduledCall, &[u8]), Miss>
    ensures { (scope : Scope) → Reads (λ x. (x.0, x.1.now)) result
        (form_at scope forms.SetWord rest.now) }
{
    let (offset, rest) = number_at(rest, 0, u64::MAX)?;
    let (number, rest) = number_at(rest, 0, u64::MAX)?;
    Ok((ScheduledCall::SetWord { offset, number }, rest))
}
