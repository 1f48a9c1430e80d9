//! Reading the words of calls that begin transfers.
#![tactic(auto, unfolding(crate::specs::Calls::form_at))]

ghost use Rattle.std.specs.Prelude.{◌≡◌, IfOk};
ghost use Rattle.text_calls.specs.Calls.{fill_shape, form_at, move_shape};
ghost use Rattle.text_calls.specs.declared.forms.CallForm.TheVariants as forms;
ghost use Rattle.text_calls.specs.Forms.{none_at, values_at};
ghost use Rattle.text_calls.specs.declared.scope.Scope.{Scope};
ghost use Rattle.part_transfers.specs.declared.operation.Transfer.TheVariants as transfer;
ghost use Rattle.base_text.specs.Found.{Finds, Reads};

use crate::scheduled::{BoxedTransfer, ScheduledCall};
use crate::{byte_at, number_at, short_at};
use base_text::{Miss, Other};
use part_transfers::Transfer;
use std::alloc::{AllocError, Global};

/// The words of a put or a get.
#[derive(Clone, Copy)]
pub struct Move {
    pub to: u16,
    pub remote: u64,
    pub local: u64,
    pub len: u64,
}

/// The words of a memset.
#[derive(Clone, Copy)]
pub struct Fill {
    pub to: u16,
    pub remote: u64,
    pub len: u64,
    pub byte: u8,
}

/// What the words of a put or a get say, and the bytes after them.
pub fn move_at(bytes: &[u8]) -> Result<(Move, &[u8]), Other>
    ensures { Finds (λ x. ((x.0.to, (x.0.remote, (x.0.local, (x.0.len, tt)))), x.1.now)) result
        (values_at none_at move_shape bytes.now) }
{
    let (to, rest) = short_at(bytes, 65_535)?;
    let (remote, rest) = number_at(rest, 0, u64::MAX)?;
    let (local, rest) = number_at(rest, 0, u64::MAX)?;
    let (len, rest) = number_at(rest, 0, u64::MAX)?;
    let words = Move {
        to,
        remote,
        local,
        len,
    };
    Ok((words, rest))
}

/// What the words of a memset say, and the bytes after them.
pub fn fill_at(bytes: &[u8]) -> Result<(Fill, &[u8]), Other>
    ensures { Finds (λ x. ((x.0.to, (x.0.remote, (x.0.len, (x.0.byte, tt)))), x.1.now)) result
        (values_at none_at fill_shape bytes.now) }
{
    let (to, rest) = short_at(bytes, 65_535)?;
    let (remote, rest) = number_at(rest, 0, u64::MAX)?;
    let (len, rest) = number_at(rest, 0, u64::MAX)?;
    let (byte, rest) = byte_at(rest, 255)?;
    let words = Fill {
        to,
        remote,
        len,
        byte,
    };
    Ok((words, rest))
}

/// The put of such words.
pub fn put_of(words: Move) -> Transfer
    ensures { result ≡ transfer.Put words.to words.remote words.local words.len }
{
    Transfer::Put {
        to: words.to,
        remote: words.remote,
        local: words.local,
        len: words.len,
    }
}

/// The get of such words.
pub fn get_of(words: Move) -> Transfer
    ensures { result ≡ transfer.Get words.to words.remote words.local words.len }
{
    Transfer::Get {
        to: words.to,
        remote: words.remote,
        local: words.local,
        len: words.len,
    }
}

/// The memset of such words.
pub fn memset_of(words: Fill) -> Transfer
    ensures { result ≡ transfer.Memset words.to words.remote words.len words.byte }
{
    Transfer::Memset {
        to: words.to,
        remote: words.remote,
        len: words.len,
        byte: words.byte,
    }
}

/// A transfer in an allocation of its own.
pub fn boxed(alloc: Global, text: Transfer) -> Result<BoxedTransfer, AllocError>
    ensures { IfOk result (λ transfer. transfer ≡ text) }
{
    let inside = Box::new(alloc, text)?;
    Ok(BoxedTransfer { inside })
}

/// An explicit put.
pub(crate) fn put_call(alloc: Global, rest: &[u8]) -> Result<(ScheduledCall, &[u8]), Miss>
    ensures { (scope : Scope) → Reads (λ x. (x.0, x.1.now)) result
        (form_at scope forms.Put rest.now) }
{
    let (register, rest) = byte_at(rest, 255)?;
    let (words, rest) = move_at(rest)?;
    let transfer = boxed(alloc, put_of(words))?;
    Ok((ScheduledCall::Begin { register, transfer }, rest))
}

/// An explicit get.
pub(crate) fn get_call(alloc: Global, rest: &[u8]) -> Result<(ScheduledCall, &[u8]), Miss>
    ensures { (scope : Scope) → Reads (λ x. (x.0, x.1.now)) result
        (form_at scope forms.Get rest.now) }
{
    let (register, rest) = byte_at(rest, 255)?;
    let (words, rest) = move_at(rest)?;
    let transfer = boxed(alloc, get_of(words))?;
    Ok((ScheduledCall::Begin { register, transfer }, rest))
}

/// An explicit memset.
pub(crate) fn memset_call(alloc: Global, rest: &[u8]) -> Result<(ScheduledCall, &[u8]), Miss>
    ensures { (scope : Scope) → Reads (λ x. (x.0, x.1.now)) result
        (form_at scope forms.Memset rest.now) }
{
    let (register, rest) = byte_at(rest, 255)?;
    let (words, rest) = fill_at(rest)?;
    let transfer = boxed(alloc, memset_of(words))?;
    Ok((ScheduledCall::Begin { register, transfer }, rest))
}

/// An implicit put.
pub(crate) fn implicit_put_call(alloc: Global, rest: &[u8]) -> Result<(ScheduledCall, &[u8]), Miss>
    ensures { (scope : Scope) → Reads (λ x. (x.0, x.1.now)) result
        (form_at scope forms.ImplicitPut rest.now) }
{
    let (words, rest) = move_at(rest)?;
    let transfer = boxed(alloc, put_of(words))?;
    Ok((ScheduledCall::BeginImplicit { transfer }, rest))
}

/// An implicit get.
pub(crate) fn implicit_get_call(alloc: Global, rest: &[u8]) -> Result<(ScheduledCall, &[u8]), Miss>
    ensures { (scope : Scope) → Reads (λ x. (x.0, x.1.now)) result
        (form_at scope forms.ImplicitGet rest.now) }
{
    let (words, rest) = move_at(rest)?;
    let transfer = boxed(alloc, get_of(words))?;
    Ok((ScheduledCall::BeginImplicit { transfer }, rest))
}

/// An implicit memset.
pub(crate) fn implicit_memset_call(
    alloc: Global,
    rest: &[u8],
) -> Result<(ScheduledCall, &[u8]), Miss>
    ensures { (scope : Scope) → Reads (λ x. (x.0, x.1.now)) result
        (form_at scope forms.ImplicitMemset rest.now) }
{
    let (words, rest) = fill_at(rest)?;
    let transfer = boxed(alloc, memset_of(words))?;
    Ok((ScheduledCall::BeginImplicit { transfer }, rest))
}
