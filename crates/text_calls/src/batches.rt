//! Reading batches of remote atomics.

ghost use Rattle.text_calls.specs.Calls.{batch, batch_in, form_at};
ghost use Rattle.text_calls.specs.declared.forms.CallForm.TheVariants as forms;
ghost use Rattle.text_calls.specs.Forms.{Operations, bundle_at, bundles_at};
ghost use Rattle.base_text.specs.Found.{Finds, Reads};

use crate::scheduled::{BatchText, BoxedBatch, ScheduledCall};
use crate::{Scope, number_at, op_at, short_at};
use base_text::{Miss, Other, has_more};
use node_atomics::{Batch, WordOp};
use std::alloc::Global;

/// An operation and its numbers behind a space.
#[tactic(auto, unfolding(crate::specs::Forms::bundle_at))]
fn word_op_at(bytes: &[u8]) -> Result<(WordOp, &[u8]), Other>
    ensures { Finds (λ x. (x.0, x.1.now)) result (bundle_at Operations bytes.now) }
{
    let (op, rest) = op_at(bytes)?;
    let (offset, rest) = number_at(rest, 0, u64::MAX)?;
    let (a, rest) = number_at(rest, 0, u64::MAX)?;
    let (b, rest) = number_at(rest, 0, u64::MAX)?;
    Ok((WordOp { op, offset, a, b }, rest))
}

/// One to 16 operations.
fn ops_at(alloc: Global, bytes: &[u8]) -> Result<(Vec<WordOp>, &[u8]), Miss>
    ensures { Reads (λ x. (x.0.items, x.1.now)) result (bundles_at 1 16 Operations bytes.now) }
{
    let mut ops = Vec::new(alloc);
    let mut rest = bytes;
    while has_more(ops.len(), 16, rest) {
        let (op, after) = word_op_at(rest)?;
        ops.push(op)?;
        rest = after;
    }
    if ops.is_empty() {
        return Err(Miss::Unlike);
    }
    Ok((ops, rest))
}

/// Whom a batch is for, and where its answer goes.
#[derive(Clone, Copy)]
struct BatchAddress {
    to: u16,
    local: u64,
    tag: u64,
}

/// The batch of such words, where one may stand in the job: with its message, so that this can be lent.
fn batch_text(
    alloc: Global,
    scope: &Scope,
    address: BatchAddress,
    ops: Vec<WordOp>,
) -> Result<BatchText, Miss>
    ensures { Reads (λ b. b) result
        (batch_in scope.now (batch address.to address.local address.tag ops.items)) }
{
    if !scope.atomics {
        return Err(Miss::Unlike);
    }
    let (to, local, tag) = (address.to, address.local, address.tag);
    let Ok(made) = Batch::new(&scope.settings, to, local, tag, &ops) else {
        return Err(Miss::Unlike);
    };
    let arguments = made.arguments();
    let mut payload = Vec::new(alloc);
    payload.extend_from_slice(&made.payload())?;
    Ok(BatchText {
        to,
        local,
        tag,
        ops,
        arguments,
        payload,
    })
}

/// A batch, where one may stand in the job.
#[tactic(auto, unfolding(crate::specs::Calls::form_at))]
pub(crate) fn batch_at<'a>(
    alloc: Global,
    scope: &Scope,
    bytes: &'a [u8],
) -> Result<(ScheduledCall, &'a [u8]), Miss>
    ensures { Reads (λ x. (x.0, x.1.now)) result (form_at scope.now forms.Atomic bytes.now) }
{
    let (to, rest) = short_at(bytes, 65_535)?;
    let (local, rest) = number_at(rest, 0, u64::MAX)?;
    let (tag, rest) = number_at(rest, 0, u64::MAX)?;
    let (ops, rest) = ops_at(alloc, rest)?;
    let text = batch_text(alloc, scope, BatchAddress { to, local, tag }, ops)?;
    let inside = Box::new(alloc, text)?;
    let batch = BoxedBatch { inside };
    Ok((ScheduledCall::Atomic { batch }, rest))
}
