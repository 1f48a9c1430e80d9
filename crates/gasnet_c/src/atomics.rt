//! Operations on words of a node's segment.

ghost use Rattle.std.specs.Prelude.{◌≡◌};
ghost use Rattle.spec_node.specs.Behaviour.{Lent};
ghost use Rattle.node_core.specs.ClientRules.{medium_asking};
ghost use Rattle.node_rules.specs.Called.{Requests, meant};
ghost use Rattle.node_rules.specs.declared.call.Event.TheVariants as event;
ghost use Rattle.node_atomics.specs.BatchRequests.{batch_handler};
ghost use Rattle.gasnet_c.specs.Batches.{TellsBatch, batch_for};
ghost use Rattle.gasnet_c.specs.Whole.{IsForOne, IsWhole};

use crate::handle::{Handle, put, taken};
use crate::told::{Told, dead};
use node_atomics::{BATCH_HANDLER, Batch, Op, WordOp};
use node_core::Payload;
use node_rules::Call;
use std::alloc::Global;
use wire_message::Settings;

/// An operation on a word of 64 bits in a node's segment: `gasnet_c_operation`.
#[repr(C)]
#[derive(Clone, Copy, Drop)]
pub struct Operation {
    /// Where the word stands in the target's segment: a multiple of 8.
    pub offset: u64,
    /// Its first operand.
    pub a: u64,
    /// Its second operand; only a compare-and-swap reads it.
    pub b: u64,
    /// Where the 16 bytes of its reply go in the local segment, a multiple of 8: what the word was, and then the tag.
    pub local: u64,
    /// A number that comes back behind the word.
    pub tag: u64,
    /// What it does, by number: 0 to 9, in the order of `node_atomics`'s operations.
    pub op: u32,
    /// The node whose word it is; the local one too.
    pub to: u16,
}

/// The batch of an operation, in a job with these settings; none where no operation has its number, or a part is bad.
pub fn batch_for(settings: &Settings, what: &Operation) -> Option<Batch>
    ensures { result ≡ batch_for settings.now what.now }
{
    let op = Op::of_code(u64::from(what.op))?;
    let word = WordOp {
        op,
        offset: what.offset,
        a: what.a,
        b: what.b,
    };
    Batch::new(settings, what.to, what.local, what.tag, &[word]).ok()
}

/// The request of a batch, with these arguments and this payload.
pub fn request<'a>(to: u16, args: &'a [i32], payload: &'a [u8]) -> Call<'a>
    ensures call { meant result ≡ Requests to
        (medium_asking batch_handler args.now (Lent payload.now)) }
    ensures may { IsForOne (event.Call 0 result) }
{
    Call::Medium {
        to,
        handler: BATCH_HANDLER,
        args,
        payload: Payload::Lent(payload),
    }
}

/// Asks an operation on a word of a node, which acts at one moment of that node. It is `GASNET_C_ACCEPTED`, and the
/// datagram that is to be sent is told; `GASNET_C_RAN_HERE` where the node is the local one, and the operation is done;
/// `GASNET_C_NOT_YET` where all credits of the pair are out, and `GASNET_C_EXHAUSTED` where its numbers are used up; or
/// `GASNET_C_BAD` where no operation has its number, the target is no node, or a place isn't inside a segment or isn't
/// a multiple of 8. Only where it is accepted, or ran, something happened.
///
/// The reply brings the word as it was before the operation, and then the tag, to `local`: it is there when a delivery
/// is `GASNET_C_RETURNED` with the node and slot that this call told, or when it ran here.
#[unsafe(no_mangle)]
pub extern "C" fn gasnet_c_atomic(
    alloc: Global,
    handle: &mut Handle,
    now: u64,
    what: &Operation,
    buffer: &mut [u8],
) -> Told
    requires { IsWhole handle.old }
    ensures whole { IsWhole handle.new }
    ensures tells { TellsBatch handle.old.place.held now what.now result buffer.new
        handle.new.place.held }
{
    if !handle.live {
        return dead();
    }
    let mut node = taken(handle, alloc);
    let told = node.ask(now, what, buffer);
    put(handle, node);
    told
}
