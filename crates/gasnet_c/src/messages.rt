//! Requests, and bytes that are delivered.

ghost use Rattle.std.specs.Prelude.{◌≡◌};
ghost use Rattle.part_handlers.specs.Runs.{Meaning};
ghost use Rattle.node_rules.specs.declared.call.Event.TheVariants as event;
ghost use Rattle.gasnet_c.specs.Calls.{asked_call, payload_of, IsToAnother};
ghost use Rattle.gasnet_c.specs.Peeking.{PeeksIn};
ghost use Rattle.gasnet_c.specs.Replayed.{asked_in};
ghost use Rattle.gasnet_c.specs.Telling.{Tells, TellsOwn};
ghost use Rattle.gasnet_c.specs.Whole.{IsForOne, IsWhole};

use crate::coming::{Coming, nothing};
use crate::handle::{Handle, put, taken};
use crate::node::EventAt;
use crate::replay::{Left, NO_RUN, OwnRuns, Reply, Replying, Run};
use crate::stepping::stepped;
use crate::told::{Told, dead};
use node_core::Payload;
use node_rules::{Call, Event};
use std::alloc::Global;

/// A request: `gasnet_c_ask`.
#[repr(C)]
#[derive(Clone, Copy)]
pub struct Ask<'a> {
    /// Its arguments, at most 16.
    pub args: &'a [i32],
    /// Its payload, at most 8,192 bytes; not read of a Short, nor where it is a range of the local segment.
    pub payload: &'a [u8],
    /// Where a Long's payload goes in the target's segment.
    pub offset: u64,
    /// Where the range of the local segment begins.
    pub source: u64,
    /// How many bytes that range has.
    pub source_len: u64,
    /// 0 for a Short, 1 for a Medium, else a Long.
    pub category: u32,
    /// The node that is to run it.
    pub to: u16,
    /// The index of its handler, 128 to 255.
    pub handler: u8,
    /// Whether its payload is that range of the local segment.
    pub own: bool,
}

/// The payload of a request.
fn payload_of<'a>(ask: &Ask<'a>) -> Payload<'a>
    ensures { result ≡ payload_of ask.now }
{
    if ask.own {
        Payload::Own {
            offset: ask.source,
            len: ask.source_len,
        }
    } else {
        Payload::Lent(ask.payload)
    }
}

/// A request as a call.
fn asked_call<'a>(ask: &Ask<'a>) -> Call<'a>
    ensures call { result ≡ asked_call ask.now }
    ensures may { IsForOne (event.Call 0 result) }
{
    match ask.category {
        0 => Call::Short {
            to: ask.to,
            handler: ask.handler,
            args: ask.args,
        },
        1 => Call::Medium {
            to: ask.to,
            handler: ask.handler,
            args: ask.args,
            payload: payload_of(ask),
        },
        _ => Call::Long {
            to: ask.to,
            handler: ask.handler,
            args: ask.args,
            payload: payload_of(ask),
            offset: ask.offset,
        },
    }
}

/// A request to another node. It is `GASNET_C_ACCEPTED`, and the datagram that is to be sent is told; or
/// `GASNET_C_NOT_YET` where all credits of the pair are out, `GASNET_C_EXHAUSTED` where its numbers are used up, and
/// `GASNET_C_BAD` where a part of it is bad. Only where it is accepted something happened.
///
/// C asks nothing of the local node by this call: such a request would run a handler that does nothing.
#[unsafe(no_mangle)]
pub extern "C" fn gasnet_c_request(
    alloc: Global,
    handle: &mut Handle,
    now: u64,
    ask: &Ask<'_>,
    buffer: &mut [u8],
) -> Told
    requires { IsWhole handle.old }
    ensures whole { IsWhole handle.new }
    ensures tells { IsToAnother handle.old.place.held ask.now.to → (meaning : Meaning)
        → Tells meaning
        handle.old.place.held now (event.Call 0 (asked_call ask.now)) result buffer.new
        handle.new.place.held }
{
    if !handle.live {
        return dead();
    }
    let call = asked_call(ask);
    let event = Event::Call { thread: 0, call };
    stepped(
        alloc,
        handle,
        &NO_RUN,
        &EventAt { time: now, event },
        buffer,
    )
}

/// A request to the local node, which sends nothing: C ran its handler before this call, and then that of its reply
/// where it asked for one, and made no other call of the handle in between. It is `GASNET_C_RAN_HERE`, and the runs are
/// part of the node's record; or `GASNET_C_BAD` where a part of the request is bad, and nothing happened.
///
/// `run` is what the request's handler did, and `reply_left` are the bytes at the place of a Long reply. C owes that
/// both places are told as they stand when both handlers are done. What else the handlers wrote into the segment is
/// what a call `Set` before this one would write.
#[unsafe(no_mangle)]
pub extern "C" fn gasnet_c_request_own(
    alloc: Global,
    handle: &mut Handle,
    now: u64,
    ask: &Ask<'_>,
    run: &Run<'_>,
    reply_left: &[u8],
) -> Told
    requires { IsWhole handle.old }
    ensures whole { IsWhole handle.new }
    ensures tells { TellsOwn handle.old.place.held now
        (record {
          call = asked_call ask.now;
          run = run.now;
          reply_left = reply_left.entry;
        })
        result handle.new.place.held }
{
    if !handle.live {
        return dead();
    }
    let call = asked_call(ask);
    let event = Event::Call { thread: 0, call };
    let mut node = taken(handle, alloc);
    let runs = OwnRuns {
        request: *run,
        reply: Left { bytes: reply_left },
    };
    let told = node.happen(&runs, &EventAt { time: now, event }, &mut []);
    put(handle, node);
    told
}

/// Which handler of the client's a delivery of these bytes would run, and with what. It changes nothing.
///
/// A delivery of the same bytes is answered as this call foretold, where no other call of the handle is made in
/// between.
#[unsafe(no_mangle)]
pub extern "C" fn gasnet_c_peek(alloc: Global, handle: &mut Handle, bytes: &[u8]) -> Coming
    requires { IsWhole handle.old }
    ensures whole { IsWhole handle.new }
    ensures same { handle.new.place.held ≡ handle.old.place.held }
    ensures tells { PeeksIn handle.old.place.held bytes.now result }
{
    if !handle.live {
        return nothing();
    }
    let node = taken(handle, alloc);
    let found = node.peek(bytes);
    put(handle, node);
    found
}

/// Delivers the bytes of a datagram, whatever they are. Where `gasnet_c_peek` told of a handler that runs, C ran it
/// before this call, and `reply` is the reply that it asked for; else `reply` isn't read.
///
/// It is `GASNET_C_RAN`, `GASNET_C_NOTIFIED` or `GASNET_C_DUPLICATE`, and a reply is told that is to be sent;
/// `GASNET_C_RETURNED`, and the node and slot are told of the request that is back; or `GASNET_C_STALE`,
/// `GASNET_C_LATE`, `GASNET_C_DEFERRED` or `GASNET_C_REFUSED`, and nothing happened.
///
/// C owes that the payload of a Long stood at its place before its handler ran. Nothing is written there: what stands
/// there is what the handler left. What it wrote elsewhere into the segment is what a call `Set` before this one would
/// write.
#[unsafe(no_mangle)]
pub extern "C" fn gasnet_c_deliver(
    alloc: Global,
    handle: &mut Handle,
    now: u64,
    bytes: &[u8],
    reply: &Reply<'_>,
    buffer: &mut [u8],
) -> Told
    requires { IsWhole handle.old }
    ensures whole { IsWhole handle.new }
    ensures tells { Tells (asked_in handle.old.place.held reply.now) handle.old.place.held now
        (event.Deliver bytes.entry) result buffer.new handle.new.place.held }
{
    if !handle.live {
        return dead();
    }
    let mut node = taken(handle, alloc);
    let told = node.deliver(&Replying { reply: *reply }, now, bytes, buffer);
    put(handle, node);
    told
}
