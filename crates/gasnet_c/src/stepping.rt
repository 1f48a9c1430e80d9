//! One event of the node behind a handle.

ghost use Rattle.std.specs.Prelude.{◌≡◌, [], IsSome};
ghost use Rattle.part_handlers.specs.Runs.{Meaning};
ghost use Rattle.node_rules.specs.declared.call.Event.TheVariants as event;
ghost use Rattle.gasnet_c.specs.Whole.{AsksNone, IsForOne, IsWhole, RunsNoneIn};
ghost use Rattle.gasnet_c.specs.Telling.{Tells};

use crate::handle::{Handle, put, taken};
use crate::node::EventAt;
use crate::replay::NO_RUN;
use crate::told::{Told, dead};
use node_rules::{Call, Event};
use part_handlers::Handlers;
use std::alloc::Global;

/// The event happens to the node of a handle that is live. What it sends is copied into the buffer, where it fits.
pub fn stepped<H: Handlers>(
    alloc: Global,
    handle: &mut Handle,
    handlers: &H,
    event_at: &EventAt<'_>,
    buffer: &mut [u8],
) -> Told
    requires live { IsSome handle.old.place.held }
    requires may { IsForOne event_at.now.event }
    ensures whole { IsWhole handle.new }
    ensures tells { Tells (H.meaning handlers.now) handle.old.place.held event_at.now.time
        event_at.now.event result buffer.new handle.new.place.held }
    ensures quiet { RunsNoneIn handle.old.place.held event_at.now.event → (meaning : Meaning) → Tells
        meaning handle.old.place.held event_at.now.time event_at.now.event result buffer.new
        handle.new.place.held }
{
    let mut node = taken(handle, alloc);
    let told = node.happen(handlers, event_at, buffer);
    put(handle, node);
    told
}

/// The node's thread makes a call that is no request, which sends nothing.
pub fn called(alloc: Global, handle: &mut Handle, now: u64, call: Call<'_>) -> Told
    requires whole { IsWhole handle.old }
    requires may { IsForOne (event.Call 0 call) }
    requires asks_none { AsksNone call }
    ensures whole { IsWhole handle.new }
    ensures tells { (meaning : Meaning) → Tells meaning handle.old.place.held now
        (event.Call 0 call.entry) result [] handle.new.place.held }
{
    if !handle.live {
        return dead();
    }
    let event = Event::Call { thread: 0, call };
    stepped(
        alloc,
        handle,
        &NO_RUN,
        &EventAt { time: now, event },
        &mut [],
    )
}

/// A tick: at most one datagram that is due goes out. It is `GASNET_C_RETRANSMISSION` where a request is sent again
/// that had no reply in the setup's `resend`, else `GASNET_C_NOTIFICATION` for a notification of the barrier, else
/// `GASNET_C_CHUNK` for the next chunk of the oldest transfer whose target has a credit, else `GASNET_C_NOTHING`.
///
/// `now` is a time in the setup's unit, and never runs backwards. C owes a buffer of `GASNET_C_ROOM` bytes: what
/// doesn't fit isn't told, and is sent again in time.
#[unsafe(no_mangle)]
pub extern "C" fn gasnet_c_tick(
    alloc: Global,
    handle: &mut Handle,
    now: u64,
    buffer: &mut [u8],
) -> Told
    requires { IsWhole handle.old }
    ensures whole { IsWhole handle.new }
    ensures tells { (meaning : Meaning) → Tells meaning handle.old.place.held now event.Tick result
        buffer.new handle.new.place.held }
{
    if !handle.live {
        return dead();
    }
    let event_at = EventAt {
        time: now,
        event: Event::Tick,
    };
    stepped(alloc, handle, &NO_RUN, &event_at, buffer)
}
