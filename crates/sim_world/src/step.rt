//! What an event does where it falls.
//!
//! The functions on the way of every event are inlined by a hint, so that an answer, which is an enum in enums, isn't
//! written to memory and read again by each of them; what a delivered message does (`arrive`) is a function of its own,
//! so that they don't grow too large for it.

ghost use Rattle.std.specs.Prelude.{◌≡◌, ◌<◌, ℕ, length, Some};
ghost use Rattle.sim_world.specs.EventScopes.{answer_to_duplicate};
ghost use Rattle.node_core.specs.CoreContracts.{IsSameNode};
ghost use Rattle.node_rules.specs.EndpointRules.{transition};
ghost use Rattle.sim_world.specs.EventScopes.{AskFalls, DeliveredFalls, Happens, IsBetween, CallFalls};
ghost use Rattle.sim_world.specs.EventScopes.{event_way, own_event, accepted_slot, IsHeld, MostIs};
ghost use Rattle.sim_world.specs.EventScopes.{IsDelivery, IsOwn, DeliversRequest, DeliversReply, HoldsDelivered};
ghost use Rattle.sim_world.specs.EventScopes.{HoldsMessage, IsCallable, IsPlanned};
ghost use Rattle.node_endpoint.specs.EndpointState.{EndpointSteps, ForItsRecord, MayHappen};
ghost use Rattle.node_endpoint.specs.EndpointState.{WouldAcceptAt};
ghost use Rattle.spec_node.specs.SlotMessages.{message_at};

use crate::event::{WorldAnswer, WorldEvent};
use crate::exchanges::Exchanges;
use node_core::{Asked, Delivered, SlotRef};
use node_endpoint::Endpoint;
use node_rules::{Answer, Event, Ticked};
use part_handlers::Handlers;

/// An event at its time, with its handlers, and whether it sends, if it is a tick.
#[derive(Drop)]
pub struct EventContext<'a, H> {
    /// What runs for a message.
    pub handlers: &'a H,
    /// The time.
    pub now: u64,
    /// The event.
    pub event: &'a WorldEvent<'a>,
    /// Whether the event, if it is a tick, sends a request of its node's own accord.
    pub sends: bool,
}

/// An event falls on these endpoints, and on the exchanges of its pair and the greatest number that
/// its node held.
#[inline(always)]
pub fn happen<H: Handlers>(
    context: EventContext<'_, H>,
    endpoints: &mut [Endpoint],
    exchanges: &mut Exchanges,
    most: &mut usize,
) -> WorldAnswer
    requires between { IsBetween (length endpoints.old) context.event.now }
    requires held { IsHeld endpoints.old exchanges.old.list context.event.now }
    requires called { IsCallable endpoints.old context.event.now }
    requires sends { IsPlanned endpoints.old
        (transition context.now context.event.now context.sends) }
    ensures { Happens (H.meaning context.entry.handlers.now)
        (record { endpoints = endpoints.old; exchanges = exchanges.old; most = most.old })
        (transition context.entry.now context.entry.event.now result)
        (record { endpoints = endpoints.new; exchanges = exchanges.new; most = most.new }) }
{
    match context.event {
        WorldEvent::Call { node, call, .. } => {
            let endpoint = &mut endpoints[*node as usize];
            fall(&context, call.is_to_other(*node), endpoint, exchanges, most)
        }
        WorldEvent::Tick { node } => {
            let endpoint = &mut endpoints[*node as usize];
            fall(&context, context.sends, endpoint, exchanges, most)
        }
        WorldEvent::Request { .. } | WorldEvent::Reply { .. } => {
            deliver(&context, endpoints, exchanges, most)
        }
    }
}

/// The node that keeps the message which an event delivers, and the one to which it comes. Of
/// another event it is its own node twice.
#[inline(always)]
fn way_of(event: &WorldEvent<'_>) -> (u16, u16)
    ensures { result ≡ event_way event.now }
{
    match *event {
        WorldEvent::Call { node, .. } | WorldEvent::Tick { node } => (node, node),
        WorldEvent::Request { from, to, .. } => (from, to),
        WorldEvent::Reply { from, to, .. } => (to, from),
    }
}

/// Delivers a message out of its sender's slot.
#[inline(always)]
fn deliver<H: Handlers>(
    context: &EventContext<'_, H>,
    endpoints: &mut [Endpoint],
    exchanges: &mut Exchanges,
    most: &mut usize,
) -> WorldAnswer
    requires delivers { IsDelivery context.now.event.now }
    requires between { IsBetween (length endpoints.old) context.now.event.now }
    requires held { IsHeld endpoints.old exchanges.old.list context.now.event.now }
    ensures { Happens (H.meaning context.entry.now.handlers.now)
        (record { endpoints = endpoints.old; exchanges = exchanges.old; most = most.old })
        (transition context.entry.now.now context.entry.now.event.now result)
        (record { endpoints = endpoints.new; exchanges = exchanges.new; most = most.new }) }
{
    let (sender, receiver) = way_of(context.event);
    if sender < receiver {
        let (below, above) = endpoints.split_at_mut(receiver as usize);
        arrive(
            context,
            &below[sender as usize],
            &mut above[0],
            exchanges,
            most,
        )
    } else {
        let (below, above) = endpoints.split_at_mut(sender as usize);
        arrive(
            context,
            &above[0],
            &mut below[receiver as usize],
            exchanges,
            most,
        )
    }
}

/// The message that stands in a slot of the sender.
#[inline(always)]
fn held_message(sender: &Endpoint, at: SlotRef) -> &[u8]
    requires { HoldsMessage sender.now at }
    ensures { ForItsRecord sender.now (λ node.
        message_at sender.now.core.settings sender.now.core.me node at ≡ Some result.now) }
{
    match sender.message(at) {
        Some(bytes) => bytes,
        None => unreachable!(),
    }
}

/// How a request that ran in this slot is answered when it comes again, by whether it is the last
/// one that ran there.
#[inline(always)]
fn repeated(from: u16, slot: u16, is_last: bool) -> Delivered
    ensures { result ≡ answer_to_duplicate from slot is_last }
{
    if is_last {
        Delivered::Duplicate(SlotRef::of_reply(from, slot))
    } else {
        Delivered::Stale
    }
}

/// The slot of the request that an answer tells to be accepted: of a thread's, or one that a tick
/// sends for the first time.
#[inline(always)]
fn accepted_slot(answer: &Answer) -> Option<u16>
    ensures { result ≡ accepted_slot answer.now }
{
    match answer {
        Answer::Asked(Asked::Accepted { slot, .. }) => Some(*slot),
        Answer::Ticked(Ticked::Notification(at) | Ticked::Chunk(at)) => Some(at.slot),
        _ => None,
    }
}

/// A call or a tick, which may be a request of the pair.
#[inline(always)]
fn fall<H: Handlers>(
    context: &EventContext<'_, H>,
    is_ask: bool,
    endpoint: &mut Endpoint,
    exchanges: &mut Exchanges,
    most: &mut usize,
) -> WorldAnswer
    requires own { IsOwn context.now.event.now }
    requires may { MayHappen endpoint.old.core.settings (own_event context.now.event.now) }
    ensures steps { CallFalls (H.meaning context.entry.now.handlers.now)
        (record { endpoint = endpoint.old; exchanges = exchanges.old; most = most.old }) is_ask
        (transition context.entry.now.now (own_event context.entry.now.event.now) result)
        (record { endpoint = endpoint.new; exchanges = exchanges.new; most = most.new }) }
    ensures same { IsSameNode endpoint.old.core endpoint.new.core }
{
    if is_ask {
        ask(context, endpoint, exchanges, most)
    } else {
        WorldAnswer::Node(step_endpoint(context, endpoint, most))
    }
}

/// A request of the pair, by a thread or by a tick. Where there is no memory for one more, it is
/// answered `NoMemory` if it would be accepted, and else as ever.
#[inline(always)]
fn ask<H: Handlers>(
    context: &EventContext<'_, H>,
    endpoint: &mut Endpoint,
    exchanges: &mut Exchanges,
    most: &mut usize,
) -> WorldAnswer
    requires own { IsOwn context.now.event.now }
    requires may { MayHappen endpoint.old.core.settings (own_event context.now.event.now) }
    ensures steps { AskFalls (H.meaning context.entry.now.handlers.now)
        (record { endpoint = endpoint.old; exchanges = exchanges.old; most = most.old })
        (transition context.entry.now.now (own_event context.entry.now.event.now) result)
        (record { endpoint = endpoint.new; exchanges = exchanges.new; most = most.new }) }
    ensures same { IsSameNode endpoint.old.core endpoint.new.core }
{
    if exchanges.make_room().is_err() {
        if would_accept(endpoint, context.now, context.event) {
            return WorldAnswer::NoMemory;
        }
        return WorldAnswer::Node(step_endpoint(context, endpoint, most));
    }
    let answer = step_endpoint(context, endpoint, most);
    if let Some(slot) = accepted_slot(&answer) {
        exchanges.add(slot);
    }
    WorldAnswer::Node(answer)
}

/// A call or a tick steps the endpoint, and raises the greatest number of message buffers that it held.
#[inline(always)]
fn step_endpoint<H: Handlers>(
    context: &EventContext<'_, H>,
    endpoint: &mut Endpoint,
    most: &mut usize,
) -> Answer
    requires own { IsOwn context.now.event.now }
    requires may { MayHappen endpoint.old.core.settings (own_event context.now.event.now) }
    ensures steps { EndpointSteps (H.meaning context.entry.now.handlers.now) endpoint.old
        (transition context.entry.now.now (own_event context.entry.now.event.now) result)
        endpoint.new }
    ensures most { MostIs most.old endpoint.new most.new }
    ensures same { IsSameNode endpoint.old.core endpoint.new.core }
{
    let answer = match context.event {
        WorldEvent::Call { thread, call, .. } => {
            endpoint.call(context.handlers, context.now, *thread, call)
        }
        WorldEvent::Tick { .. } => endpoint.step(context.handlers, context.now, &Event::Tick),
        WorldEvent::Request { .. } | WorldEvent::Reply { .. } => unreachable!(),
    };
    *most = (*most).max(endpoint.held());
    answer
}

/// Whether a call or a tick would be accepted as a request to another node.
fn would_accept(endpoint: &Endpoint, now: u64, event: &WorldEvent<'_>) -> bool
    requires { IsOwn event.now }
    ensures { WouldAcceptAt endpoint.now (transition now (own_event event.now) result) }
{
    match *event {
        WorldEvent::Call { thread, call, .. } => {
            endpoint.would_accept(now, &Event::Call { thread, call })
        }
        WorldEvent::Tick { .. } => endpoint.would_accept(now, &Event::Tick),
        WorldEvent::Request { .. } | WorldEvent::Reply { .. } => unreachable!(),
    }
}

/// A message of the sender comes.
#[inline(never)]
fn arrive<H: Handlers>(
    context: &EventContext<'_, H>,
    sender: &Endpoint,
    endpoint: &mut Endpoint,
    exchanges: &mut Exchanges,
    most: &mut usize,
) -> WorldAnswer
    requires { HoldsDelivered exchanges.old.list sender.now context.now.event.now }
    ensures steps { DeliveredFalls (H.meaning context.entry.now.handlers.now) sender.now
        (record { endpoint = endpoint.old; exchanges = exchanges.old; most = most.old })
        (transition context.entry.now.now context.entry.now.event.now result)
        (record { endpoint = endpoint.new; exchanges = exchanges.new; most = most.new }) }
    ensures same { IsSameNode endpoint.old.core endpoint.new.core }
{
    match context.event {
        WorldEvent::Request { .. } => deliver_request(context, sender, endpoint, exchanges, most),
        WorldEvent::Reply { .. } => deliver_reply(context, sender, endpoint, exchanges, most),
        WorldEvent::Call { .. } | WorldEvent::Tick { .. } => unreachable!(),
    }
}

/// A request of the pair that was sent comes. One that ran is answered by its number alone.
#[inline(always)]
fn deliver_request<H: Handlers>(
    context: &EventContext<'_, H>,
    sender: &Endpoint,
    endpoint: &mut Endpoint,
    exchanges: &mut Exchanges,
    most: &mut usize,
) -> WorldAnswer
    requires request { DeliversRequest context.now.event.now }
    requires holds { HoldsDelivered exchanges.old.list sender.now context.now.event.now }
    ensures steps { DeliveredFalls (H.meaning context.entry.now.handlers.now) sender.now
        (record { endpoint = endpoint.old; exchanges = exchanges.old; most = most.old })
        (transition context.entry.now.now context.entry.now.event.now result)
        (record { endpoint = endpoint.new; exchanges = exchanges.new; most = most.new }) }
    ensures same { IsSameNode endpoint.old.core endpoint.new.core }
{
    let WorldEvent::Request { from, to, number } = *context.event else {
        unreachable!()
    };
    let Some(exchange) = exchanges.get(number) else {
        return WorldAnswer::Unsent;
    };
    if exchange.ran {
        let is_last = endpoint.is_last_run(from, exchange.slot, number);
        return WorldAnswer::Node(Answer::Delivered(repeated(from, exchange.slot, is_last)));
    }
    let bytes = held_message(sender, SlotRef::of_request(to, exchange.slot));
    let answer = endpoint.step(context.handlers, context.now, &Event::Deliver { bytes });
    if let Answer::Delivered(Delivered::Ran(_) | Delivered::Notified(..)) = answer {
        exchanges.set_ran(number);
    }
    *most = (*most).max(endpoint.held());
    WorldAnswer::Node(answer)
}

/// The reply to a request of the pair comes, where it was sent. One to a request that is back is
/// late.
#[inline(always)]
fn deliver_reply<H: Handlers>(
    context: &EventContext<'_, H>,
    sender: &Endpoint,
    endpoint: &mut Endpoint,
    exchanges: &mut Exchanges,
    most: &mut usize,
) -> WorldAnswer
    requires reply { DeliversReply context.now.event.now }
    requires holds { HoldsDelivered exchanges.old.list sender.now context.now.event.now }
    ensures steps { DeliveredFalls (H.meaning context.entry.now.handlers.now) sender.now
        (record { endpoint = endpoint.old; exchanges = exchanges.old; most = most.old })
        (transition context.entry.now.now context.entry.now.event.now result)
        (record { endpoint = endpoint.new; exchanges = exchanges.new; most = most.new }) }
    ensures same { IsSameNode endpoint.old.core endpoint.new.core }
{
    let WorldEvent::Reply { from, number, .. } = *context.event else {
        unreachable!()
    };
    let Some(exchange) = exchanges.get(number) else {
        return WorldAnswer::Unsent;
    };
    if !exchange.ran {
        return WorldAnswer::Unsent;
    }
    if exchange.back {
        return WorldAnswer::Node(Answer::Delivered(Delivered::Late));
    }
    let bytes = held_message(sender, SlotRef::of_reply(from, exchange.slot));
    let answer = endpoint.step(context.handlers, context.now, &Event::Deliver { bytes });
    if let Answer::Delivered(Delivered::Returned { .. }) = answer {
        exchanges.set_back(number);
    }
    *most = (*most).max(endpoint.held());
    WorldAnswer::Node(answer)
}
