//! The slots that a node has for its peers.

ghost use Rattle.std.specs.Prelude.{◌≡◌, ◌≢◌, ◌<◌, IfOk, length, take};
ghost use Rattle.spec_node.specs.SlotMessages.{slots_of};
ghost use Rattle.node_core.specs.Sizes.{AreSlots, AreFreeRequests, AreFreeReplies};

use crate::answer::Side;
use part_window::{CreditSlots, PART_BYTES, ReplySlots};
use std::alloc::{AllocError, Global};
use wire_message::{MAX_DATAGRAM, Settings};

// Each buffer of a slot holds every datagram.
const _: () = prove!(PART_BYTES == MAX_DATAGRAM);

/// The greatest number of nodes.
const NODES: usize = 256;

/// How many slots of that side the node `me` has for another node.
pub(crate) fn slots_of(settings: &Settings, me: u16, side: Side, peer: u16) -> u16
    requires { peer ≢ me }
    ensures { result ≡ slots_of settings.now me side peer }
{
    match side {
        Side::Request => settings.credits(me, peer),
        Side::Reply => settings.credits(peer, me),
    }
}

/// Those for each other node, by its number; 0 for the node itself, and behind the last node.
fn slots_by_peer(settings: &Settings, me: u16, side: Side) -> [u16; NODES]
    ensures { AreSlots settings.now me side (take settings.now.nodes result) }
{
    let mut counts = [0; NODES];
    for peer in 0..settings.nodes() {
        if peer != me {
            counts[peer as usize] = slots_of(settings, me, side, peer);
        }
    }
    counts
}

/// The slots of requests to each other node, all free.
///
/// It is refused for want of memory alone.
pub(crate) fn free_requests(
    alloc: Global,
    settings: &Settings,
    me: u16,
) -> Result<CreditSlots, AllocError>
    requires { me < settings.now.nodes }
    ensures { IfOk result (λ requests. AreFreeRequests settings.now me requests) }
{
    let nodes = settings.nodes() as usize;
    let counts = slots_by_peer(settings, me, Side::Request);
    CreditSlots::new(alloc, &counts[..nodes], me, settings.last())
}

/// The slots of replies to each other node, which keep none.
///
/// It is refused for want of memory alone.
pub(crate) fn free_replies(
    alloc: Global,
    settings: &Settings,
    me: u16,
) -> Result<ReplySlots, AllocError>
    requires { me < settings.now.nodes }
    ensures { IfOk result (λ replies. AreFreeReplies settings.now me replies) }
{
    let nodes = settings.nodes() as usize;
    let counts = slots_by_peer(settings, me, Side::Reply);
    ReplySlots::new(alloc, &counts[..nodes], me)
}
