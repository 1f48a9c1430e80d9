//! The route of notifications, in rounds.

ghost use Rattle.std.specs.Prelude.{◌≡◌, ◌<◌, ◌≤◌, ◌+◌, ◌-◌, ◌%◌, ℕ, true, not, nat_lt};
ghost use Rattle.wire_message.specs.Notifications.{mask_number};
ghost use Rattle.part_barrier.specs.Masks.{has};
ghost use Rattle.part_barrier.specs.Route.{has_back, goes_to};

use crate::mask::{is_in, put_in};

/// A node among the nodes of a job.
#[derive(Clone, Copy, Drop)]
pub struct Place {
    /// How many nodes there are.
    pub nodes: u16,
    /// The number of the node.
    pub me: u16,
}

/// The node so many places before this one, modulo n.
#[inline(always)]
fn before(at: Place, back: u16) -> u16
    requires few { at.nodes ≤ 256 }
    requires in_range { at.me < at.nodes }
    requires back { back < at.nodes }
    ensures { result ≡ (at.me + at.nodes - back) % at.nodes }
{
    if back <= at.me {
        at.me - back
    } else {
        at.me + at.nodes - back
    }
}

/// The node so many places behind this one, modulo n.
#[inline(always)]
fn further(at: Place, step: u16) -> u16
    requires few { at.nodes ≤ 256 }
    requires in_range { at.me < at.nodes }
    requires step { step < at.nodes }
    ensures { result ≡ (at.me + step) % at.nodes }
{
    let to = at.me + step;
    if to < at.nodes { to } else { to - at.nodes }
}

/// How many of the nodes me, me - 1 and so on, modulo n, are in the mask before the first one that isn't.
fn known_back(at: Place, mask: &[u64; 4]) -> u16
    requires few { at.nodes ≤ 256 }
    requires in_range { at.me < at.nodes }
    ensures { (many : ℕ) → many ≤ at.nodes
        → has_back at.nodes at.me (mask_number mask.now) many ≡ not (nat_lt result many) }
{
    for back in 0..at.nodes {
        if !is_in(mask, before(at, back)) {
            return back;
        }
    }
    at.nodes
}

/// The nodes to which the route sends a notification, from one that knows the nodes in the mask: none before it has
/// notified.
pub(crate) fn targets(at: Place, notified: bool, mask: &[u64; 4]) -> [u64; 4]
    requires few { at.nodes ≤ 256 }
    requires in_range { at.me < at.nodes }
    ensures { (to : ℕ) → has (mask_number result) to
        ≡ goes_to at.nodes at.me notified (mask_number mask.now) to }
{
    if !notified {
        return [0; 4];
    }
    let known = known_back(at, mask);
    let mut nodes = [0; 4];
    for round in 0..8u16 {
        let step = 1u16 << round;
        if step < at.nodes && step <= known {
            put_in(&mut nodes, further(at, step));
        }
    }
    nodes
}
