//! The requests of a node that aren't back.

ghost use Rattle.std.specs.Prelude.{◌≡◌, ◌≤◌, is_some};
ghost use Rattle.node_endpoint.specs.EndpointState.{ForItsRecord};
ghost use Rattle.spec_node.specs.SlotMessages.{number_in_slot};
ghost use Rattle.spec_node.specs.declared.answer.Side.TheVariants.{Request};
ghost use Rattle.cli_check.specs.NodeReplays.{one_if_open, open_below, open_requests};

use node_endpoint::Endpoint;
use spec_node::{Side, SlotRef};

/// The most nodes of a job.
const NODES: u16 = 256;

/// The most slots of a pair of nodes.
const SLOTS: u16 = 32;

/// One where the request of a slot of a peer isn't back, and 0 for any other slot.
fn one_if_open(endpoint: &Endpoint, peer: u16, slot: u16) -> usize
    ensures is { ForItsRecord endpoint.now (λ node.
        result ≡ one_if_open endpoint.now.core.settings endpoint.now.core.me node peer slot) }
    ensures few { result ≤ 1 }
{
    let side = Side::Request;
    match endpoint.number(SlotRef { side, peer, slot }) {
        Some(_) => 1,
        None => 0,
    }
}

/// How many requests to this peer aren't back.
fn open_to(endpoint: &Endpoint, peer: u16) -> usize
    ensures is { ForItsRecord endpoint.now (λ node.
        result ≡ open_below endpoint.now.core.settings endpoint.now.core.me node peer 32) }
    ensures few { result ≤ 32 }
{
    let mut count = 0;
    for slot in 0..SLOTS {
        count += one_if_open(endpoint, peer, slot);
    }
    count
}

/// How many requests of a node aren't back.
pub fn open_requests(endpoint: &Endpoint) -> usize
    ensures { ForItsRecord endpoint.now (λ node.
        result ≡ open_requests endpoint.now.core.settings endpoint.now.core.me node) }
{
    let mut count = 0;
    for peer in 0..NODES {
        count += open_to(endpoint, peer);
    }
    count
}
