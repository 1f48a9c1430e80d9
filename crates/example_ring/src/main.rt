//! A message goes round a ring of four nodes, over a network that loses, repeats and reorders datagrams.
//!
//! It shows how a run-time embeds `Endpoint`: handlers of its own, written in Rattle with their meaning; calls,
//! deliveries and ticks; and which slot's message goes out after which answer. Where a node is told that a message was
//! accepted, sent again, or ran, the program hands the message of that slot to its network, and that is all it owes.
//!
//! Each node prints where it passed the message on. At the end each says how often the message came and how often it
//! was told so: however the network behaves, each request's handler ran at most once, and exactly once where its reply
//! came back.
#![tactic(auto)]

mod handlers;
mod queue;
mod ring;

use crate::queue::LossyQueue;
use crate::ring::{LAST, NODES, RingNode, table};
use gasnet::Settings;
use std::alloc::{AllocError, Global};
use std::io;

/// The time at which the run ends, wherever the message is then.
const END: u64 = 2_000;

/// The nodes, none of which has seen the message.
fn opened(alloc: Global) -> Result<Vec<RingNode>, AllocError> {
    let mut nodes = Vec::new(alloc);
    let Some(settings) = Settings::new(1, 7, NODES, 2, 1, 4_096, 1_000, 10) else {
        return Ok(nodes);
    };
    let table = table(alloc)?;
    for me in 0..NODES {
        nodes.push(RingNode::new(alloc, &settings, me, &table)?)?;
    }
    Ok(nodes)
}

/// The node at this place has a turn at this time: it ticks, what comes next on the network is delivered to whom it is
/// for, and the node passes the message on if it is here. Answers how often it was passed on, where it was.
fn turn(
    alloc: Global,
    nodes: &mut [RingNode],
    place: usize,
    now: u64,
    queue: &mut LossyQueue,
) -> Result<Option<i32>, AllocError> {
    if let Some(node) = nodes.get_mut(place) {
        node.tick(alloc, now, queue)?;
    }
    if let Some(datagram) = queue.receive() {
        if let Some(node) = nodes.get_mut(usize::from(datagram.to)) {
            node.deliver(alloc, now, &datagram.bytes, queue)?;
        }
    }
    match nodes.get_mut(place) {
        Some(node) => node.pass_on(alloc, now, queue),
        None => Ok(None),
    }
}

/// Each node has a turn at each time, one after the other.
fn run(rt: &HostRuntime, nodes: &mut [RingNode], queue: &mut LossyQueue) -> io::Result<()> {
    for now in 0..END {
        for place in 0..nodes.len() {
            if let Some(hops) = turn(rt.alloc(), nodes, place, now, queue)? {
                println!(rt; "node {place} passed the token on, {hops} of {LAST}")?;
            }
        }
    }
    Ok(())
}

fn main(rt: HostRuntime) -> io::Result<()> {
    let mut nodes = opened(rt.alloc())?;
    let mut queue = LossyQueue::new(rt.alloc());
    run(&rt, &mut nodes, &mut queue)?;
    for (place, node) in nodes.iter().enumerate() {
        let (came, told) = (node.came(), node.told());
        let violations = node.violations();
        println!(rt;
            "node {place}: the token came {came} times, told {told} times, violations {violations}"
        )?;
    }
    if 0 < queue.lost && 0 < queue.repeated {
        println!(rt; "datagrams were lost, and others came twice")?;
    }
    Ok(())
}
