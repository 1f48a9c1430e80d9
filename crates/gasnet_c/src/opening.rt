//! A node is made, and freed.

ghost use Rattle.std.specs.Prelude.{◌≡◌, ◌<◌, None, IfOk, IfSome, MatchOption, replicate};
ghost use Rattle.wire_message.specs.Parameters.{AreInRange};
ghost use Rattle.gasnet_c.specs.Whole.{IsWhole};
ghost use Rattle.gasnet_c.specs.Opening.{IsOpenedNode, Opens, ServesAll, settings_of, version_for};

use crate::handle::{Handle, put, taken};
use crate::memory::Memory;
use crate::node::Node;
use part_handlers::{Entry, Serves, Table};
use std::alloc::{AllocError, Global};
use std::marker::Send;
use wire_message::Settings;

/// How a node of a job is set up: `gasnet_c_setup`. All nodes of a job have the same numbers, but for `me`.
#[repr(C)]
#[derive(Clone, Copy, Drop)]
pub struct Setup {
    /// The job's number: datagrams of another job are refused.
    pub job: u64,
    /// How many bytes each segment has: a multiple of 4,096, from 4,096 to 2^40.
    pub segment: u64,
    /// After which time a request is sent again, in the unit of the calls' `now`: 1 to 1,000,000.
    pub resend: u64,
    /// How many nodes there are: 1 to 256. More than 64 have datagrams of version 2.
    pub nodes: u16,
    /// Which of them this is, from 0.
    pub me: u16,
    /// How many requests of each ordered pair of nodes may be out: 1 to 32.
    pub credits: u16,
}

/// The version of the datagrams of a job of so many nodes.
fn version_for(nodes: u16) -> u8
    ensures { result ≡ version_for nodes }
{
    if nodes <= 64 { 1 } else { 2 }
}

/// The job's settings.
fn settings_of(setup: &Setup) -> Option<Settings>
    ensures { MatchOption result (¬ (AreInRange (settings_of setup.now)))
        (λ settings. (settings ≡ settings_of setup.now) × AreInRange (settings_of setup.now)) }
{
    Settings::new(
        version_for(setup.nodes),
        setup.job,
        setup.nodes,
        setup.credits,
        1,
        setup.segment,
        u64::MAX,
        setup.resend,
    )
}

/// The table of each node: each index of a client's has a handler, for requests and for replies, which lists no lock.
fn table(alloc: Global) -> Result<Table, AllocError>
    ensures { IfOk result (λ table. ServesAll table) }
{
    let mut table = Table::new(alloc)?;
    for place in 0..128u8 {
        // Each index is free in a new table.
        let _ = table.register(Entry {
            index: 128 + place,
            serves: Serves::Both,
            locks: 0,
        });
    }
    Ok(table)
}

/// A boxed node, which did nothing.
fn made(
    alloc: Global,
    settings: &Settings,
    me: u16,
    memory: Memory,
) -> Result<Box<Node, Global>, AllocError>
    requires me { me < settings.now.nodes }
    requires threads { settings.now.threads ≡ 1 }
    requires zeros { memory.items ≡ replicate settings.now.segment 0 }
    ensures { IfOk result (λ node. IsOpenedNode settings.now me node.value) }
{
    let table = table(alloc)?;
    // Its nodes are among the limits, so is its segment.
    let _nodes = settings.nodes();
    let segment = memory.into_segment(settings.segment() as usize);
    let node = Node::open(alloc, settings, me, &table, segment)?;
    Ok(Box::new(alloc, node)?)
}

/// It does nothing, and is there for its bound: what C holds may go to another thread.
fn may_cross<T: Send>(_held: &T) {}

/// Makes a node, which did nothing yet, over the memory of its segment. It answers 0; or 1 where a limit of the setup
/// is broken, 2 for want of memory, 3 where the handle is live already. After it no call of the handle takes memory.
///
/// C owes a handle that it began as zeros, or that this library left, and memory of at least `setup.segment` bytes, all
/// zeros. From the answer 0 on the library reads and writes that memory while a call of the handle runs, and C between
/// calls alone. What C writes there is what a call `Set` of the node's thread would write.
#[tactic(auto, using(crate::proofs::Opened::opens_live, crate::proofs::Opened::opens_beyond, crate::proofs::Opened::opens_nobody, crate::proofs::Opened::opens_poor, crate::proofs::Opened::opens_new))]
#[unsafe(no_mangle)]
pub extern "C" fn gasnet_c_new(
    alloc: Global,
    handle: &mut Handle,
    setup: &Setup,
    memory: Memory,
) -> u32
    requires whole { IsWhole handle.old }
    requires zeros { memory.items ≡ replicate setup.now.segment 0 }
    ensures whole { IsWhole handle.new }
    ensures opens { Opens setup.now handle.old.place.held result handle.new.place.held }
{
    may_cross(&*handle);
    if handle.live {
        return 3;
    }
    let Some(settings) = settings_of(setup) else {
        return 1;
    };
    if setup.me >= setup.nodes {
        return 1;
    }
    match made(alloc, &settings, setup.me, memory) {
        Ok(node) => {
            put(handle, node);
            0
        }
        Err(_) => 2,
    }
}

/// Ends a node: the handle is dead then, and the segment's memory is that of whoever reserved it again. A dead handle
/// stays as it is. All memory that the library took is given back; that is tested, and no clause says it.
#[unsafe(no_mangle)]
pub extern "C" fn gasnet_c_free(alloc: Global, handle: &mut Handle)
    requires { IsWhole handle.old }
    ensures whole { IsWhole handle.new }
    ensures empty { handle.new.place.held ≡ None }
{
    if handle.live {
        drop(taken(handle, alloc));
    }
}
