//! The nodes of the ring, and how they pass the message on.

ghost use Rattle.std.specs.Prelude.{◌≡◌, ◌<◌};

use crate::handlers::{CAME, HOPS, MESSAGE, PASSED, RingHandlers, TOLD};
use crate::queue::LossyQueue;
use gasnet::{Answer, Asked, Call, Endpoint, Entry, Event, Serves, Settings, Table};
use std::alloc::{AllocError, Global};
use std::marker::Model;

/// How many nodes the ring has.
pub const NODES: u16 = 4;
/// How often the message is passed on, in all.
pub const LAST: i32 = 12;

/// A node of the ring: its endpoint, and how often the message had been passed on when this node passed it on.
#[derive(Drop)]
pub struct RingNode {
    endpoint: Endpoint,
    next: u16,
    passed: i32,
}

impl Model for RingNode {
    ghost use Rattle.std.specs.Prelude.{◌≡◌};
    ghost use Rattle.gasnet.specs.Endpoints.{EndpointState};

    ghost Value = { EndpointState };

    ghost view = { λ node. node.endpoint };

    ghost invariant = { λ node. node.endpoint.core.settings.threads ≡ 1 };
}

impl RingNode {
    /// A node of a job with one thread, which saw no message; node 0 has the message at first.
    pub fn new(
        alloc: Global,
        settings: &Settings,
        me: u16,
        table: &Table,
    ) -> Result<RingNode, AllocError>
        requires node { me < settings.now.nodes }
        requires threads { settings.now.threads ≡ 1 }
    {
        let endpoint = Endpoint::new(alloc, settings, me, table)?;
        let next = if me + 1 < NODES { me + 1 } else { 0 };
        let passed = if me == 0 { -1 } else { 0 };
        Ok(RingNode {
            endpoint,
            next,
            passed,
        })
    }

    /// Puts the message that an answer of the endpoint sends, where it sends one, into the queue.
    ///
    /// The answer tells its slot: that of a request that was accepted or is sent again, or that of the reply of a
    /// request that ran or came again. The message stands there until a later event of the endpoint.
    fn send(
        &self,
        alloc: Global,
        answer: &Answer,
        queue: &mut LossyQueue,
    ) -> Result<(), AllocError> {
        let Some(at) = answer.sends() else {
            return Ok(());
        };
        match self.endpoint.message(at) {
            Some(bytes) => queue.send(alloc, at.peer, bytes),
            None => Ok(()),
        }
    }

    /// A tick: a request that is due is sent again.
    pub fn tick(
        &mut self,
        alloc: Global,
        now: u64,
        queue: &mut LossyQueue,
    ) -> Result<(), AllocError> {
        let answer = self.endpoint.step(&RingHandlers, now, &Event::Tick);
        self.send(alloc, &answer, queue)
    }

    /// Bytes come to the node, whatever they are.
    pub fn deliver(
        &mut self,
        alloc: Global,
        now: u64,
        bytes: &[u8],
        queue: &mut LossyQueue,
    ) -> Result<(), AllocError> {
        let event = Event::Deliver { bytes };
        let answer = self.endpoint.step(&RingHandlers, now, &event);
        self.send(alloc, &answer, queue)
    }

    /// Passes the message on, where it is here and wasn't passed on yet, and answers how often it was then. Where no
    /// credit is free nothing happens; the node tries again later.
    pub fn pass_on(
        &mut self,
        alloc: Global,
        now: u64,
        queue: &mut LossyQueue,
    ) -> Result<Option<i32>, AllocError> {
        let hops = self.endpoint.cells().get(HOPS);
        if hops <= self.passed || LAST <= hops {
            return Ok(None);
        }
        let args = [hops + 1];
        let call = Call::Short {
            to: self.next,
            handler: MESSAGE,
            args: &args,
        };
        let event = Event::Call { thread: 0, call };
        let answer = self.endpoint.step(&RingHandlers, now, &event);
        self.send(alloc, &answer, queue)?;
        match answer {
            Answer::Asked(Asked::Accepted { .. }) => {
                self.passed = hops;
                Ok(Some(hops + 1))
            }
            _ => Ok(None),
        }
    }

    /// The node to which it passes the message on.
    pub fn next(&self) -> u16 {
        self.next
    }

    /// How often the message came here.
    pub fn came(&self) -> i32 {
        self.endpoint.cells().get(CAME)
    }

    /// How often this node was told that its message came.
    pub fn told(&self) -> i32 {
        self.endpoint.cells().get(TOLD)
    }

    /// How many rules its handlers and calls broke.
    pub fn violations(&self) -> u64 {
        self.endpoint.log().count()
    }
}

/// The table of all nodes: the message's handler, and the reply's.
pub fn table(alloc: Global) -> Result<Table, AllocError> {
    let mut table = Table::new(alloc)?;
    for (index, serves) in [(MESSAGE, Serves::Requests), (PASSED, Serves::Replies)] {
        // Both indexes are free in a new table.
        let _ = table.register(Entry {
            index,
            serves,
            locks: 0,
        });
    }
    Ok(table)
}
