//! A node with one thread.

ghost use Rattle.std.specs.Prelude.{◌≡◌, ◌<◌, IfOk, Some, replicate};
ghost use Rattle.part_handlers.specs.Runs.{Meaning};
ghost use Rattle.spec_node.specs.Record.{opening_node};
ghost use Rattle.node_core.specs.InPlace.{keeping_in};
ghost use Rattle.node_rules.specs.declared.call.Event.TheVariants as event;
ghost use Rattle.node_rules.specs.EndpointLocal.{nothing_begun};
ghost use Rattle.node_endpoint.specs.EndpointState.{EndpointStands};
ghost use Rattle.node_endpoint.specs.EndpointState.{IsNodeOf, RunsNone};
ghost use Rattle.gasnet_c.specs.Batches.{AsksBatch, batch_for};
ghost use Rattle.gasnet_c.specs.Whole.{IsForOne};
ghost use Rattle.gasnet_c.specs.Peeking.{Peeks};
ghost use Rattle.gasnet_c.specs.Replayed.{asking};
ghost use Rattle.gasnet_c.specs.Retransmission.{TellsAgain, TellsNextDue};
ghost use Rattle.gasnet_c.specs.Telling.{TellsOf};

use crate::atomics::{Operation, batch_for, request};
use crate::coming::{Coming, peeked};
use crate::replay::Replying;
use crate::serving::OwnHandlers;
use crate::told::{Told, bad, sent, tell};
use node_core::SlotRef;
use node_endpoint::Endpoint;
use node_rules::Event;
use part_handlers::{Handlers, Table};
use part_segment::Segment;
use std::alloc::{AllocError, Global};
use std::marker::Model;
use wire_message::Settings;

/// An event, and its time in the unit of the calls' `now`.
#[derive(Clone, Copy)]
pub struct EventAt<'a> {
    pub time: u64,
    pub event: Event<'a>,
}

/// The endpoint of a node of a job whose nodes have one thread each.
#[derive(Drop)]
pub struct Node {
    pub(crate) endpoint: Endpoint,
    pub(crate) settings: Settings,
}

impl Model for Node {
    ghost use Rattle.std.specs.Prelude.{◌≡◌};
    ghost use Rattle.node_endpoint.specs.EndpointState.{EndpointState};

    ghost Value = { EndpointState };

    ghost view = { λ node. node.endpoint };

    ghost invariant = { λ node. (node.endpoint.core.settings.threads ≡ 1)
        × (node.settings ≡ node.endpoint.core.settings) };
}

impl Node {
    /// The node `me`, which did nothing, over a segment of zeros.
    pub fn open(
        alloc: Global,
        settings: &Settings,
        me: u16,
        table: &Table,
        segment: Segment,
    ) -> Result<Node, AllocError>
        requires me { me < settings.now.nodes }
        requires threads { settings.now.threads ≡ 1 }
        requires zeros { segment ≡ replicate settings.now.segment 0 }
        ensures node { IfOk result (IsNodeOf settings.now table.now me) }
        ensures stands { IfOk result (λ node.
            EndpointStands node (opening_node (nothing_begun settings.now))) }
    {
        let endpoint = Endpoint::with_segment(alloc, settings, me, table, segment)?;
        let settings = *settings;
        Ok(Node { endpoint, settings })
    }

    /// One event. What it sends is copied into the buffer, where it fits.
    pub fn happen<H: Handlers>(
        &mut self,
        handlers: &H,
        event_at: &EventAt<'_>,
        buffer: &mut [u8],
    ) -> Told
        requires { IsForOne event_at.now.event }
        ensures tells { TellsOf (H.meaning handlers.now) self.old event_at.now.time
            event_at.now.event result buffer.new self.new }
        ensures quiet { RunsNone self.old event_at.now.event → (meaning : Meaning) → TellsOf meaning
            self.old event_at.now.time event_at.now.event result buffer.new self.new }
    {
        let answer = self.endpoint.step(handlers, event_at.time, &event_at.event);
        tell(&self.endpoint, &answer, buffer)
    }

    /// Bytes come whose client's handler, where one runs, ran before, and asked for this reply: what it left in the
    /// segment stands there. What the delivery sends is copied into the buffer, where it fits.
    #[tactic(auto, using(crate::proofs::Quiet::asking_quiet))]
    pub fn deliver(
        &mut self,
        replying: &Replying<'_>,
        now: u64,
        bytes: &[u8],
        buffer: &mut [u8],
    ) -> Told
        ensures { TellsOf (keeping_in self.old.core.segment (λ handler frame start.
            asking replying.now.reply frame start)) self.old now (event.Deliver bytes.entry) result
            buffer.new self.new }
    {
        let answer = self.endpoint.deliver_in_place(replying, now, bytes);
        tell(&self.endpoint, &answer, buffer)
    }

    /// Its thread asks an operation on a word. What it sends is copied into the buffer, where it fits.
    pub fn ask(&mut self, now: u64, what: &Operation, buffer: &mut [u8]) -> Told
        ensures { AsksBatch (batch_for self.old.core.settings what.now) self.old now result
            buffer.new
            self.new }
    {
        let Some(batch) = batch_for(&self.settings, what) else {
            return bad();
        };
        let args = batch.arguments();
        let payload = batch.payload();
        let call = request(batch.to(), &args, &payload);
        let event = Event::Call { thread: 0, call };
        self.happen(&OwnHandlers, &EventAt { time: now, event }, buffer)
    }

    /// What a delivery of these bytes would run.
    pub fn peek(&self, bytes: &[u8]) -> Coming
        ensures { Peeks self.now bytes.now result }
    {
        peeked(&self.endpoint, self.settings.version(), bytes)
    }

    /// The datagram of the open request to a node in that slot, copied into the buffer where it fits. The answer is how
    /// many bytes it has, and 0 where there is none.
    pub fn open_request(&self, to: u16, slot: u16, buffer: &mut [u8]) -> u64
        ensures { TellsAgain (Some self.now) to slot result buffer.new }
    {
        sent(&self.endpoint, Some(SlotRef::of_request(to, slot)), buffer)
    }

    /// From which time on a tick sends a request again; the greatest one where none before it does.
    pub fn next_due(&self) -> u64
        ensures { TellsNextDue (Some self.now) result }
    {
        match self.endpoint.next_due() {
            Some(time) => time,
            None => u64::MAX,
        }
    }
}
