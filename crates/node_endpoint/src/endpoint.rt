//! One node: its active messages, and the other calls of its threads.

ghost use Rattle.std.specs.Prelude.{◌≤◌, ℕ, ◌≡◌, ◌≢◌, ◌<◌, IfOk, IfSome, None, Some, option_copied, not};
ghost use Rattle.std.specs.Prelude.{replicate};
ghost use Rattle.part_handlers.specs.LogState.{log_of};
ghost use Rattle.part_handlers.specs.Runs.{Meaning, IsLawfulMeaning};
ghost use Rattle.part_handlers.specs.Locks.{holds};
ghost use Rattle.spec_node.specs.Credits.{greatest_holding};
ghost use Rattle.spec_node.specs.Held.{held_buffers};
ghost use Rattle.spec_node.specs.NodeStep.{Ticks};
ghost use Rattle.spec_node.specs.Record.{opening_node};
ghost use Rattle.spec_node.specs.SlotMessages.{message_at, number_in_slot};
ghost use Rattle.part_transfers.specs.Operation.{has_unissued};
ghost use Rattle.part_transfers.specs.Syncs.{issued_answer};
ghost use Rattle.node_core.specs.Kept.{segment_of};
ghost use Rattle.node_core.specs.InPlace.{IsQuiet, keeping_in};
ghost use Rattle.node_core.specs.Known.{IsLastRun};
ghost use Rattle.node_rules.specs.EndpointLocal.{nothing_begun};
ghost use Rattle.node_rules.specs.EndpointRules.{transition};
ghost use Rattle.node_rules.specs.Called.{HasTarget, meant, event_of_call, IsMeantBy};
ghost use Rattle.node_rules.specs.TransferCalls.{handle_in};
ghost use Rattle.node_endpoint.specs.EndpointState.{EndpointStands, ForItsRecord, EndpointSteps, NodeSteps};
ghost use Rattle.node_endpoint.specs.EndpointState.{IsNodeOf, MayHappen, MayBeCalled, BytesCome};
ghost use Rattle.node_endpoint.specs.EndpointState.{IsNextDue, IsTickTarget, RunsNone, WouldAcceptAt};
ghost use Rattle.node_endpoint.specs.EndpointState.{IsAnsweredAlways, WouldDeliver};
ghost use Rattle.node_endpoint.specs.Parts.{CallSteps, judged_kind};
ghost use Rattle.node_endpoint.specs.Sends.{NodeSends, StepSends};

use crate::calls::judged_kind;
use crate::extended::Extended;
use crate::memory;
use node_core::{Core, Delivered, SlotRef};
use node_rules::{Answer, Call, Event, Local, Ticked};
use part_handlers::{CallKind, Cells, Handlers, Log, Owner, Table};
use part_segment::Segment;
use part_transfers::Handle;
use std::alloc::{AllocError, Global};
use std::marker::Model;
use wire_message::Settings;

/// One node of a job: its requests and runs, its segment, cells and locks, its transfers, access regions, registers of
/// handles and barrier, and its violations.
///
/// All memory is taken by `new`, or by `with_segment`, which is given the segment.
#[derive(Drop)]
pub struct Endpoint {
    core: Core,
    extended: Extended,
}

impl Model for Endpoint {
    ghost use Rattle.node_endpoint.specs.EndpointState.{EndpointState};

    ghost Value = { EndpointState };

    ghost use Rattle.node_endpoint.specs.Parts.{endpoint_of, IsWhole};

    ghost view = { λ e. endpoint_of e.core e.extended };

    ghost invariant = { λ e. IsWhole e.core e.extended };
}

impl Endpoint {
    /// The endpoint of node `me`, which asked and ran nothing, and began nothing. It keeps a copy of the table.
    ///
    /// It is refused for want of memory alone. After it no call on an endpoint takes memory.
    pub fn new(
        alloc: Global,
        settings: &Settings,
        me: u16,
        table: &Table,
    ) -> Result<Endpoint, AllocError>
        requires { me < settings.now.nodes }
        ensures node { IfOk result (IsNodeOf settings.now table.now me) }
        ensures stands { IfOk result (λ e.
            EndpointStands e (opening_node (nothing_begun settings.now))) }
    {
        let extended = Extended::new(alloc, settings, me)?;
        let core = Core::new(alloc, settings, me, table)?;
        Ok(Endpoint { core, extended })
    }

    /// The same endpoint, over a segment of zeros that was made before. Where it is refused, the segment is dropped.
    pub fn with_segment(
        alloc: Global,
        settings: &Settings,
        me: u16,
        table: &Table,
        segment: Segment,
    ) -> Result<Endpoint, AllocError>
        requires me { me < settings.now.nodes }
        requires zeros { segment ≡ replicate settings.now.segment 0 }
        ensures node { IfOk result (IsNodeOf settings.now table.now me) }
        ensures stands { IfOk result (λ e.
            EndpointStands e (opening_node (nothing_begun settings.now))) }
    {
        let extended = Extended::new(alloc, settings, me)?;
        let core = Core::with_segment(alloc, settings, me, table, segment)?;
        Ok(Endpoint { core, extended })
    }

    /// One event at the time `now`.
    ///
    /// A library call that the rule table forbids is answered `Forbidden`, whatever the call, and
    /// noted once as a violation; nothing else happens. Else `Poll` is answered `Polled` and
    /// `Attempt` `Allowed`, and they change nothing. `Cell` and `SetCell`, and the calls on the local
    /// segment, are no library calls.
    /// Requests are those of `node_core::Core`; a delivery that brings a reply tells the transfers, and one
    /// of a notification the barrier. A tick sends the request that is due again, else the barrier's notification that
    /// is due to the least node that can be asked, else the next chunk of the oldest operation whose target can be
    /// asked. What the event sends is the message of the slot that `Answer::sends` names.
    ///
    /// An event that runs no handler does the same whatever the handlers mean.
    #[inline(always)]
    pub fn step<H: Handlers>(&mut self, handlers: &H, now: u64, event: &Event<'_>) -> Answer
        requires { MayHappen self.old.core.settings event.now }
        ensures steps { EndpointSteps (H.meaning handlers.now) self.old
            (transition now event.now result) self.new }
        ensures sends { StepSends (H.meaning handlers.now) self.old
            (transition now event.now result) }
        ensures quiet { RunsNone self.old event.now → (meaning : Meaning) → EndpointSteps meaning
            self.old (transition now event.now result) self.new }
    {
        self.step_as_recorded(handlers, now, event)
    }

    /// A call of a thread at the time `now`: what `step` does at that event.
    #[inline(always)]
    pub fn call<H: Handlers>(
        &mut self,
        handlers: &H,
        now: u64,
        thread: u16,
        call: &Call<'_>,
    ) -> Answer
        requires { MayBeCalled self.old.core.settings thread call.now }
        ensures steps { NodeSteps (H.meaning handlers.now) self.old
            (transition now (event_of_call thread call.now) result) self.new }
        ensures sends { NodeSends (H.meaning handlers.now) self.old
            (transition now (event_of_call thread call.now) result) }
        ensures quiet { (HasTarget call.now self.old.core.me → ⊥) → (meaning : Meaning) →
            NodeSteps meaning self.old (transition now (event_of_call thread call.now) result) self.new }
    {
        self.call_as_recorded(handlers, now, thread, call)
    }

    /// Bytes that are delivered at the time `now`. Their client's handler, where one runs, ran before:
    /// what it left in the segment stands there already, and nothing is written at a Long's place.
    /// `handlers` say what else it did.
    ///
    /// It is `step` at that event with handlers that leave at a Long's place what stood there as the call began.
    #[inline(always)]
    pub fn deliver_in_place<H: Handlers>(&mut self, handlers: &H, now: u64, bytes: &[u8]) -> Answer
        requires { IsQuiet (H.meaning handlers.now) }
        ensures { BytesCome (keeping_in self.old.core.segment (H.meaning handlers.now)) self.old
            (transition now bytes.now result) self.new }
    {
        let answer = self.core.deliver_in_place(handlers, bytes);
        self.extended.hear(&answer);
        Answer::Delivered(answer)
    }

    /// The datagram of a slot: None exactly where the peer is no other node, the slot isn't among
    /// those of its pair, or it has no message.
    pub fn message(&self, at: SlotRef) -> Option<&[u8]>
        ensures { ForItsRecord self.now (λ node.
            option_copied result ≡ message_at self.now.core.settings self.now.core.me node at) }
    {
        self.core.message(at)
    }

    /// The number of the message of a slot, from 1: None exactly where `message` is None.
    pub fn number(&self, at: SlotRef) -> Option<u64>
        ensures { ForItsRecord self.now (λ node.
            result ≡ number_in_slot self.now.core.settings self.now.core.me node at) }
    {
        self.core.number(at)
    }

    /// Whether a request of this number is the last one that ran in a slot of the node `from`: false
    /// where that is no other node, or its pair has no such slot. It changes nothing.
    pub fn is_last_run(&self, from: u16, slot: u16, number: u64) -> bool
        ensures { IsLastRun self.now.core from slot number result }
    {
        self.core.is_last_run(from, slot, number)
    }

    /// What a delivery of these bytes would be answered, at any time and whatever the handlers mean. It changes
    /// nothing.
    pub fn would_deliver(&self, bytes: &[u8]) -> Delivered
        ensures told { WouldDeliver self.now bytes.now result }
        ensures agrees { IsAnsweredAlways self.now bytes.now result }
    {
        self.core.would_deliver(bytes)
    }

    /// Whether a request to another node would be accepted at the time `now`: one that a thread makes, or the one that
    /// a tick sends of the node's own accord; false for every other event. It changes nothing.
    pub fn would_accept(&self, now: u64, event: &Event<'_>) -> bool
        ensures { WouldAcceptAt self.now (transition now event.now result) }
    {
        match event {
            Event::Call { thread, call } => match call.asking(*thread) {
                Some(asking) => self.core.would_accept(&asking),
                None => false,
            },
            Event::Deliver { .. } => false,
            Event::Tick => self.next_target(now).is_some(),
        }
    }

    /// The node to which a tick at the time `now` sends a request of the node's own accord; None exactly where it sends
    /// none, or sends one again. It changes nothing.
    pub fn next_target(&self, now: u64) -> Option<u16>
        ensures target { IsTickTarget self.now now result }
        ensures there { IfSome result (λ to. to < self.now.core.settings.nodes) }
        ensures other { IfSome result (λ to. to ≢ self.now.core.me) }
    {
        if self.core.is_due(now) {
            return None;
        }
        if let Some((to, _)) = self.extended.next_notification(&self.core) {
            return Some(to);
        }
        match self.extended.next_chunk(&self.core) {
            Some(next) => Some(next.transfer.target()),
            None => None,
        }
    }

    /// From which time on a tick sends a request again, as long as no event happens to the node: at each time a tick
    /// does so exactly where this time has come. `None` exactly where it does so at no time. A look at one entry, which
    /// changes nothing.
    pub fn next_due(&self) -> Option<u64>
        ensures { IsNextDue self.now result }
    {
        self.core.next_due()
    }

    /// Whether each chunk of a handle's operations was issued. `Some(true)` for the invalid handle, and `None` where no
    /// operation and no region has the number.
    pub fn issued(&self, handle: Handle) -> Option<bool>
        ensures { ForItsRecord self.now (λ node.
            result ≡ issued_answer handle.serial node.local.operations) }
    {
        self.extended.transfers.issued(handle)
    }

    /// Whether some chunk of the operation with the handle's number is unissued: of that one alone, also where it is in
    /// an access region. False where no operation has the number, as it is for the invalid handle. gasnet_put_nb and
    /// gasnet_put_nbi wait while it is true of what they began.
    pub fn has_unissued(&self, handle: Handle) -> bool
        ensures { ForItsRecord self.now (λ node.
            result ≡ has_unissued handle.serial node.local.operations) }
    {
        self.extended.transfers.has_unissued(handle)
    }

    /// The handle in a register.
    pub fn register(&self, reg: u8) -> Handle
        ensures { ForItsRecord self.now (λ node. result ≡ handle_in node.local.registers reg) }
    {
        self.extended.register(reg)
    }

    /// The threads of the node, which are those of the job's settings.
    pub fn threads(&self) -> u16
        ensures { result ≡ self.now.core.settings.threads }
    {
        self.extended.regions.threads()
    }

    /// The number of the node (`gasnet_mynode`), which is one of the job's.
    pub fn me(&self) -> u16
        ensures is { result ≡ self.now.core.me }
        ensures there { result < self.now.core.settings.nodes }
    {
        self.extended.me
    }

    /// The segment.
    pub fn segment(&self) -> &Segment
        ensures { ForItsRecord self.now (λ node.
            result.now ≡ segment_of self.now.core.settings node.local.core) }
    {
        self.core.segment()
    }

    /// The cells.
    pub fn cells(&self) -> &Cells
        ensures { ForItsRecord self.now (λ node. result.now ≡ node.local.core.cells) }
    {
        self.core.cells()
    }

    /// The log of violations.
    pub fn log(&self) -> &Log
        ensures { ForItsRecord self.now (λ node. result.now ≡ log_of node.local.core.violations) }
    {
        self.core.log()
    }

    /// How many message buffers are in use: one for each request that isn't back, and one for each
    /// slot with a reply; at most the sum over the peers of the credits both ways.
    pub fn held(&self) -> usize
        ensures is { ForItsRecord self.now (λ node.
            result ≡ held_buffers self.now.core.settings self.now.core.me node) }
        ensures few { ForItsRecord self.now (λ node.
            result ≤ greatest_holding self.now.core.settings self.now.core.me) }
    {
        self.core.held()
    }

    /// Whether the thread may poll: exactly where it holds no lock.
    pub fn polls(&self, thread: u16) -> bool
        ensures { ForItsRecord self.now (λ node.
            result ≡ not (holds (Owner.Thread thread) node.local.core.locks)) }
    {
        !self.core.locks().holds(Owner::Thread(thread))
    }
}

impl Endpoint {
    /// One event at the time `now`, as the record of the node says it.
    #[inline(always)]
    fn step_as_recorded<H: Handlers>(&mut self, handlers: &H, now: u64, event: &Event<'_>) -> Answer
        requires { MayHappen self.old.core.settings event.now }
        ensures { EndpointSteps (H.meaning handlers.now) self.old
            (transition now event.now result) self.new }
    {
        match event {
            Event::Call { thread, call } => self.call(handlers, now, *thread, call),
            Event::Deliver { bytes } => self.deliver(handlers, now, bytes),
            Event::Tick => Answer::Ticked(self.tick(now)),
        }
    }

    /// A call of a thread, as the record of the node says it.
    #[inline(always)]
    fn call_as_recorded<H: Handlers>(
        &mut self,
        handlers: &H,
        now: u64,
        thread: u16,
        call: &Call<'_>,
    ) -> Answer
        requires { MayBeCalled self.old.core.settings thread call.now }
        ensures { NodeSteps (H.meaning handlers.now) self.old
            (transition now (event_of_call thread call.now) result)
            self.new }
    {
        if let Some(asking) = call.asking(thread) {
            return Answer::of_request(self.core.request(handlers, now, &asking));
        }
        match judged_kind(call) {
            Some(kind) => self.judged_call(thread, kind, call),
            None => self.own_call(thread, call),
        }
    }

    /// Bytes that are delivered.
    #[inline(always)]
    fn deliver<H: Handlers>(&mut self, handlers: &H, now: u64, bytes: &[u8]) -> Answer
        ensures { BytesCome (H.meaning handlers.now) self.old
            (transition now bytes.now result) self.new }
    {
        let answer = self.core.deliver(handlers, bytes);
        self.extended.hear(&answer);
        Answer::Delivered(answer)
    }

    /// A call of a thread that the rule table judges, and that is no request.
    #[inline(always)]
    fn judged_call(&mut self, thread: u16, kind: CallKind, call: &Call<'_>) -> Answer
        requires may { MayBeCalled self.old.core.settings thread call.now }
        requires kind { judged_kind (meant call.now) ≡ Some kind }
        ensures { CallSteps self.old thread call.now result self.new }
    {
        match self.core.check(thread, kind) {
            Ok(()) => self.extended.allowed(&mut self.core, thread, call),
            Err(forbidden) => Answer::Forbidden(forbidden),
        }
    }

    /// A call of a thread on its locks and its node's own cells and segment.
    #[inline(always)]
    fn own_call(&mut self, thread: u16, call: &Call<'_>) -> Answer
        requires no_request { IsMeantBy call.now thread None }
        requires kind { judged_kind (meant call.now) ≡ None }
        ensures { CallSteps self.old thread call.now result self.new }
    {
        match *call {
            Call::Lock { k } => Answer::Lock(self.core.lock(thread, k)),
            Call::Unlock { k } => Answer::Unlock(self.core.unlock(thread, k)),
            Call::Cell { c } => Answer::Local(Local::Cell(self.core.cells().get(c))),
            Call::SetCell { c, value } => {
                self.core.cells_mut().set(c, value);
                Answer::Local(Local::Done)
            }
            Call::Show { offset, len } => {
                Answer::Local(memory::show(self.core.segment(), offset, len))
            }
            Call::Set { offset, bytes } => {
                Answer::Local(memory::set(self.core.segment_mut(), offset, bytes))
            }
            Call::Fill { offset, len, byte } => {
                Answer::Local(memory::fill(self.core.segment_mut(), offset, len, byte))
            }
            Call::LoadWord { offset } => {
                Answer::Local(memory::load_word(self.core.segment(), offset))
            }
            Call::SetWord { offset, value } => {
                Answer::Local(memory::set_word(self.core.segment_mut(), offset, value))
            }
            _ => unreachable!(),
        }
    }

    /// A tick.
    #[inline(always)]
    fn tick(&mut self, now: u64) -> Ticked
        ensures { (meaning : Meaning) → IsLawfulMeaning meaning → NodeSteps meaning self.old
            (transition now Ticks (Answer.Ticked result)) self.new }
    {
        if let Some(at) = self.core.tick(now) {
            return Ticked::Retransmission(at);
        }
        if let Some((to, notification)) = self.extended.next_notification(&self.core) {
            return self
                .extended
                .send_notification(&mut self.core, now, to, &notification);
        }
        match self.extended.next_chunk(&self.core) {
            Some(next) => self.extended.send_chunk(&mut self.core, now, &next),
            None => Ticked::Nothing,
        }
    }
}
