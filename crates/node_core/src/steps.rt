//! What the calls of a core do, part by part.

ghost use Rattle.std.specs.Prelude.{◌≡◌, ◌≢◌, ◌<◌, ◌≤◌, ◌+◌, length, IfNone, None};
ghost use Rattle.wire_message.specs.Content.{IsMessage, content_of};
ghost use Rattle.wire_message.specs.Reading.{viewed_message};
ghost use Rattle.spec_node.specs.Invariant.{address_in};
ghost use Rattle.spec_node.specs.Step.{slots_for, with_sender};
ghost use Rattle.part_handlers.specs.Tokens.{arrival_of};
ghost use Rattle.part_handlers.specs.declared.rules.Role.TheVariants as role;
ghost use Rattle.part_window.specs.RepliesState.{JudgesAt};
ghost use Rattle.part_window.specs.declared.replies.Judged.TheVariants as judged;
ghost use Rattle.node_core.specs.AskedFor.{ask_of, asking_of, content_asked, content_with};
ghost use Rattle.part_segment.specs.Bytes.{part};
ghost use Rattle.part_handlers.specs.Runs.{IsPlaced, passes_end};
ghost use Rattle.node_core.specs.ClientRules.{IsFine, busy_lock, content_refusal, is_handled};
ghost use Rattle.node_core.specs.CoreStep.{AsksFor, Claims, DeliversMessage, IsOurRequest};
ghost use Rattle.node_core.specs.CoreStep.{IsOurReply, IsOurs};
ghost use Rattle.node_core.specs.CoreStep.{IsNewRequest, RunsBy, Retransmits, after_judgement, thread_rule};
ghost use Rattle.node_core.specs.CoreStep.{CanRunReply, asked_fault, claim_of, lock_at};
ghost use Rattle.node_core.specs.CoreStep.{message_refusal, with_own_run};
ghost use Rattle.node_core.specs.CoreStep.{client_delivered, with_reply_ran, with_client_reply_ran};
ghost use Rattle.node_core.specs.HandlerRuns.{arrival_in, place_of};
ghost use Rattle.node_core.specs.InPlace.{IsQuiet, RunsOn, client_on, laid, meant_in, with_client_reply_on};
ghost use Rattle.node_core.specs.Sizes.{HasSegment};

use crate::answer::{Asked, Delivered, Side, SlotRef, Why};
use crate::arguments::arguments;
use crate::asking::{Asking, Category, Payload};
use crate::committing::keep_request;
use crate::context::{HandlerContext, listed_for};
use crate::landing::{Landing, land, land_if_written, lend_own};
use crate::library::LAST_OWN;
use crate::library_runs::library_fault;
use crate::node::Core;
use crate::own::place_asked;
use crate::slots::slots_of;
use part_handlers::{
    CallKind, Context, Fault, Forbidden, Handlers, Incoming, Role, Violation, Which, allowed,
};
use part_window::{Judged, NoClaim};
use wire_message::{Address, Kind, MAX_PAYLOAD, View};

/// The most bytes of a payload, as a part of a segment tells them.
const LONGEST: u64 = MAX_PAYLOAD as u64;

impl Core {
    /// A request of a thread.
    pub(crate) fn make<H: Handlers>(&mut self, handlers: &H, now: u64, asking: &Asking<'_>) -> Asked
        requires { HasSegment self.old }
        ensures { AsksFor (H.meaning handlers.now) self.old
            (record { now = now; event = ask_of asking.now; answer = result })
            self.new }
    {
        if let Err(forbidden) = self.judge(asking.thread, CallKind::Request) {
            return Asked::Forbidden(forbidden);
        }
        if let Some(which) = self.bad_argument(asking) {
            return Asked::BadArg(which);
        }
        if asking.to != self.me {
            return self.claim(now, asking);
        }
        if let Some(lock) = self.busy(asking.handler) {
            return Asked::LockBusy(lock);
        }
        self.run_here(handlers, asking);
        Asked::Ran
    }

    /// Judges a call of a thread; where it is forbidden, a violation is noted.
    pub(crate) fn judge(&mut self, thread: u16, call: CallKind) -> Result<(), Forbidden>
        ensures judged { result ≡ thread_rule self.old thread call }
        ensures noted { self.new ≡ after_judgement self.old thread result }
    {
        let context = Context::Thread(thread);
        let judged = allowed(context, &self.locks, false, call);
        if let Err(forbidden) = judged {
            self.log.log_violation(Violation {
                context,
                fault: Fault::Rule(forbidden),
            });
        }
        judged
    }

    /// The first argument of a request that is bad.
    pub(crate) fn bad_argument(&self, asking: &Asking<'_>) -> Option<Which>
        requires { HasSegment self.now }
        ensures first { result ≡ asked_fault self.now (ask_of asking.now) }
        ensures fine { IfNone result (IsFine (length self.now.segment) (asking_of asking.now)) }
    {
        if asking.to >= self.settings.nodes() {
            return Some(Which::Node);
        }
        if !self.table.has(Role::Request, asking.handler) {
            return Some(Which::Handler);
        }
        if asking.args.len() > 16 {
            return Some(Which::Count);
        }
        if asking.category == Category::Short {
            return None;
        }
        let len = asking.payload.len();
        if len > LONGEST {
            return Some(Which::Payload);
        }
        if let Payload::Own { offset, len } = asking.payload {
            if !self.segment.contains(offset, len) {
                return Some(Which::Source);
            }
        }
        if asking.category == Category::Long && !self.segment.contains(asking.offset, len) {
            return Some(Which::Offset);
        }
        None
    }

    /// The smallest lock that a thread holds among those of the handler of this index and of all handlers of replies.
    fn busy(&self, handler: u8) -> Option<u8>
        ensures { result ≡ busy_lock self.now.table handler self.now.locks }
    {
        self.locks.blocked(listed_for(&self.table, handler) | self.table.reply_locks())
    }

    /// A request to the local node: its handler runs, and then that of its reply where it sent one.
    fn run_here<H: Handlers>(&mut self, handlers: &H, asking: &Asking<'_>)
        requires segment { HasSegment self.old }
        requires fine { IsFine (length self.old.segment) (asking_of asking.now) }
        requires free { busy_lock self.old.table asking.now.handler self.old.locks ≡ None }
        ensures { self.new ≡ with_own_run (H.meaning handlers.now) self.old
            (content_asked self.old.segment asking.now) }
    {
        let shown = lend_own(&mut self.segment, self.lent.part_mut(0), asking);
        let listed = listed_for(&self.table, asking.handler);
        let request = Incoming {
            role: Role::Request,
            me: self.me,
            source: self.me,
            slot: 0,
            number: 0,
            args: asking.args,
            payload: &self.lent.part(0)[..shown],
            place: place_asked(asking),
        };
        let mut context = HandlerContext {
            cells: &mut self.cells,
            segment: &mut self.segment,
            locks: &mut self.locks,
            log: &mut self.log,
            settings: &self.settings,
            table: &self.table,
            listed,
        };
        context.run_own(handlers, asking.handler, request, self.token.part_mut(0));
    }

    /// A request to another node.
    fn claim(&mut self, now: u64, asking: &Asking<'_>) -> Asked
        requires node { asking.now.to < self.old.settings.nodes }
        requires other { asking.now.to ≢ self.old.me }
        requires fine { IsFine (length self.old.segment) (asking_of asking.now) }
        ensures { Claims self.old
            (claim_of self.old (record { now = now; event = ask_of asking.now; answer = result }))
            self.new }
    {
        match (asking.category, asking.payload) {
            (Category::Short, _) => self.claim_lent(now, asking, &[]),
            (_, Payload::Lent(bytes)) => self.claim_lent(now, asking, bytes),
            (_, Payload::Own { offset, len }) => self.claim_own(now, asking, offset, len),
        }
    }

    /// Where a request to that node goes, whose slot and number are still to be taken.
    fn request_way(&self, to: u16) -> Address
        ensures { result ≡ address_in self.now.settings self.now.me to 0 0 }
    {
        Address {
            version: self.settings.version(),
            job: self.settings.job(),
            from: self.me,
            to,
            slot: 0,
            number: 0,
        }
    }

    /// A request to another node with this payload, which is written straight into its slot.
    pub(crate) fn claim_lent(&mut self, now: u64, asking: &Asking<'_>, payload: &[u8]) -> Asked
        requires node { asking.now.to < self.old.settings.nodes }
        requires other { asking.now.to ≢ self.old.me }
        requires handler { 1 ≤ asking.now.handler }
        requires count { length asking.now.args.now ≤ 16 }
        requires payload { length payload.now ≤ MAX_PAYLOAD }
        ensures { Claims self.old
            (record {
              now = now;
              event = record {
                to = asking.now.to;
                content = content_with asking.now payload.now;
              };
              answer = result;
            })
            self.new }
    {
        let to = asking.to;
        let way = self.request_way(to);
        match keep_request(&mut self.requests, way, now, asking, payload) {
            Ok((slot, number)) => Asked::Accepted { to, slot, number },
            Err(NoClaim::Exhausted) => Asked::Exhausted,
            Err(NoClaim::NotYet) => Asked::NotYet,
        }
    }

    /// A request to another node with a range of the local segment as its payload, which is written straight into its
    /// slot.
    pub(crate) fn claim_own(
        &mut self,
        now: u64,
        asking: &Asking<'_>,
        offset: u64,
        len: u64,
    ) -> Asked
        requires node { asking.now.to < self.old.settings.nodes }
        requires other { asking.now.to ≢ self.old.me }
        requires handler { 1 ≤ asking.now.handler }
        requires count { length asking.now.args.now ≤ 16 }
        requires payload { len ≤ MAX_PAYLOAD }
        requires source { offset + len ≤ length self.old.segment }
        ensures { Claims self.old
            (record {
              now = now;
              event = record {
                to = asking.now.to;
                content = content_with asking.now (part self.old.segment offset len);
              };
              answer = result;
            })
            self.new }
    {
        let to = asking.to;
        let way = self.request_way(to);
        let Some(payload) = self.segment.part(offset, len) else {
            unreachable!();
        };
        match keep_request(&mut self.requests, way, now, asking, payload) {
            Ok((slot, number)) => Asked::Accepted { to, slot, number },
            Err(NoClaim::Exhausted) => Asked::Exhausted,
            Err(NoClaim::NotYet) => Asked::NotYet,
        }
    }
}

impl Core {
    /// A message that was delivered.
    pub(crate) fn receive<H: Handlers>(
        &mut self,
        handlers: &H,
        landing: Landing,
        message: &View<'_>,
    ) -> Delivered
        requires segment { HasSegment self.old }
        requires quiet { landing ≡ Landing.Kept → IsQuiet (H.meaning handlers.now) }
        requires message { IsMessage (viewed_message message.now) }
        ensures { DeliversMessage (meant_in landing self.old.segment (H.meaning handlers.now))
            self.old (viewed_message message.now) result self.new }
    {
        if let Some(why) = self.refusal(message) {
            return Delivered::Refused(why);
        }
        match message.kind {
            Kind::ShortRequest | Kind::MediumRequest | Kind::LongRequest => {
                self.run(handlers, landing, message)
            }
            Kind::ShortReply | Kind::MediumReply | Kind::LongReply | Kind::Ack => {
                self.take(handlers, landing, message)
            }
        }
    }

    /// Why a message is refused.
    #[tactic(auto, unfolding(crate::specs::CoreStep::message_refusal))]
    pub(crate) fn refusal(&self, message: &View<'_>) -> Option<Why>
        requires segment { HasSegment self.now }
        requires message { IsMessage (viewed_message message.now) }
        ensures first { result ≡ message_refusal self.now (viewed_message message.now) }
        ensures ours { IfNone result (IsOurs self.now (viewed_message message.now)) }
    {
        if message.job != self.settings.job() {
            return Some(Why::Job);
        }
        if message.to != self.me {
            return Some(Why::Receiver);
        }
        if message.from >= self.settings.nodes() {
            return Some(Why::Sender);
        }
        if message.slot >= self.slots_for(message) {
            return Some(Why::Slot);
        }
        self.content_refusal(message)
    }

    /// Why what a message says is refused.
    fn content_refusal(&self, message: &View<'_>) -> Option<Why>
        requires segment { HasSegment self.now }
        requires message { IsMessage (viewed_message message.now) }
        ensures first { result ≡ content_refusal self.now.settings self.now.table
            (content_of (viewed_message message.now)) }
        ensures placed { let content = content_of (viewed_message message.now) in
            IfNone result (IsPlaced self.now.settings.segment (place_of content)) }
    {
        if !self.is_handled(message) {
            // The library's own, or nobody's.
            if let Some(why) = library_fault(&self.settings, message) {
                return Some(why);
            }
        }
        if self.passes_end(message) {
            return Some(Why::Range);
        }
        None
    }

    /// Whether a message is an Ack, or a handler of its role is registered for its index.
    fn is_handled(&self, message: &View<'_>) -> bool
        ensures { result ≡ is_handled self.now.table (content_of (viewed_message message.now)) }
    {
        match message.kind {
            Kind::Ack => true,
            Kind::ShortRequest | Kind::MediumRequest | Kind::LongRequest => {
                self.table.has(Role::Request, message.handler)
            }
            Kind::ShortReply | Kind::MediumReply | Kind::LongReply => {
                self.table.has(Role::Reply, message.handler)
            }
        }
    }

    /// Whether a message is a Long one, and its place passes the end of the segment.
    fn passes_end(&self, message: &View<'_>) -> bool
        requires segment { HasSegment self.now }
        ensures { result
            ≡ passes_end self.now.settings.segment (content_of (viewed_message message.now)) }
    {
        match message.kind {
            Kind::LongRequest | Kind::LongReply => {
                let len = message.payload.len() as u64;
                !self.segment.contains(message.offset, len)
            }
            _ => false,
        }
    }

    /// How many slots the pair has on which a message goes.
    fn slots_for(&self, message: &View<'_>) -> u16
        requires { message.now.from ≢ self.now.me }
        ensures { result ≡ slots_for self.now.settings self.now.me (viewed_message message.now) }
    {
        let side = match message.kind {
            Kind::ShortRequest | Kind::MediumRequest | Kind::LongRequest => Side::Reply,
            Kind::ShortReply | Kind::MediumReply | Kind::LongReply | Kind::Ack => Side::Request,
        };
        slots_of(&self.settings, self.me, side, message.from)
    }

    /// The smallest lock that a thread holds among those that the handler of a message may take; none for an Ack.
    pub(crate) fn awaited(&self, message: &View<'_>) -> Option<u8>
        ensures { result ≡ lock_at self.now (viewed_message message.now) }
    {
        if message.kind == Kind::Ack {
            return None;
        }
        self.locks.blocked(listed_for(&self.table, message.handler))
    }

    /// A request that was delivered: unless it ran before, or waits for a lock, its handler runs, and its reply is
    /// kept.
    fn run<H: Handlers>(&mut self, handlers: &H, landing: Landing, message: &View<'_>) -> Delivered
        requires segment { HasSegment self.old }
        requires quiet { landing ≡ Landing.Kept → IsQuiet (H.meaning handlers.now) }
        requires ours { IsOurRequest self.old (viewed_message message.now) }
        ensures { DeliversMessage (meant_in landing self.old.segment (H.meaning handlers.now))
            self.old (viewed_message message.now) result self.new }
    {
        let at = SlotRef {
            side: Side::Reply,
            peer: message.from,
            slot: message.slot,
        };
        match self
            .replies
            .judge(message.from, message.slot, message.number)
        {
            Judged::Duplicate => Delivered::Duplicate(at),
            Judged::Stale => Delivered::Stale,
            Judged::New => match self.awaited(message) {
                Some(lock) => Delivered::Deferred(lock),
                None if message.handler <= LAST_OWN => self.run_library(message, at),
                None => {
                    self.run_client(handlers, landing, message);
                    Delivered::Ran(at)
                }
            },
        }
    }

    /// Runs a request for a client's handler whose number is greater than the last one of its slot, and keeps its reply
    /// there.
    fn run_client<H: Handlers>(&mut self, handlers: &H, landing: Landing, message: &View<'_>)
        requires segment { HasSegment self.old }
        requires quiet { landing ≡ Landing.Kept → IsQuiet (H.meaning handlers.now) }
        requires new { IsNewRequest self.old (viewed_message message.now) }
        requires free { lock_at self.old (viewed_message message.now) ≡ None }
        ensures { RunsBy
            (client_delivered (meant_in landing self.old.segment (H.meaning handlers.now)) self.old
            (viewed_message message.now))
            self.old (viewed_message message.now) self.new }
    {
        self.run_new(handlers, landing, message);
    }

    /// The same, as what the handler's own run gives where its payload landed or was kept.
    fn run_new<H: Handlers>(&mut self, handlers: &H, landing: Landing, message: &View<'_>)
        requires segment { HasSegment self.old }
        requires new { IsNewRequest self.old (viewed_message message.now) }
        requires free { lock_at self.old (viewed_message message.now) ≡ None }
        ensures { let core = laid landing self.old (content_of (viewed_message message.now)) in
            RunsOn (client_on (H.meaning handlers.now) core (viewed_message message.now)) core
            (viewed_message message.now) self.new }
    {
        let (args, count) = arguments(message);
        let listed = listed_for(&self.table, message.handler);
        let incoming = self.received(Role::Request, message, &args[..count], message.payload);
        land_if_written(&mut self.segment, landing, message);
        let mut context = HandlerContext {
            cells: &mut self.cells,
            segment: &mut self.segment,
            locks: &mut self.locks,
            log: &mut self.log,
            settings: &self.settings,
            table: &self.table,
            listed,
        };
        context.answer(handlers, message.handler, incoming, &mut self.replies);
    }

    /// A message of another node, with these as its arguments. Its payload, where it isn't a Long's, is lent out of the
    /// bytes that were delivered.
    fn received<'a>(
        &self,
        role: Role,
        message: &View<'_>,
        args: &'a [i32],
        payload: &'a [u8],
    ) -> Incoming<'a>
        requires args { args.now ≡ (viewed_message message.now).args }
        requires payload { payload.now ≡ message.now.payload.now }
        ensures { arrival_of result ≡ arrival_in role
            (with_sender self.now.me (viewed_message message.now))
            (content_of (viewed_message message.now)) }
    {
        let (payload, place) = match message.kind {
            Kind::LongRequest | Kind::LongReply => {
                let none: &[u8] = &[];
                (none, Some((message.offset, message.payload.len() as u64)))
            }
            _ => (payload, None),
        };
        Incoming {
            role,
            me: self.me,
            source: message.from,
            slot: message.slot,
            number: message.number,
            args,
            payload,
            place,
        }
    }

    /// A reply that was delivered: where its request isn't back, and it waits for no lock, its handler runs, and the
    /// credit is back.
    fn take<H: Handlers>(&mut self, handlers: &H, landing: Landing, message: &View<'_>) -> Delivered
        requires segment { HasSegment self.old }
        requires quiet { landing ≡ Landing.Kept → IsQuiet (H.meaning handlers.now) }
        requires ours { IsOurReply self.old (viewed_message message.now) }
        ensures { DeliversMessage (meant_in landing self.old.segment (H.meaning handlers.now))
            self.old (viewed_message message.now) result self.new }
    {
        let (peer, slot, number) = (message.from, message.slot, message.number);
        if let Some(lock) = self.awaited(message) {
            return if self.requests.is_taken(peer, slot, number) {
                Delivered::Deferred(lock)
            } else {
                Delivered::Late
            };
        }
        if !self.requests.take_back(peer, slot, number) {
            return Delivered::Late;
        }
        if message.kind != Kind::Ack {
            self.run_reply(handlers, landing, message);
        }
        Delivered::Returned {
            to: message.from,
            slot: message.slot,
            number: message.number,
        }
    }

    /// Runs the handler of a reply. The library's own has nothing to do but to put the bytes that a get asked for in
    /// their place.
    fn run_reply<H: Handlers>(&mut self, handlers: &H, landing: Landing, reply: &View<'_>)
        requires segment { HasSegment self.old }
        requires quiet { landing ≡ Landing.Kept → IsQuiet (H.meaning handlers.now) }
        requires reply { CanRunReply self.old (viewed_message reply.now) }
        ensures { self.new ≡ with_reply_ran
            (meant_in landing self.old.segment (H.meaning handlers.now)) self.old
            (with_sender self.old.me (viewed_message reply.now))
            (content_of (viewed_message reply.now)) }
    {
        if reply.handler <= LAST_OWN {
            land(&mut self.segment, reply);
        } else {
            self.run_client_reply(handlers, landing, reply);
        }
    }

    /// Runs a client's handler of a reply.
    fn run_client_reply<H: Handlers>(&mut self, handlers: &H, landing: Landing, reply: &View<'_>)
        requires segment { HasSegment self.old }
        requires quiet { landing ≡ Landing.Kept → IsQuiet (H.meaning handlers.now) }
        requires reply { CanRunReply self.old (viewed_message reply.now) }
        ensures { self.new ≡ with_client_reply_ran
            (meant_in landing self.old.segment (H.meaning handlers.now)) self.old
            (with_sender self.old.me (viewed_message reply.now))
            (content_of (viewed_message reply.now)) }
    {
        self.run_reply_on(handlers, landing, reply);
    }

    /// The same, as what the handler's own run gives where its payload landed or was kept.
    fn run_reply_on<H: Handlers>(&mut self, handlers: &H, landing: Landing, reply: &View<'_>)
        requires segment { HasSegment self.old }
        requires reply { CanRunReply self.old (viewed_message reply.now) }
        ensures { self.new ≡ with_client_reply_on (H.meaning handlers.now)
            (laid landing self.old (content_of (viewed_message reply.now)))
            (with_sender self.old.me (viewed_message reply.now))
            (content_of (viewed_message reply.now)) }
    {
        let (args, count) = arguments(reply);
        let listed = listed_for(&self.table, reply.handler);
        let incoming = self.received(Role::Reply, reply, &args[..count], reply.payload);
        land_if_written(&mut self.segment, landing, reply);
        let mut context = HandlerContext {
            cells: &mut self.cells,
            segment: &mut self.segment,
            locks: &mut self.locks,
            log: &mut self.log,
            settings: &self.settings,
            table: &self.table,
            listed,
        };
        let _ = context.run(handlers, reply.handler, incoming, self.token.part_mut(0));
    }

    /// Records that the request which is due at `now` is sent again, and tells its node and slot.
    pub(crate) fn resend(&mut self, now: u64) -> Option<(u16, u16)>
        ensures { Retransmits self.old now result self.new }
    {
        let resend = self.settings.resend();
        self.requests.due(now, resend)
    }
}
