//! One node's active messages.

ghost use Rattle.std.specs.Prelude.{◌≤◌, ℕ, ◌≡◌, ◌≢◌, ◌<◌, ◌-◌, ◌∷◌, [], nat_le, IfOk, length};
ghost use Rattle.std.specs.Prelude.{option_copied, replicate};
ghost use Rattle.wire_message.specs.Parameters.{credits_of};
ghost use Rattle.part_handlers.specs.LogState.{log_of};
ghost use Rattle.part_handlers.specs.Locks.{lock_answer, unlock_answer};
ghost use Rattle.part_handlers.specs.Runs.{Meaning};
ghost use Rattle.spec_node.specs.Record.{opening_node};
ghost use Rattle.spec_node.specs.Requests.{outstanding};
ghost use Rattle.spec_node.specs.Credits.{greatest_holding};
ghost use Rattle.spec_node.specs.Held.{held_buffers};
ghost use Rattle.spec_node.specs.SlotMessages.{message_at, number_in_slot};
ghost use Rattle.spec_node.specs.NodeStep.{Asks, Does, Ticks, OfRequest, OfCall, OfTick};
ghost use Rattle.node_core.specs.AskedFor.{ask_of, work_of};
ghost use Rattle.node_core.specs.Library.{WorkFits};
ghost use Rattle.node_core.specs.Kept.{nothing_done, segment_of};
ghost use Rattle.node_core.specs.CoreStep.{thread_rule, noting};
ghost use Rattle.node_core.specs.InPlace.{IsQuiet, keeping_in, meant_in};
ghost use Rattle.node_core.specs.Sizes.{HasSegment};
ghost use Rattle.node_core.specs.Stands.{CoreStands};
ghost use Rattle.node_core.specs.CoreContracts.{CoreSteps, Check, Lock, Unlock, Checked, Locked};
ghost use Rattle.node_core.specs.CoreContracts.{Unlocked, Delivers};
ghost use Rattle.node_core.specs.CoreContracts.{AsksOwn, ForItsRecord, retransmits};

use crate::answer::{Asked, Delivered, Side, SlotRef, Why};
use crate::asking::{Asking, Payload};
use crate::landing::Landing;
use crate::library::LibraryRequest;
use crate::slots::{free_replies, free_requests, slots_of};
use part_handlers::{
    CallKind, Cells, Context, Fault, Forbidden, Handlers, LockAnswer, Locks, Log, Owner, Table,
    UnlockAnswer, Violation,
};
use part_segment::Segment;
use part_window::{Block, CreditSlots, ReplySlots};
use std::alloc::{AllocError, Global};
use std::marker::Model;
use wire_message::{Settings, view};

/// The active messages of one node (GASNet 1.8.1, core API): its requests that aren't back, the replies that it keeps,
/// its segment, the handler-safe locks, the handlers' cells, and the violations of the rules.
///
/// All memory is taken by `new`, or by `with_segment`, which is given the segment.
#[derive(Drop)]
pub struct Core {
    pub(crate) settings: Settings,
    pub(crate) me: u16,
    pub(crate) table: Table,
    pub(crate) requests: CreditSlots,
    pub(crate) replies: ReplySlots,
    pub(crate) segment: Segment,
    pub(crate) locks: Locks,
    pub(crate) cells: Cells,
    pub(crate) log: Log,
    // For a call on the local node: the payload of its request, and its reply. Each is the one part of a block, whose
    // memory is reserved, and touched at the first such call.
    pub(crate) lent: Block,
    pub(crate) token: Block,
}

impl Model for Core {
    ghost use Rattle.std.specs.Prelude.{◌≡◌, false, length};
    ghost use Rattle.part_handlers.specs.declared.lock_answer.Owner.TheVariants.{Handler};
    ghost use Rattle.part_handlers.specs.Locks.{holds};
    ghost use Rattle.node_core.specs.CoreState.{CoreState};
    ghost use Rattle.node_core.specs.Sizes.{IsSized};

    ghost Value = { CoreState };

    ghost view = { λ c. record {
      settings = c.settings;
      me = c.me;
      table = c.table;
      requests = c.requests;
      replies = c.replies;
      segment = c.segment;
      locks = c.locks;
      cells = c.cells;
      log = c.log;
    } };

    ghost invariant = { λ c.
        IsSized c.settings c.me c.requests c.replies × (length c.token ≡ 1)
        × (length c.lent ≡ 1) × (holds Handler c.locks ≡ false) };
}

impl Core {
    /// The core of node `me`, which asked and ran nothing: a segment of zeros, of the settings' length; all locks free;
    /// 256 cells that are 0, and no violation. It keeps a copy of the table.
    ///
    /// It is refused for want of memory alone. After it no call on a core takes memory.
    pub fn new(
        alloc: Global,
        settings: &Settings,
        me: u16,
        table: &Table,
    ) -> Result<Core, AllocError>
        requires { me < settings.now.nodes }
        ensures settings { IfOk result (λ core. core.settings ≡ settings.now) }
        ensures me_is { IfOk result (λ core. core.me ≡ me) }
        ensures table_is { IfOk result (λ core. core.table ≡ table.now) }
        ensures segment { IfOk result (λ core. HasSegment core) }
        ensures stands { IfOk result (λ core. CoreStands core (opening_node nothing_done)) }
    {
        let segment = Segment::new(alloc, settings.segment() as usize)?;
        Core::with_segment(alloc, settings, me, table, segment)
    }

    /// The same core, over a segment of zeros that was made before.
    pub fn with_segment(
        alloc: Global,
        settings: &Settings,
        me: u16,
        table: &Table,
        segment: Segment,
    ) -> Result<Core, AllocError>
        requires me { me < settings.now.nodes }
        requires zeros { segment ≡ replicate settings.now.segment 0 }
        ensures settings { IfOk result (λ core. core.settings ≡ settings.now) }
        ensures me_is { IfOk result (λ core. core.me ≡ me) }
        ensures table_is { IfOk result (λ core. core.table ≡ table.now) }
        ensures segment { IfOk result (λ core. HasSegment core) }
        ensures stands { IfOk result (λ core. CoreStands core (opening_node nothing_done)) }
    {
        let lent = Block::new(alloc, 1)?;
        let token = Block::new(alloc, 1)?;
        let log = Log::new(alloc)?;
        let table = table.copy()?;
        let replies = free_replies(alloc, settings, me)?;
        let requests = free_requests(alloc, settings, me)?;
        Ok(Core {
            settings: *settings,
            me,
            table,
            requests,
            replies,
            segment,
            locks: Locks::new(),
            cells: Cells::new(),
            log,
            lent,
            token,
        })
    }

    /// A request of a client's thread for a handler of a node (GASNet 1.8.1, core API, active messages).
    ///
    /// The answer is the first of these that applies: `Forbidden` by the rule table, where the thread holds a
    /// handler-safe lock; `BadArg` with `Node` where `to` is no node, with `Handler` where no handler of requests is
    /// registered for the index, with `Count` where there are more than 16 arguments, with `Payload` where there are
    /// more than 8,192 bytes, with `Source` where the payload is a range that passes the end of the local segment, with
    /// `Offset` where its place passes the end of the target's; for the local node `LockBusy` with the smallest lock
    /// that a thread holds among those of the handler and of all handlers of replies, else `Ran`, where the handler
    /// runs at once and then that of its reply; `Exhausted` where the numbers of the pair are used up; `NotYet` where
    /// all its credits are outstanding; else `Accepted`. `now` is the time of its sending, in any one unit. After a refusal the
    /// core stands for the same record, but that `Forbidden` is noted as a violation.
    ///
    /// The segment is as long as the settings say.
    pub fn request<H: Handlers>(&mut self, handlers: &H, now: u64, asking: &Asking<'_>) -> Asked
        requires { HasSegment self.old }
        ensures { CoreSteps (H.meaning handlers.now) self.old
            (record {
              now = now;
              event = Asks (ask_of asking.now);
              answer = OfRequest result;
            })
            self.new }
    {
        self.make(handlers, now, asking)
    }

    /// A request of the library to another node, of the node's own accord (GASNet 1.8.1, extended API): a chunk of a
    /// transfer, or a notification of the barrier. A put's bytes are copied out of the local segment as it is now.
    ///
    /// `Exhausted` exactly where the numbers of the pair are used up, then `NotYet` where all its credits are outstanding, else
    /// `Accepted`. `now` is the time of its sending.
    ///
    /// Ranges are of 1 to 8,192 bytes inside the segments, a notification's mask is within the nodes and its flags 0 to
    /// 3, and the local segment is as long as the settings say.
    pub fn ask(&mut self, now: u64, to: u16, work: &LibraryRequest) -> Asked
        requires node { to < self.old.settings.nodes }
        requires other { to ≢ self.old.me }
        requires segment { HasSegment self.old }
        requires fits { WorkFits self.old.settings (work_of work.now) }
        ensures { AsksOwn self.old
            (record { now = now; to = to; work = work_of work.now; answer = result }) self.new }
    {
        self.claim_work(now, to, work)
    }

    /// A datagram that was delivered: any bytes.
    ///
    /// The answer is the first of these that applies. `Refused`, with the first of the reasons in the order of `Why`.
    /// For a request `Duplicate` where its number is the last one run in its slot, `Stale` where it is less, `Deferred`
    /// with the smallest lock that a thread holds among those of its handler, else `Ran`: its handler ran, and its
    /// reply is kept in that slot, or an Ack where the handler sent none. For a reply `Late` where no request that
    /// isn't back has that node, slot and number, `Deferred` as for a request, else `Returned`: its handler ran, if it
    /// is no Ack, and the credit came back. The payload of a Long that runs stands at its place of the segment before
    /// its handler runs; for any other answer nothing is written.
    ///
    /// The segment is as long as the settings say.
    pub fn deliver<H: Handlers>(&mut self, handlers: &H, bytes: &[u8]) -> Delivered
        requires { HasSegment self.old }
        ensures { Delivers (H.meaning handlers.now) self.old bytes.now result self.new }
    {
        self.deliver_as(handlers, Landing::Written, bytes)
    }

    /// A datagram that was delivered whose client's handler, where one runs, ran before: what it left in the segment
    /// stands there already, and nothing is written at a Long's place. `handlers` say what else it did.
    ///
    /// It is `deliver` with handlers that leave at a Long's place what stood there as the call began.
    pub fn deliver_in_place<H: Handlers>(&mut self, handlers: &H, bytes: &[u8]) -> Delivered
        requires segment { HasSegment self.old }
        requires quiet { IsQuiet (H.meaning handlers.now) }
        ensures { Delivers (keeping_in self.old.segment (H.meaning handlers.now)) self.old bytes.now
            result self.new }
    {
        self.deliver_as(handlers, Landing::Kept, bytes)
    }

    /// A datagram that was delivered: any bytes.
    fn deliver_as<H: Handlers>(&mut self, handlers: &H, landing: Landing, bytes: &[u8]) -> Delivered
        requires segment { HasSegment self.old }
        requires quiet { landing ≡ Landing.Kept → IsQuiet (H.meaning handlers.now) }
        ensures { Delivers (meant_in landing self.old.segment (H.meaning handlers.now)) self.old
            bytes.now result self.new }
    {
        match view(bytes, self.settings.version()) {
            Ok(message) => self.receive(handlers, landing, &message),
            Err(refused) => Delivered::Refused(Why::Bytes(refused)),
        }
    }

    /// Records that the request which is due at `now` is sent again, and tells its slot: of those that aren't
    /// back and were last sent `resend` or more before, the one that was sent earliest, then the one to the lower node,
    /// then the one in the lower slot. None exactly where none is due.
    pub fn tick(&mut self, now: u64) -> Option<SlotRef>
        ensures { (meaning : Meaning) → CoreSteps meaning self.old
            (record { now = now; event = Ticks; answer = OfTick (retransmits result) }) self.new }
    {
        let (peer, slot) = self.resend(now)?;
        Some(SlotRef::of_request(peer, slot))
    }

    /// Judges a call of a thread by the rule table; where it is forbidden, a violation is noted.
    pub fn check(&mut self, thread: u16, call: CallKind) -> Result<(), Forbidden>
        ensures judged { result ≡ thread_rule self.old thread call }
        ensures steps { (meaning : Meaning) (now : ℕ) → CoreSteps meaning self.old
            (record {
              now = now;
              event = Does thread (Check call);
              answer = OfCall (Checked result);
            }) self.new }
    {
        self.judge(thread, call)
    }

    /// Takes a handler-safe lock for a thread (GASNet 1.8.1, core API, `gasnet_hsl_trylock`; `gasnet_hsl_lock` tries
    /// again where it is held).
    ///
    /// `Refused` with `BadIndex` exactly where `lock` is 64 or more, then with `Recursive` where the thread holds it;
    /// these are noted as violations. `Held` where another thread does; else `Taken`.
    pub fn lock(&mut self, thread: u16, lock: u8) -> LockAnswer
        ensures answer { result ≡ lock_answer self.old.locks (Owner.Thread thread) lock 0 }
        ensures steps { (meaning : Meaning) (now : ℕ) → CoreSteps meaning self.old
            (record {
              now = now;
              event = Does thread (Lock lock);
              answer = OfCall (Locked result);
            }) self.new }
    {
        let answer = self.locks.lock(Owner::Thread(thread), lock, 0);
        if let LockAnswer::Refused(fault) = answer {
            self.log_violation(thread, Fault::Lock(fault));
        }
        answer
    }

    /// Gives a handler-safe lock of a thread back (GASNet 1.8.1, core API, `gasnet_hsl_unlock`).
    ///
    /// `Refused` with `BadIndex` exactly where `lock` is 64 or more, then with `NotHeld` where the thread doesn't hold
    /// it, then with `OutOfOrder` where it isn't the latest of its locks (profile); these are noted as violations. Else
    /// `Freed`.
    pub fn unlock(&mut self, thread: u16, lock: u8) -> UnlockAnswer
        ensures answer { result ≡ unlock_answer self.old.locks (Owner.Thread thread) lock }
        ensures steps { (meaning : Meaning) (now : ℕ) → CoreSteps meaning self.old
            (record {
              now = now;
              event = Does thread (Unlock lock);
              answer = OfCall (Unlocked result);
            }) self.new }
    {
        let answer = self.locks.unlock(Owner::Thread(thread), lock);
        if let UnlockAnswer::Refused(fault) = answer {
            self.log_violation(thread, Fault::Lock(fault));
        }
        answer
    }

    /// Records a violation of a thread.
    fn log_violation(&mut self, thread: u16, fault: Fault)
        ensures { self.new ≡ noting self.old thread (fault ∷ []) }
    {
        self.log.log_violation(Violation {
            context: Context::Thread(thread),
            fault,
        });
    }
}

impl Core {
    /// The datagram of a slot: None exactly where the peer is no other node, the slot isn't among those of its pair, or
    /// it has no message. A request's slot has its message until it is back; a reply's slot has the reply to the last
    /// request run in it.
    pub fn message(&self, at: SlotRef) -> Option<&[u8]>
        ensures { ForItsRecord self.now (λ node.
            option_copied result ≡ message_at self.now.settings self.now.me node at) }
    {
        if at.peer >= self.settings.nodes()
            || at.peer == self.me
            || at.slot >= slots_of(&self.settings, self.me, at.side, at.peer)
        {
            return None;
        }
        match at.side {
            Side::Request => self.requests.bytes(at.peer, at.slot),
            Side::Reply => self.replies.bytes(at.peer, at.slot),
        }
    }

    /// The number of the message of a slot, from 1: None exactly where `message` is None.
    pub fn number(&self, at: SlotRef) -> Option<u64>
        ensures { ForItsRecord self.now (λ node.
            result ≡ number_in_slot self.now.settings self.now.me node at) }
    {
        if at.peer >= self.settings.nodes()
            || at.peer == self.me
            || at.slot >= slots_of(&self.settings, self.me, at.side, at.peer)
        {
            return None;
        }
        match at.side {
            Side::Request => self.requests.number(at.peer, at.slot),
            Side::Reply => self.replies.number(at.peer, at.slot),
        }
    }

    /// How many message buffers are in use: one for each request that isn't back, and one for each slot with a reply;
    /// at most the sum over the peers of the credits both ways.
    pub fn held(&self) -> usize
        ensures is { ForItsRecord self.now (λ node.
            result ≡ held_buffers self.now.settings self.now.me node) }
        ensures few { ForItsRecord self.now (λ node.
            result ≤ greatest_holding self.now.settings self.now.me) }
    {
        self.requests.held() + self.replies.held()
    }

    /// How many credits are left for requests to another node.
    pub fn free(&self, to: u16) -> u16
        requires node { to < self.now.settings.nodes }
        requires other { to ≢ self.now.me }
        ensures { ForItsRecord self.now (λ node.
            result ≡ credits_of self.now.settings self.now.me to - outstanding (node.asked to)) }
    {
        self.requests.free(to)
    }

    /// Whether all numbers of requests to another node are used up.
    pub fn exhausted(&self, to: u16) -> bool
        requires node { to < self.now.settings.nodes }
        requires other { to ≢ self.now.me }
        ensures { ForItsRecord self.now (λ node.
            result ≡ nat_le self.now.settings.last (length (node.asked to))) }
    {
        self.requests.exhausted(to)
    }

    /// The segment.
    pub fn segment(&self) -> &Segment
        ensures value { result.now ≡ self.now.segment }
        ensures record_ { ForItsRecord self.now (λ node.
            result.now ≡ segment_of self.now.settings node.local) }
    {
        &self.segment
    }

    /// The handler-safe locks.
    pub fn locks(&self) -> &Locks
        ensures value { result.now ≡ self.now.locks }
        ensures record_ { ForItsRecord self.now (λ node. result.now ≡ node.local.locks) }
    {
        &self.locks
    }

    /// The cells.
    pub fn cells(&self) -> &Cells
        ensures { ForItsRecord self.now (λ node. result.now ≡ node.local.cells) }
    {
        &self.cells
    }

    /// The log of violations.
    pub fn log(&self) -> &Log
        ensures { ForItsRecord self.now (λ node. result.now ≡ log_of node.local.violations) }
    {
        &self.log
    }
}

impl Core {
    ghost use Rattle.std.specs.Borrow.{sem, Lends};
    ghost use Rattle.part_segment.specs.Lending.{segment_row};
    ghost use Rattle.node_core.specs.Lending.{core_row, cells_row, with_cells, with_segment};

    /// The segment, to be written: the core is then as it was, with the bytes that were written. Whoever writes leaves
    /// its length, which the requests and `deliver` need.
    pub fn segment_mut(&mut self) -> &mut Segment
        ensures* writes_back { sem 𝓛 (Lends core_row segment_row self.entry result
            (with_segment self.old)) }
        ensures value { result.now ≡ self.old.segment }
    {
        &mut self.segment
    }

    /// The cells, to be written: the core is then as it was, with the cells that were written.
    pub fn cells_mut(&mut self) -> &mut Cells
        ensures* writes_back { sem 𝓛 (Lends core_row cells_row self.entry result
            (with_cells self.old)) }
        ensures value { result.now ≡ self.old.cells }
    {
        &mut self.cells
    }
}
