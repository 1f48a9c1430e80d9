//! What the runs of handlers touch.

ghost use Rattle.std.specs.Prelude.{◌≡◌, ◌≢◌, ◌<◌, ◌≤◌, None, length};
ghost use Rattle.part_window.specs.RepliesState.{JudgesAt, slot_count};
ghost use Rattle.part_handlers.specs.declared.rules.Role.TheVariants as role;
ghost use Rattle.part_handlers.specs.Tokens.{arrival_of};
ghost use Rattle.node_core.specs.HandlerContextRuns.{CanRun, CanAnswer, Ran, LeavesReply, KeepsReply};
ghost use Rattle.node_core.specs.HandlerContextRuns.{context_run, run_of, own_frame, own_reply_run};
ghost use Rattle.node_core.specs.HandlerContextRuns.{CanRunOwnReply, IsSameHandlerContext, LeavesTouched, RunsOwn};
ghost use Rattle.node_core.specs.HandlerContextRuns.{landed_on, handler_state};
ghost use Rattle.node_core.specs.Landed.{content_at};
ghost use Rattle.node_core.specs.HandlerRuns.{listed_for};
ghost use Rattle.part_handlers.specs.Locks.{blocking_lock};
ghost use Rattle.part_handlers.specs.Registered.{reply_locks};
ghost use Rattle.part_handlers.specs.Runs.{IsReady, AreFree, IsPlaced};

use crate::landing::land_reply;
use crate::own::place_replied;
use part_handlers::{Cells, Handlers, Incoming, Locks, Log, Reply, Role, Table, Token};
use part_segment::Segment;
use part_window::{Judged, ReplySlots};
use wire_message::{Address, Settings, ack, spell};

/// What the run of a handler touches of a node: what it writes, and what it reads beside its message.
#[derive(Drop)]
pub struct HandlerContext<'a> {
    /// The node's cells.
    pub cells: &'a mut Cells,
    /// Its segment.
    pub segment: &'a mut Segment,
    /// Its handler-safe locks.
    pub locks: &'a mut Locks,
    /// The log of violations.
    pub log: &'a mut Log,
    /// The job's settings.
    pub settings: &'a Settings,
    /// The handlers that are registered.
    pub table: &'a Table,
    /// The locks that the handler may take: bit k for lock k.
    pub listed: u64,
}

/// What a handler runs for, and what stays the same while it runs.
#[derive(Clone, Copy)]
struct Work<'a> {
    handler: u8,
    settings: &'a Settings,
    table: &'a Table,
    listed: u64,
    message: Incoming<'a>,
}

/// Runs a handler with a token over the buffer; its reply, where it sent one.
fn run_with_token<H: Handlers>(
    handlers: &H,
    work: &Work<'_>,
    segment: &mut Segment,
    cells: &mut Cells,
    locks: &mut Locks,
    log: &mut Log,
    buffer: &mut [u8],
) -> Option<Reply>
    requires ready { IsReady (arrival_of work.now.message) buffer.old }
    requires free { AreFree work.now.listed locks.old }
    requires sized { length segment.old ≡ work.now.settings.now.segment }
    requires placed { IsPlaced (length segment.old) work.now.message.place }
    ensures { Ran (run_of (H.meaning handlers.now) work.now (record {
      cells = cells.old;
      segment = segment.old;
      locks = locks.old;
      log = log.old;
    })) (record {
      cells = cells.new;
      segment = segment.new;
      locks = locks.new;
      log = log.new;
    }) buffer.old buffer.new result }
{
    let mut token = Token::new(
        work.settings,
        work.table,
        locks,
        log,
        work.listed,
        work.message,
        buffer,
    );
    handlers.run(work.handler, segment, cells, &mut token);
    token.close()
}

/// The reply of an own request, and what stays the same while its handler runs.
#[derive(Clone, Copy)]
struct OwnReply<'a> {
    me: u16,
    reply: Reply,
    settings: &'a Settings,
    table: &'a Table,
}

impl<'a> HandlerContext<'a> {
    /// Runs the handler of this index for a message, with a token over the buffer; its reply, where it sent one.
    pub fn run<H: Handlers>(
        &mut self,
        handlers: &H,
        handler: u8,
        message: Incoming<'_>,
        buffer: &mut [u8],
    ) -> Option<Reply>
        requires { CanRun self.old (arrival_of message) buffer.old }
        ensures same { IsSameHandlerContext self.old self.new }
        ensures ran { let run =
            context_run (H.meaning handlers.now) handler self.old (arrival_of message.entry) in
            Ran run (handler_state self.new) buffer.old buffer.new result }
    {
        let work = Work {
            handler,
            settings: self.settings,
            table: self.table,
            listed: self.listed,
            message,
        };
        run_with_token(
            handlers,
            &work,
            self.segment,
            self.cells,
            self.locks,
            self.log,
            buffer,
        )
    }

    /// Runs the handler of a request of the local node, and then that of its reply, where it sent one.
    pub fn run_own<H: Handlers>(
        &mut self,
        handlers: &H,
        handler: u8,
        request: Incoming<'_>,
        buffer: &mut [u8],
    )
        requires ready { CanRun self.old (arrival_of request) buffer.old }
        requires own { request.source ≡ request.me }
        requires role { request.role ≡ role.Request }
        requires replies { blocking_lock self.old.locks.now (reply_locks self.old.table.now) ≡ None }
        ensures same { IsSameHandlerContext self.old self.new }
        ensures ran { let run =
            context_run (H.meaning handlers.now) handler self.old (arrival_of request.entry) in
            RunsOwn (H.meaning handlers.now) run (handler_state self.new) }
    {
        let me = request.me;
        if let Some(reply) = self.run(handlers, handler, request, buffer) {
            let own = OwnReply {
                me,
                reply,
                settings: self.settings,
                table: self.table,
            };
            self.run_own_reply(handlers, &own, buffer);
        }
    }

    /// Runs the handler of the reply of an own request, whose payload stands at the beginning of the buffer.
    fn run_own_reply<'b, H: Handlers>(&mut self, handlers: &H, own: &OwnReply<'b>, buffer: &'b [u8])
        requires { CanRunOwnReply own.now self.old.segment.now self.old.locks.now buffer.now }
        ensures same { IsSameHandlerContext self.old self.new }
        ensures ran { let content = content_at buffer.now own.now.reply in
            LeavesTouched (own_reply_run (H.meaning handlers.now) (own_frame own.now) content
            (landed_on (handler_state self.old) content)) (handler_state self.new) }
    {
        let reply = own.reply;
        let shown = land_reply(self.segment, buffer, &reply);
        let work = Work {
            handler: reply.handler,
            settings: own.settings,
            table: own.table,
            listed: listed_for(own.table, reply.handler),
            message: Incoming {
                role: Role::Reply,
                me: own.me,
                source: own.me,
                slot: 0,
                number: 0,
                args: &reply.args[..reply.count as usize],
                payload: &buffer[..shown],
                place: place_replied(&reply),
            },
        };
        let _ = run_with_token(
            handlers,
            &work,
            self.segment,
            self.cells,
            self.locks,
            self.log,
            &mut [],
        );
    }

    /// Runs the handler of a request of another node that is new in its slot, and keeps its reply there, or an Ack
    /// where it sent none.
    pub fn answer<H: Handlers>(
        &mut self,
        handlers: &H,
        handler: u8,
        message: Incoming<'_>,
        replies: &mut ReplySlots,
    )
        requires ready { CanAnswer self.old (arrival_of message) }
        requires slot { message.slot < slot_count replies.old message.source }
        requires new { JudgesAt replies.old message.source message.slot message.number Judged.New }
        ensures same { IsSameHandlerContext self.old self.new }
        ensures kept { let run =
            context_run (H.meaning handlers.now) handler self.old (arrival_of message.entry) in
            KeepsReply run (handler_state self.new) replies.old replies.new }
    {
        let mut place = replies.place(message.source, message.slot, message.number);
        let buffer = place.buffer();
        let len = self.answer_into(handlers, handler, message, buffer);
        place.commit(len);
    }

    /// Runs the handler of a request of another node with a token over the buffer, and leaves the datagram of its reply
    /// at the beginning of the buffer, or that of an Ack where it sent none; tells the datagram's length.
    fn answer_into<H: Handlers>(
        &mut self,
        handlers: &H,
        handler: u8,
        message: Incoming<'_>,
        buffer: &mut [u8],
    ) -> usize
        requires ready { CanRun self.old (arrival_of message) buffer.old }
        requires request { message.role ≡ role.Request }
        requires other { message.me ≢ message.source }
        ensures same { IsSameHandlerContext self.old self.new }
        ensures left { let run =
            context_run (H.meaning handlers.now) handler self.old (arrival_of message.entry) in
            LeavesReply run (handler_state self.new) buffer.old buffer.new result }
    {
        let address = Address {
            version: self.settings.version(),
            job: self.settings.job(),
            from: message.me,
            to: message.source,
            slot: message.slot,
            number: message.number,
        };
        match self.run(handlers, handler, message, buffer) {
            Some(reply) => reply.len,
            None => spell(&ack(address), buffer),
        }
    }
}

/// The locks that the handler of this index may take, bit k for lock k.
pub fn listed_for(table: &Table, handler: u8) -> u64
    ensures { result ≡ listed_for table.now handler }
{
    match table.entry(handler) {
        Some(entry) => entry.locks,
        None => 0,
    }
}
