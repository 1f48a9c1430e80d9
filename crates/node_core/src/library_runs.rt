//! The library's own messages at a node: which are refused, what their runs do, and how they are asked for.

ghost use Rattle.std.specs.Prelude.{◌≡◌, ◌≢◌, ◌<◌, ◌≤◌, length};
ghost use Rattle.wire_message.specs.Content.{IsMessage, content_of, short_request};
ghost use Rattle.wire_message.specs.Reading.{viewed_message};
ghost use Rattle.part_segment.specs.Image.{written_by};
ghost use Rattle.part_handlers.specs.Runs.{Meaning};
ghost use Rattle.spec_node.specs.Invariant.{address_in};
ghost use Rattle.spec_node.specs.Step.{reply_slot};
ghost use Rattle.node_core.specs.Library.{WorkFits, has_library, has_wrong_args, library_reply};
ghost use Rattle.node_core.specs.Library.{library_writes, run_answer, work_content};
ghost use Rattle.node_core.specs.HandlerRuns.{reply_or_ack};
ghost use Rattle.node_core.specs.AskedFor.{work_of};
ghost use Rattle.node_core.specs.CoreStep.{Claims, DeliversMessage, IsNewRequest, KeepsAnswer};
ghost use Rattle.node_core.specs.CoreStep.{library_fault, lock_at, message_refusal};
ghost use Rattle.node_core.specs.Sizes.{HasSegment};

use crate::answer::{Asked, Delivered, SlotRef, Why};
use crate::arguments::arguments;
use crate::asking::{Asking, Category, Payload};
use crate::committing::keep_reply;
use crate::landing::land;
use crate::library::{
    GET, GET_REPLY, LibraryRequest, MEMSET, NOTE, PUT, fetch_arguments, fill_arguments, read_fetch,
    read_fill,
};
use crate::node::Core;
use wire_message::{
    Address, Kind, Settings, View, ack, args_notification, long_reply, notification_args,
};

/// Whether the library has a handler of this index for messages of this kind.
fn has_library(kind: Kind, handler: u8) -> bool
    ensures { result ≡ has_library kind handler }
{
    match kind {
        Kind::ShortRequest => handler == GET || handler == MEMSET || handler == NOTE,
        Kind::LongRequest => handler == PUT,
        Kind::LongReply => handler == GET_REPLY,
        Kind::MediumRequest | Kind::ShortReply | Kind::MediumReply | Kind::Ack => false,
    }
}

/// Whether the arguments of a message are wrong for the library's handler of its index.
fn has_wrong_args(settings: &Settings, message: &View<'_>) -> bool
    requires { length (viewed_message message.now).args ≤ 16 }
    ensures { result ≡ has_wrong_args settings.now message.now.handler
        (viewed_message message.now).args }
{
    let (args, count) = arguments(message);
    let args = &args[..count];
    if message.handler == GET {
        return read_fetch(args, settings.segment()).is_none();
    }
    if message.handler == MEMSET {
        return read_fill(args, settings.segment()).is_none();
    }
    if message.handler == NOTE {
        return args_notification(args, settings.nodes(), settings.version()).is_none();
    }
    count != 0
}

/// What is wrong with a message for which no handler of a client is registered, beside its place: the library has no
/// handler of its kind for its index; or its arguments are wrong for that handler.
pub(crate) fn library_fault(settings: &Settings, message: &View<'_>) -> Option<Why>
    requires { length (viewed_message message.now).args ≤ 16 }
    ensures { result ≡ library_fault settings.now (content_of (viewed_message message.now)) }
{
    if !has_library(message.kind, message.handler) {
        return Some(Why::Handler);
    }
    if has_wrong_args(settings, message) {
        return Some(Why::Args);
    }
    None
}

impl Core {
    /// Runs a request of the library that is new in its slot, whose reply is kept there; tells that it ran.
    pub(crate) fn run_library(&mut self, message: &View<'_>, at: SlotRef) -> Delivered
        requires segment { HasSegment self.old }
        requires new { IsNewRequest self.old (viewed_message message.now) }
        requires free { lock_at self.old (viewed_message message.now) ≡ None }
        requires library { message.now.handler ≤ 127 }
        requires at { at ≡ reply_slot message.now.from message.now.slot }
        ensures { (meaning : Meaning) → DeliversMessage meaning self.old
            (viewed_message message.now) result self.new }
    {
        land(&mut self.segment, message);
        self.write_library(message);
        self.answer_library(message);
        self.told(message, at)
    }

    /// Writes what a request of the library writes beside its payload: a memset's range.
    #[tactic(auto, unfolding(crate::specs::CoreStep::message_refusal))]
    fn write_library(&mut self, message: &View<'_>)
        requires segment { HasSegment self.old }
        requires message { IsMessage (viewed_message message.now) }
        requires ours { message_refusal self.old (viewed_message message.now) ≡ None }
        requires library { message.now.handler ≤ 127 }
        ensures { self.new ≡ record self.old {
          segment = written_by self.old.segment
              (library_writes (content_of (viewed_message message.now)));
        } }
    {
        if message.handler != MEMSET {
            return;
        }
        let (args, count) = arguments(message);
        let Some(fill) = read_fill(&args[..count], self.settings.segment()) else {
            unreachable!();
        };
        if self.segment.fill(fill.remote, fill.len, fill.byte).is_err() {
            unreachable!();
        }
    }

    /// Where the reply to a request of another node goes.
    fn reply_way(&self, message: &View<'_>) -> Address
        ensures { result ≡ address_in self.now.settings self.now.me message.now.from
            message.now.slot message.now.number }
    {
        Address {
            version: self.settings.version(),
            job: self.settings.job(),
            from: self.me,
            to: message.from,
            slot: message.slot,
            number: message.number,
        }
    }

    /// Keeps the reply to a request of the library that is new in its slot: to a get the bytes that it asks for,
    /// written into the slot straight out of the segment, to all others an Ack.
    #[tactic(auto, unfolding(crate::specs::CoreStep::message_refusal))]
    fn answer_library(&mut self, message: &View<'_>)
        requires segment { HasSegment self.old }
        requires new { IsNewRequest self.old (viewed_message message.now) }
        requires library { message.now.handler ≤ 127 }
        ensures { let content = content_of (viewed_message message.now) in
            KeepsAnswer self.old (viewed_message message.now)
            (reply_or_ack (library_reply self.old.segment content)) self.new }
    {
        let way = self.reply_way(message);
        if message.handler != GET {
            keep_reply(&mut self.replies, &ack(way));
            return;
        }
        let (args, count) = arguments(message);
        let Some(fetch) = read_fetch(&args[..count], self.settings.segment()) else {
            unreachable!();
        };
        let Some(bytes) = self.segment.part(fetch.remote, fetch.len) else {
            unreachable!();
        };
        let reply = long_reply(way, GET_REPLY, &[], fetch.local, bytes);
        keep_reply(&mut self.replies, &reply);
    }

    /// How the run of a request of the library is told.
    #[tactic(auto, unfolding(crate::specs::CoreStep::message_refusal))]
    pub(crate) fn told(&self, message: &View<'_>, at: SlotRef) -> Delivered
        requires message { IsMessage (viewed_message message.now) }
        requires ours { message_refusal self.now (viewed_message message.now) ≡ None }
        requires library { message.now.handler ≤ 127 }
        ensures { result ≡ run_answer self.now.settings.version
            (content_of (viewed_message message.now)) at }
    {
        if message.handler != NOTE {
            return Delivered::Ran(at);
        }
        let (args, count) = arguments(message);
        let (nodes, version) = (self.settings.nodes(), self.settings.version());
        let Some(notification) = args_notification(&args[..count], nodes, version) else {
            unreachable!();
        };
        Delivered::Notified(at, notification)
    }

    /// A request of the library to another node.
    pub(crate) fn claim_work(&mut self, now: u64, to: u16, work: &LibraryRequest) -> Asked
        requires node { to < self.old.settings.nodes }
        requires other { to ≢ self.old.me }
        requires segment { HasSegment self.old }
        requires fits { WorkFits self.old.settings (work_of work.now) }
        ensures { Claims self.old
            (record {
              now = now;
              event = record {
                to = to;
                content = work_content self.old.settings.version self.old.segment
                    (work_of work.now);
              };
              answer = result;
            })
            self.new }
    {
        match *work {
            LibraryRequest::Put { local, remote, len } => {
                let put = Asking {
                    thread: 0,
                    to,
                    category: Category::Long,
                    handler: PUT,
                    args: &[],
                    payload: Payload::Own { offset: local, len },
                    offset: remote,
                };
                self.claim_own(now, &put, local, len)
            }
            LibraryRequest::Get { local, remote, len } => {
                self.claim_short(now, to, GET, &fetch_arguments(local, remote, len))
            }
            LibraryRequest::Memset { remote, len, byte } => {
                self.claim_short(now, to, MEMSET, &fill_arguments(remote, len, byte))
            }
            LibraryRequest::Notification(notification) => {
                let mut args = [0; 12];
                let count = notification_args(&notification, self.settings.version(), &mut args);
                self.claim_short(now, to, NOTE, &args[..count])
            }
        }
    }

    /// A Short request of the library to another node.
    fn claim_short(&mut self, now: u64, to: u16, handler: u8, args: &[i32]) -> Asked
        requires node { to < self.old.settings.nodes }
        requires other { to ≢ self.old.me }
        requires handler { 1 ≤ handler }
        requires count { length args.now ≤ 16 }
        ensures { Claims self.old
            (record {
              now = now;
              event = record { to = to; content = short_request handler args.now };
              answer = result;
            })
            self.new }
    {
        let short = Asking {
            thread: 0,
            to,
            category: Category::Short,
            handler,
            args,
            payload: Payload::Lent(&[]),
            offset: 0,
        };
        self.claim_lent(now, &short, &[])
    }
}
