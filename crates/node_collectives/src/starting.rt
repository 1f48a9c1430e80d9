//! The start of a collective.

ghost use Rattle.std.specs.Prelude.{◌≡◌, ◌<◌, ◌+◌, ◌%◌, ◌^◌, ◌-◌, ◌==◌, ◌&&◌, ◌||◌, nat_le, nat_lt, not};
ghost use Rattle.part_collective_area.specs.Served.{header_arguments};
ghost use Rattle.part_collective_area.specs.Shapes.{has_root, is_reduction};
ghost use Rattle.node_endpoint.specs.Sites.{IsThere};
ghost use Rattle.node_collectives.specs.Progress.{start_refusal};
ghost use Rattle.node_collectives.specs.CollectivesState.{IsSameNode, IsWithin, Stands, progress_of};
ghost use Rattle.node_collectives.specs.Starts.{CallsOne, Starts, start_call, start_told, started_then};

use crate::answers::{Argument, StartAnswer};
use crate::calling::call_one;
use crate::collectives::{Collectives, no_nodes};
use node_core::{Asked, Payload};
use node_endpoint::Caller;
use node_rules::{Answer, Call};
use part_collective_area::Shape;
use wire_message::{high_half, low_half};

/// The index of the handler of collectives.
pub(crate) const HANDLER: u8 = 254;

/// The arguments that bring a stamp and the word of a shape.
pub(crate) fn header(stamp: u64, word: u64) -> [i32; 4]
    ensures { result ≡ header_arguments stamp word }
{
    [
        high_half(stamp),
        low_half(stamp),
        high_half(word),
        low_half(word),
    ]
}

/// How a start is answered whose call was answered so, if memory didn't run out.
fn start_told(answer: &Option<Answer>) -> StartAnswer
    ensures { result ≡ start_told answer.now }
{
    match answer {
        None => StartAnswer::NoMemory,
        Some(Answer::Forbidden(forbidden)) => StartAnswer::Forbidden(*forbidden),
        Some(Answer::Asked(Asked::LockBusy(lock))) => StartAnswer::LockBusy(*lock),
        Some(_) => StartAnswer::Started,
    }
}

/// Whether the root isn't one of so many nodes, or isn't 0 for a kind without a root.
fn is_bad_root(shape: Shape, nodes: u16) -> bool
    ensures { result ≡ (nat_le nodes shape.root
        || (not (has_root shape.kind) && not (shape.root == 0))) }
{
    shape.root >= nodes || (!shape.kind.has_root() && shape.root != 0)
}

/// Whether the length is above so much room, or isn't a multiple of 8 for a reduction.
fn is_bad_len(shape: Shape, room: u64) -> bool
    ensures { result ≡ (nat_lt room shape.len
        || (is_reduction shape.kind && not (shape.len % 8 == 0))) }
{
    shape.len > room || (shape.kind.is_reduction() && shape.len % 8 != 0)
}

/// Whether so many bytes from an offset on pass the end of a segment of so many bytes.
pub(crate) fn is_past(offset: u64, len: u64, segment: u64) -> bool
    ensures { result ≡ nat_lt segment (offset + len) }
{
    len > segment || offset > segment - len
}

impl Collectives {
    /// Starts the next phase with the bytes at `from`: brings them to the local part, by a Long request to the local
    /// node.
    ///
    /// The answer is the first of these that applies. Of those before `Forbidden` no call was made, and nothing
    /// changed; of the others but `Started` nothing is started.
    /// - `Busy`: the phase before isn't ended.
    /// - `BadArg(Root)`: the root isn't a node, or it isn't 0 for a kind without a root.
    /// - `BadArg(Length)`: the length is above the room of a part, or for a reduction isn't a multiple of 8.
    /// - `BadArg(Source)`: the bytes pass the end of the segment.
    /// - `Exhausted`: 2^64 - 1 phases were started.
    /// - `Forbidden`, `LockBusy`, `NoMemory`: so it is of the request.
    /// - `Started`: else.
    ///
    /// The caller is at this node of a job with these settings, and the thread is one of its.
    pub fn start<K: Caller>(
        &mut self,
        caller: &mut K,
        thread: u16,
        shape: Shape,
        from: u64,
    ) -> StartAnswer
        requires settings { self.old.settings ≡ (K.site caller.old).settings }
        requires me { self.old.me ≡ (K.site caller.old).node }
        requires thread { thread < (K.site caller.old).settings.threads }
        ensures starts { Starts K.Caller self.old caller.old (record {
          thread = thread;
          shape = shape;
          from = from;
        }) result self.new caller.new }
        ensures same_reference { K.lent caller.new ≡ K.lent caller.old }
        ensures same_site { K.site caller.new ≡ K.site caller.old }
        ensures same_node { IsSameNode self.old self.new }
        ensures stands { Stands self.old }
    {
        match self.start_refusal(shape, from) {
            Some(refusal) => refusal,
            None => {
                let answer = start_told(&self.put_part(caller, thread, shape, from));
                self.begin(&answer, shape);
                answer
            }
        }
    }

    /// Begins the next phase, where its start is answered `Started`.
    fn begin(&mut self, answer: &StartAnswer, shape: Shape)
        requires shut { self.old.started ≡ self.old.ended }
        requires shape { IsWithin self.old.area shape }
        requires left { self.old.started < 2 ^ 64 - 1 }
        ensures { self.new ≡ started_then answer.now self.old shape }
    {
        if let StartAnswer::Started = answer {
            self.started += 1;
            self.shape = shape;
            self.sent = no_nodes();
            self.exhausted = no_nodes();
        }
    }

    /// The first refusal of a start that comes before any call.
    fn start_refusal(&self, shape: Shape, from: u64) -> Option<StartAnswer>
        ensures refusal { result ≡
            start_refusal self.now.area self.now.settings.segment (progress_of self.now) shape from }
        ensures stands { Stands self.now }
    {
        if self.ended < self.started {
            return Some(StartAnswer::Busy);
        }
        if is_bad_root(shape, self.settings.nodes()) {
            return Some(StartAnswer::BadArg(Argument::Root));
        }
        if is_bad_len(shape, self.room) {
            return Some(StartAnswer::BadArg(Argument::Length));
        }
        if is_past(from, shape.len, self.settings.segment()) {
            return Some(StartAnswer::BadArg(Argument::Source));
        }
        if self.started == u64::MAX {
            return Some(StartAnswer::Exhausted);
        }
        None
    }

    /// The request of a start, to the local node.
    fn put_part<K: Caller>(
        &self,
        caller: &mut K,
        thread: u16,
        shape: Shape,
        from: u64,
    ) -> Option<Answer>
        requires there { IsThere (K.site caller.old) }
        requires thread { thread < (K.site caller.old).settings.threads }
        requires left { self.now.started < 2 ^ 64 - 1 }
        requires short { shape.len < 2 ^ 32 }
        ensures { CallsOne K.Caller caller.old (start_call self.now (record {
          thread = thread;
          shape = shape;
          from = from;
        })) result caller.new }
    {
        let stamp = self.started + 1;
        let word = shape.word();
        let args = header(stamp, word);
        let call = Call::Long {
            to: self.me,
            handler: HANDLER,
            args: &args,
            payload: Payload::Own {
                offset: from,
                len: shape.len,
            },
            offset: self.part(self.started % 2, self.me) + 16,
        };
        call_one(caller, thread, &call)
    }
}
