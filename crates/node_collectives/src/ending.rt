//! The end of a collective.

ghost use Rattle.std.specs.Prelude.{◌≡◌, ◌<◌, ◌+◌, ◌*◌, IfNone, length};
ghost use Rattle.node_endpoint.specs.Sites.{IsThere};
ghost use Rattle.part_collective_area.specs.Results.{result_len};
ghost use Rattle.node_collectives.specs.Progress.{end_refusal, is_bad_dest};
ghost use Rattle.node_collectives.specs.CollectivesState.{IsSameNode, Stands, progress_of};
ghost use Rattle.node_collectives.specs.Ends.{Ends, HasPiece, MayEnd, Polls, Tries, WritesPiece, WritesResult};
ghost use Rattle.node_collectives.specs.Ends.{end_told, ended_then};

use crate::answers::{Argument, EndAnswer};
use crate::calling::call_one;
use crate::collectives::Collectives;
use crate::starting::is_past;
use node_endpoint::Caller;
use node_rules::{Answer, Call};
use part_collective_area::CollectiveKind;
use part_segment::Segment;

impl Collectives {
    /// Tries to end the phase that is open, and writes the local result at `dest` where it ends with one shape.
    ///
    /// It is ready where it has sent to all others and has heard from all. The answer is the first of these that
    /// applies.
    /// - `NotStarted`: no phase is open; nothing changed.
    /// - `BadArg(Destination)`: the result's range at `dest` passes the end of the segment, or shares a byte with the
    ///   area, or for a reduction's result isn't at a multiple of 8; nothing changed.
    /// - `Forbidden`: so the poll is answered that it makes.
    /// - `Mismatch(k)`, where ready: `k` is the first node whose shape isn't the local one. The phase ends, and nothing
    ///   is written.
    /// - `Ended`, where ready: the phase ends, and the result is written.
    /// - `Exhausted(k)`: `k` is the first node not sent to whose request was answered so last in this phase.
    /// - `NotReady`: else.
    ///
    /// `NoMemory` never comes where the caller stands for records of a run. The caller is at this node of a job with
    /// these settings, and the thread is one of its.
    pub fn try_end<K: Caller>(&mut self, caller: &mut K, thread: u16, dest: u64) -> EndAnswer
        requires settings { self.old.settings ≡ (K.site caller.old).settings }
        requires me { self.old.me ≡ (K.site caller.old).node }
        requires thread { thread < (K.site caller.old).settings.threads }
        ensures ends { Ends K.Caller self.old caller.old (record { thread = thread; dest = dest }) result
            self.new caller.new }
        ensures same_reference { K.lent caller.new ≡ K.lent caller.old }
        ensures same_site { K.site caller.new ≡ K.site caller.old }
        ensures same_node { IsSameNode self.old self.new }
        ensures stands { Stands self.old }
    {
        match self.end_refusal(dest) {
            Some(refusal) => refusal,
            None => {
                let answer = self.finish(caller, thread, dest);
                self.end(&answer);
                answer
            }
        }
    }

    /// Polls, and writes the result where the phase may end with one.
    fn finish<K: Caller>(&self, caller: &mut K, thread: u16, dest: u64) -> EndAnswer
        requires settings { self.now.settings ≡ (K.site caller.old).settings }
        requires there { IsThere (K.site caller.old) }
        requires thread { thread < (K.site caller.old).settings.threads }
        requires may { MayEnd self.now dest }
        ensures { Tries K.Caller self.now caller.old (record { thread = thread; dest = dest }) result
            (ended_then result self.now) caller.new }
    {
        match self.poll(caller, thread) {
            EndAnswer::Ended => {
                if self.write_result(caller, thread, dest) {
                    EndAnswer::Ended
                } else {
                    EndAnswer::NoMemory
                }
            }
            other => other,
        }
    }

    /// Ends the phase that is open, where the try is answered `Ended` or `Mismatch`.
    fn end(&mut self, answer: &EndAnswer)
        requires { self.old.ended < self.old.started }
        ensures { self.new ≡ ended_then answer.now self.old }
    {
        if let EndAnswer::Ended | EndAnswer::Mismatch(_) = answer {
            self.ended += 1;
        }
    }

    /// How many bytes the local result has.
    fn result_len(&self) -> u64
        ensures { result ≡ result_len self.now.shape self.now.area.nodes self.now.me }
    {
        match self.shape.kind {
            CollectiveKind::AllGather => u64::from(self.settings.nodes()) * self.shape.len,
            CollectiveKind::Gather if self.me == self.shape.root => {
                u64::from(self.settings.nodes()) * self.shape.len
            }
            _ if self.shape.has_result(self.me) => self.shape.len,
            _ => 0,
        }
    }

    /// Whether the place of the result is bad.
    fn is_bad_dest(&self, dest: u64) -> bool
        ensures { result ≡ is_bad_dest self.now.area self.now.settings.segment self.now.me
            self.now.shape dest }
    {
        let len = self.result_len();
        if is_past(dest, len, self.settings.segment()) {
            return true;
        }
        let size = 2 * u64::from(self.settings.nodes()) * (16 + self.room);
        if len > 0 && self.base < dest + len && dest < self.base + size {
            return true;
        }
        self.shape.kind.is_reduction() && self.shape.has_result(self.me) && dest % 8 != 0
    }

    /// The first refusal of a try that comes before any call.
    fn end_refusal(&self, dest: u64) -> Option<EndAnswer>
        ensures refusal { result ≡ end_refusal self.now.area self.now.settings.segment self.now.me
            (progress_of self.now) dest }
        ensures passes { IfNone result (MayEnd self.now dest) }
        ensures stands { Stands self.now }
    {
        if self.ended >= self.started {
            return Some(EndAnswer::NotStarted);
        }
        if self.is_bad_dest(dest) {
            return Some(EndAnswer::BadArg(Argument::Destination));
        }
        None
    }

    /// Polls, and looks whether the phase may end.
    fn poll<K: Caller>(&self, caller: &mut K, thread: u16) -> EndAnswer
        requires settings { self.now.settings ≡ (K.site caller.old).settings }
        requires there { IsThere (K.site caller.old) }
        requires thread { thread < (K.site caller.old).settings.threads }
        requires opened { self.now.ended < self.now.started }
        ensures { Polls K.Caller self.now caller.old thread result caller.new }
    {
        match call_one(caller, thread, &Call::Poll) {
            Some(answer) => self.told(&answer, caller.segment()),
            None => EndAnswer::NoMemory,
        }
    }

    /// How the try is answered whose poll was answered so, where the segment is as long as the settings say.
    fn told(&self, answer: &Answer, segment: &Segment) -> EndAnswer
        requires { self.now.ended < self.now.started }
        ensures { length segment.now ≡ self.now.settings.segment
            → result ≡ end_told self.now segment.now answer.now }
    {
        match answer {
            Answer::Forbidden(forbidden) => EndAnswer::Forbidden(*forbidden),
            _ => match self.bytes(segment) {
                Some(bytes) => self.end_answer(bytes),
                None => EndAnswer::NoMemory,
            },
        }
    }

    /// Writes the result, piece by piece. False where memory ran out.
    fn write_result<K: Caller>(&self, caller: &mut K, thread: u16, dest: u64) -> bool
        requires settings { self.now.settings ≡ (K.site caller.old).settings }
        requires there { IsThere (K.site caller.old) }
        requires thread { thread < (K.site caller.old).settings.threads }
        requires good { MayEnd self.now dest }
        ensures { WritesResult K.Caller self.now caller.old (record { thread = thread; dest = dest })
            result caller.new }
    {
        for index in 0..self.pieces() {
            let offset = self.piece_offset(dest, index);
            if !self.write_piece(caller, thread, index, offset) {
                return false;
            }
        }
        true
    }

    /// Where a piece of the result is written.
    fn piece_offset(&self, dest: u64, index: u16) -> u64
        requires good { MayEnd self.now dest }
        ensures { result ≡ dest + index * self.now.shape.len }
    {
        dest + u64::from(index) * self.shape.len
    }

    /// Writes a piece of the result at an offset. False where memory ran out.
    fn write_piece<K: Caller>(&self, caller: &mut K, thread: u16, index: u16, offset: u64) -> bool
        requires settings { self.now.settings ≡ (K.site caller.old).settings }
        requires there { IsThere (K.site caller.old) }
        requires thread { thread < (K.site caller.old).settings.threads }
        requires index { HasPiece self.now index }
        ensures { WritesPiece K.Caller self.now caller.old thread index offset result caller.new }
    {
        match self.piece(caller.segment(), index) {
            Some(piece) => {
                let call = Call::Set {
                    offset,
                    bytes: &piece[..self.data_len()],
                };
                call_one(caller, thread, &call).is_some()
            }
            None => false,
        }
    }
}
