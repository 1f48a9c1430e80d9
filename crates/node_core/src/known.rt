//! What a core tells of a call, a message or a tick before it comes.

ghost use Rattle.std.specs.Prelude.{◌≡◌, false};
ghost use Rattle.node_core.specs.AskedFor.{ask_of};
ghost use Rattle.node_core.specs.Sizes.{HasSegment};
ghost use Rattle.node_core.specs.Known.{CanAsk, CanAskNone, IsDue, IsExhausted, IsLastRun, IsNextDue, WouldAccept};

use crate::answer::Side;
use crate::asking::Asking;
use crate::node::Core;
use crate::slots::slots_of;
use part_handlers::{CallKind, Context, allowed};
use part_window::Judged;

impl Core {
    /// Whether a request of this number is the last one that ran in a slot of the node `from`: false where that is no
    /// other node, or its pair has no such slot. It changes nothing.
    pub fn is_last_run(&self, from: u16, slot: u16, number: u64) -> bool
        ensures { IsLastRun self.now from slot number result }
    {
        if from >= self.settings.nodes() || from == self.me {
            return false;
        }
        if slot >= slots_of(&self.settings, self.me, Side::Reply, from) {
            return false;
        }
        match self.replies.judge(from, slot, number) {
            Judged::Duplicate => true,
            Judged::New => false,
            Judged::Stale => false,
        }
    }

    /// Whether a request of a thread would be accepted. It changes nothing.
    pub fn would_accept(&self, asking: &Asking<'_>) -> bool
        requires { HasSegment self.now }
        ensures { WouldAccept self.now (ask_of asking.now) result }
    {
        if let Err(_) = allowed(
            Context::Thread(asking.thread),
            &self.locks,
            false,
            CallKind::Request,
        ) {
            return false;
        }
        if let Some(_) = self.bad_argument(asking) {
            return false;
        }
        if asking.to == self.me || self.exhausted(asking.to) {
            return false;
        }
        self.free(asking.to) > 0
    }

    /// Whether a request of the library to this node would be accepted: it is another node, a number of the pair is
    /// left, and a credit is free. It changes nothing.
    pub fn can_ask(&self, to: u16) -> bool
        ensures { CanAsk self.now to result }
    {
        if to >= self.settings.nodes() || to == self.me {
            return false;
        }
        !self.exhausted(to) && self.free(to) > 0
    }

    /// Whether `can_ask` may be true of some node: where this is false, it is false of each. It looks at the nodes up to
    /// the first that can be asked, and changes nothing.
    pub fn can_ask_any(&self) -> bool
        ensures { result ≡ false → CanAskNone self.now }
    {
        for to in 0..self.settings.nodes() {
            if self.can_ask(to) {
                return true;
            }
        }
        false
    }

    /// Whether this is another node, and no number is left for requests to it. It changes nothing.
    pub fn is_exhausted(&self, to: u16) -> bool
        ensures { IsExhausted self.now to result }
    {
        if to >= self.settings.nodes() || to == self.me {
            return false;
        }
        self.exhausted(to)
    }

    /// Whether a tick at `now` sends a request again, a look at one entry. It changes nothing.
    pub fn is_due(&self, now: u64) -> bool
        ensures { IsDue self.now now result }
    {
        self.requests.is_due(now, self.settings.resend())
    }

    /// From which time on a tick sends a request again, as long as nothing happens to the node: at each time a tick does
    /// so exactly where this time has come. `None` exactly where it does so at no time. A look at one entry, which
    /// changes nothing.
    pub fn next_due(&self) -> Option<u64>
        ensures { IsNextDue self.now result }
    {
        self.requests.next_due(self.settings.resend())
    }
}
