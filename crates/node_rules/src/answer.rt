//! The answers of an endpoint.

ghost use Rattle.std.specs.Prelude.{◌≡◌};
ghost use Rattle.node_rules.specs.EndpointRules.{asked_answer};
ghost use Rattle.node_rules.specs.Sends.{sends};

use node_core::{Asked, Delivered, SlotRef};
use part_barrier::{BarrierAnswer, Notified};
use part_handlers::{Forbidden, LockAnswer, UnlockAnswer, Which};
use part_transfers::{Handle, Synced};
pub use spec_node::Ticked;

/// What a call on the node's own cells or segment is answered.
#[derive(Clone, Copy, Debug)]
pub enum Local {
    /// It is done.
    Done,
    /// The range passes the end of the segment; nothing changed.
    Outside,
    /// The offset of a number is no multiple of 8; nothing changed.
    Unaligned,
    /// The range lies inside the segment: its bytes are read there.
    Shown {
        /// Its first byte.
        offset: u64,
        /// How many bytes it has.
        len: u64,
    },
    /// The number of 8 bytes.
    Number(u64),
    /// The number in the cell.
    Cell(i32),
}

/// What the beginning of a transfer is answered.
#[derive(Clone, Copy, Debug)]
pub enum Begun {
    /// It is under way, under this handle.
    Handle(Handle),
    /// It has no bytes, or its target is the local node: it was done in the call.
    Done,
    /// A part of it is bad, the first that is: `Node`, `Source` (its range of the local segment) or
    /// `Offset` (its range of the target's). Nothing happened.
    BadArg(Which),
    /// 256 operations stand, or the last number was given. Nothing happened.
    TooMany,
}

/// What a call on access regions is answered, and an implicit synchronisation inside a region.
#[derive(Clone, Copy, Debug)]
pub enum Region {
    /// The thread has begun a region.
    Begun,
    /// The thread has ended a region that no operation joined.
    Done,
    /// The thread has ended a region, which has this handle.
    Handle(Handle),
    /// The thread had begun a region already; nothing happened.
    Nested,
    /// The thread has begun no region; nothing happened.
    NoRegion,
    /// The thread has begun a region, so its implicit operations can't be synchronised (profile).
    InRegion,
}

/// What an event of an endpoint is answered.
#[derive(Clone, Copy)]
pub enum Answer {
    /// To a request.
    Asked(Asked),
    /// To a poll.
    Polled,
    /// To an attempt that the rule table allows.
    Allowed,
    /// To any call that the rule table forbids; a violation was noted, and nothing else happened.
    Forbidden(Forbidden),
    /// To taking a lock; where it is refused, a violation was noted.
    Lock(LockAnswer),
    /// To giving a lock back; where it is refused, a violation was noted.
    Unlock(UnlockAnswer),
    /// To the beginning of a transfer with a handle of its own.
    Begun(Begun),
    /// To the beginning of an implicit transfer.
    Started(Begun),
    /// To the question whether all chunks were issued; None where no operation and no region has
    /// the handle.
    Issued(Option<bool>),
    /// To a synchronisation.
    Synced(Synced),
    /// To a call on access regions.
    Region(Region),
    /// To a notify of the barrier.
    Notified(Notified),
    /// To a try of the barrier.
    Barrier(BarrierAnswer),
    /// To a call on the node's own cells or segment.
    Local(Local),
    /// To bytes that were delivered.
    Delivered(Delivered),
    /// To a tick.
    Ticked(Ticked),
}

impl Answer {
    /// The answer to a request.
    pub fn of_request(asked: Asked) -> Answer
        ensures { result ≡ asked_answer asked }
    {
        match asked {
            Asked::Forbidden(forbidden) => Answer::Forbidden(forbidden),
            _ => Answer::Asked(asked),
        }
    }

    /// The slot of the node whose message the event sends: a request's where one was accepted, is
    /// sent again, or is sent by a tick; a reply's where a request ran or came again. None where
    /// the event sends nothing.
    pub fn sends(&self) -> Option<SlotRef>
        ensures { result ≡ sends self.now }
    {
        match self {
            Answer::Asked(Asked::Accepted { to, slot, .. }) => {
                Some(SlotRef::of_request(*to, *slot))
            }
            Answer::Delivered(
                Delivered::Ran(at) | Delivered::Notified(at, _) | Delivered::Duplicate(at),
            ) => Some(*at),
            Answer::Ticked(
                Ticked::Retransmission(at) | Ticked::Notification(at) | Ticked::Chunk(at),
            ) => Some(*at),
            _ => None,
        }
    }
}
