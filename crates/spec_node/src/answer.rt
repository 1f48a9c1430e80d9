//! The answers of a node to requests, deliveries and ticks.

ghost use Rattle.std.specs.Prelude.{◌≡◌};
ghost use Rattle.spec_node.specs.Step.{request_slot, reply_slot};

use part_handlers::{Forbidden, Which};
use std::error::Error;
use std::fmt;
use wire_message::{BarrierNotification, Refused};

/// Which messages a slot keeps.
#[derive(Clone, Copy, PartialEq, Eq, Debug)]
pub enum Side {
    /// Requests to the peer.
    Request,
    /// Replies to the peer's requests.
    Reply,
}

/// A slot of a peer.
#[derive(Clone, Copy, PartialEq, Eq, Debug)]
pub struct SlotRef {
    /// Which messages it keeps.
    pub side: Side,
    /// The other node.
    pub peer: u16,
    /// The slot, from 0.
    pub slot: u16,
}

impl SlotRef {
    /// The slot of a request to that node.
    pub fn of_request(peer: u16, slot: u16) -> SlotRef
        ensures { result ≡ request_slot peer slot }
    {
        SlotRef {
            side: Side::Request,
            peer,
            slot,
        }
    }

    /// The slot of the reply to a request of that node.
    pub fn of_reply(peer: u16, slot: u16) -> SlotRef
        ensures { result ≡ reply_slot peer slot }
    {
        SlotRef {
            side: Side::Reply,
            peer,
            slot,
        }
    }
}

/// What a client's request is answered (GASNet 1.8.1, core API, `gasnet_AMRequestShort` and its kin).
#[derive(Clone, Copy)]
pub enum Asked {
    /// It has a slot and the next number of its pair of nodes.
    Accepted {
        /// The node that is to run it.
        to: u16,
        /// The slot that it takes.
        slot: u16,
        /// Its number, from 1.
        number: u64,
    },
    /// Its target is the local node: its handler ran, and then that of its reply where it sent one.
    Ran,
    /// An argument is bad, the first that is; nothing happened.
    BadArg(Which),
    /// The rule table forbids it; a violation was noted.
    Forbidden(Forbidden),
    /// Its target is the local node, and a handler that would run waits for this lock; nothing happened.
    LockBusy(u8),
    /// The numbers of the pair are used up.
    Exhausted,
    /// All credits of the pair are with open requests.
    NotYet,
}

/// Why bytes that were delivered are refused: the first reason of this order.
#[derive(Clone, Copy, Debug)]
pub enum Why {
    /// They are no message.
    Bytes(Refused),
    /// The message is another job's.
    Job,
    /// It is for another node.
    Receiver,
    /// Its sender is no node of the job.
    Sender,
    /// Its slot isn't among those of its pair of nodes.
    Slot,
    /// It is no Ack, and no handler of its role is registered for its index; or it is the library's own, of another
    /// kind.
    Handler,
    /// It is the library's own, and its arguments are wrong.
    Args,
    /// It is a Long message, and its place passes the end of the segment.
    Range,
}

impl fmt::Display for Why {
    fn fmt<W: fmt::Write>(&self, f: &mut fmt::Formatter<W>) -> fmt::Result {
        match *self {
            Why::Bytes(refused) => write!(f, "no message: {refused}"),
            Why::Job => write!(f, "another job's message"),
            Why::Receiver => write!(f, "a message for another node"),
            Why::Sender => write!(f, "the sender is no node of the job"),
            Why::Slot => write!(f, "the slot isn't among those of its pair of nodes"),
            Why::Handler => write!(f, "no handler of its role and kind has the index"),
            Why::Args => write!(f, "the arguments of the library's own message are wrong"),
            Why::Range => write!(f, "the place passes the end of the segment"),
        }
    }
}

impl Error for Why {}

/// What bytes that are delivered are answered.
#[derive(Clone, Copy)]
pub enum Delivered {
    /// A request's handler ran, and its reply is kept in that slot.
    Ran(SlotRef),
    /// A notification of the barrier ran: its reply, an Ack, is kept in that slot.
    Notified(SlotRef, BarrierNotification),
    /// The last request run in its slot came again; its reply is kept in that slot. Nothing happened.
    Duplicate(SlotRef),
    /// An earlier request of its slot came again. Nothing happened.
    Stale,
    /// A reply's handler ran, and the credit of its request came back.
    Returned {
        /// The node that sent the reply, to which the request went.
        to: u16,
        /// The slot of the request.
        slot: u16,
        /// The number of the request.
        number: u64,
    },
    /// A reply to no request that isn't back. Nothing happened.
    Late,
    /// A handler that would run waits for this lock. Nothing happened.
    Deferred(u8),
    /// They are refused. Nothing happened.
    Refused(Why),
}

/// What a tick sends.
#[derive(Clone, Copy, Debug)]
pub enum Ticked {
    /// The request in this slot is sent again.
    Retransmission(SlotRef),
    /// A notification of the barrier is sent from this slot.
    Notification(SlotRef),
    /// A chunk of a transfer is sent from this slot.
    Chunk(SlotRef),
    /// There is nothing to send.
    Nothing,
}
