//! The message that a handler runs for, and its reply.

ghost use Rattle.std.specs.Prelude.{◌≡◌, ◌≤◌, ◌-◌, ◌++◌, length, replicate, pos};

use crate::rules::{Forbidden, Role};
use std::error::Error;
use std::fmt;
use wire_message::Kind;

/// The part of a call that is wrong.
#[derive(Clone, Copy, PartialEq, Eq, Debug)]
pub enum Which {
    /// The target is no node of the job.
    Node,
    /// No handler of the right role is registered for the index.
    Handler,
    /// There are more than 16 arguments.
    Count,
    /// The payload has more than 8,192 bytes (profile).
    Payload,
    /// The payload's place passes the end of the local segment.
    Source,
    /// The payload's place passes the end of the target's segment.
    Offset,
}

impl fmt::Display for Which {
    fn fmt<W: fmt::Write>(&self, f: &mut fmt::Formatter<W>) -> fmt::Result {
        match *self {
            Which::Node => write!(f, "the target is no node of the job"),
            Which::Handler => write!(f, "no handler of the right role has the index"),
            Which::Count => write!(f, "more than 16 arguments"),
            Which::Payload => write!(f, "the payload has more than 8192 bytes"),
            Which::Source => write!(f, "the payload passes the end of the local segment"),
            Which::Offset => write!(f, "the payload passes the end of the target's segment"),
        }
    }
}

impl Error for Which {}

/// The answer to a reply that a handler asks for.
#[derive(Clone, Copy, PartialEq, Eq, Debug)]
pub enum Replied {
    /// It is the handler's reply.
    Sent,
    /// A part of it is wrong; nothing happened.
    BadArg(Which),
    /// The rule table forbids it; a violation was noted, and nothing else happened.
    Forbidden(Forbidden),
}

/// The message that a handler runs for (GASNet 1.8.1, core API, active messages).
#[derive(Clone, Copy)]
pub struct Incoming<'a> {
    /// Whether it is a request or a reply.
    pub role: Role,
    /// The node that runs the handler.
    pub me: u16,
    /// The node that sent the message.
    pub source: u16,
    /// The slot of the request that this is, or is the reply to.
    pub slot: u16,
    /// The number of that request among those of its pair of nodes, from 1; of no meaning where `source` is `me`.
    pub number: u64,
    /// The arguments, at most 16.
    pub args: &'a [i32],
    /// The payload of a Medium message; else empty.
    pub payload: &'a [u8],
    /// Where a Long message's payload stands in the segment: the first byte and the length.
    pub place: Option<(u64, u64)>,
}

/// A reply that was sent. Its bytes stand at the beginning of the token's buffer.
#[derive(Clone, Copy)]
pub struct Reply {
    /// The category.
    pub kind: Kind,
    /// The index of the handler that runs for it.
    pub handler: u8,
    /// How many arguments there are.
    pub count: u8,
    /// The arguments, and then zeros.
    pub args: [i32; 16],
    /// The byte of the requester's segment where a Long reply's payload goes; else 0.
    pub offset: u64,
    /// How many bytes of the buffer are the reply's: its datagram or, where the request came from the local node, its
    /// payload alone.
    pub len: usize,
}

/// The arguments, and then zeros up to 16.
pub(crate) fn padded(args: &[i32]) -> [i32; 16]
    requires { length args.now ≤ 16 }
    ensures { result ≡ args.now ++ replicate (16 - length args.now) (pos 0) }
{
    let mut all = [0; 16];
    all[..args.len()].copy_from_slice(args);
    all
}
