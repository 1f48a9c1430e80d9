//! Messages that are to be sent.

ghost use Rattle.std.specs.Prelude.{◌≡◌, ◌↔◌, ◌≤◌, IsTrue, length};
ghost use Rattle.wire_message.specs.Content.{IsWellFormed};
ghost use Rattle.wire_message.specs.Reading.{outgoing_message};
ghost use Rattle.wire_message.specs.Refusals.{is_clean, fields_of};

use crate::kind::{Kind, is_kind, is_version};
use crate::limits::MAX_PAYLOAD;
use crate::refusing::{is_wrong_count, is_wrong_length, is_wrong_reserved};

/// The parts of a message that is to be sent. Arguments and payload are borrowed.
#[derive(Clone, Copy)]
pub struct Outgoing<'a> {
    /// The version of the layout, 1 or 2.
    pub version: u8,
    /// The category and way.
    pub kind: Kind,
    /// The job's number.
    pub job: u64,
    /// The sender's node.
    pub from: u16,
    /// The receiver's node; another one.
    pub to: u16,
    /// The slot of the request that this is, or is the reply to.
    pub slot: u16,
    /// The number of that request among those of its pair of nodes, from 1.
    pub number: u64,
    /// The index of the handler; 0 in an Ack alone.
    pub handler: u8,
    /// The arguments, at most 16; none in an Ack.
    pub args: &'a [i32],
    /// The byte of the receiver's segment where the payload of a Long kind goes; else 0.
    pub offset: u64,
    /// The payload, at most 8,192 bytes; none in a Short kind or an Ack.
    pub payload: &'a [u8],
}

/// Whether nothing is wrong with the fields, with 0 as byte 7.
fn is_clean(parts: &Outgoing<'_>) -> bool
    requires count { length parts.now.args.now ≤ 16 }
    requires payload { length parts.now.payload.now ≤ MAX_PAYLOAD }
    ensures { result ≡ is_clean (fields_of (outgoing_message parts.now)) }
{
    let kind = parts.kind.code();
    is_kind(kind)
        && !is_wrong_count(kind, parts.args.len() as u8)
        && !is_wrong_reserved(kind, 0, parts.handler, parts.offset)
        && parts.number != 0
        && parts.from != parts.to
        && !is_wrong_length(kind, parts.payload.len() as u16)
}

impl Outgoing<'_> {
    /// Whether the parts have a spelling: exactly where the version is 1 or 2, the sender isn't the
    /// receiver, the number is at least 1, and the kind has these parts.
    pub fn well_formed(&self) -> bool
        ensures { IsTrue result ↔ IsWellFormed (outgoing_message self.now) }
    {
        if !is_version(self.version) {
            return false;
        }
        if self.args.len() > 16 {
            return false;
        }
        if self.payload.len() > MAX_PAYLOAD {
            return false;
        }
        is_clean(self)
    }
}
