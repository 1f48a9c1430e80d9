//! What messages say, and where they go, with their spelling.

ghost use Rattle.std.specs.Prelude.{◌≡◌, ◌+◌, ◌≤◌, [], ◌++◌, length, drop};
ghost use Rattle.wire_message.specs.Content.{IsMessage, IsWellFormed, spelling};
ghost use Rattle.wire_message.specs.Reading.{outgoing_message};
ghost use Rattle.wire_message.specs.Content.{Content, IsWellAddressed, message_at_address};
ghost use Rattle.wire_message.specs.Content.{short_request, medium_request, long_request};
ghost use Rattle.wire_message.specs.Content.{short_reply, medium_reply, long_reply, ack};
ghost use Rattle.wire_message.specs.declared.limits.TheConstants.{MAX_DATAGRAM, MAX_PAYLOAD};

use crate::kind::Kind;
use crate::outgoing::Outgoing;
use crate::writing::write_whole;

/// Where a message goes, and of which request it tells.
#[derive(Clone, Copy)]
pub struct Address {
    /// The version of the layout, 1 or 2.
    pub version: u8,
    /// The job's number.
    pub job: u64,
    /// The sender's node.
    pub from: u16,
    /// The receiver's node; another one.
    pub to: u16,
    /// The slot of the request that the message is, or is the reply to.
    pub slot: u16,
    /// The number of that request among those of its pair of nodes, from 1.
    pub number: u64,
}

/// The parts of a message with arguments alone, or of an Ack.
fn bare<'a>(address: Address, kind: Kind, handler: u8, args: &'a [i32]) -> Outgoing<'a>
    ensures { let content : Content =
        record { kind = kind; handler = handler; args = args.now; offset = 0; payload = [] } in
        outgoing_message result ≡ message_at_address address content }
{
    Outgoing {
        version: address.version,
        kind,
        job: address.job,
        from: address.from,
        to: address.to,
        slot: address.slot,
        number: address.number,
        handler,
        args,
        offset: 0,
        payload: &[],
    }
}

/// The parts of a Short request for a handler, which isn't 0, with at most 16 arguments.
pub fn short_request<'a>(address: Address, handler: u8, args: &'a [i32]) -> Outgoing<'a>
    requires address { IsWellAddressed address }
    requires handler { 1 ≤ handler }
    requires count { length args.now ≤ 16 }
    ensures value { outgoing_message result ≡ message_at_address address (short_request handler args.now) }
    ensures formed { IsWellFormed (outgoing_message result) }
{
    bare(address, Kind::ShortRequest, handler, args)
}

/// The parts of a Medium request for a handler, which isn't 0, with at most 16 arguments and a payload of at most 8,192
/// bytes, which the handler sees in a buffer of the library.
pub fn medium_request<'a>(
    address: Address,
    handler: u8,
    args: &'a [i32],
    payload: &'a [u8],
) -> Outgoing<'a>
    requires address { IsWellAddressed address }
    requires handler { 1 ≤ handler }
    requires count { length args.now ≤ 16 }
    requires payload { length payload.now ≤ MAX_PAYLOAD }
    ensures value { let content = medium_request handler args.now payload.now in
        outgoing_message result ≡ message_at_address address content }
    ensures formed { IsWellFormed (outgoing_message result) }
{
    Outgoing {
        payload,
        ..bare(address, Kind::MediumRequest, handler, args)
    }
}

/// The parts of a Long request for a handler, which isn't 0, with at most 16 arguments and a payload of at most 8,192
/// bytes, which goes to the receiver's segment from the byte at `offset` on.
pub fn long_request<'a>(
    address: Address,
    handler: u8,
    args: &'a [i32],
    offset: u64,
    payload: &'a [u8],
) -> Outgoing<'a>
    requires address { IsWellAddressed address }
    requires handler { 1 ≤ handler }
    requires count { length args.now ≤ 16 }
    requires payload { length payload.now ≤ MAX_PAYLOAD }
    ensures value { let content = long_request handler args.now offset payload.now in
        outgoing_message result ≡ message_at_address address content }
    ensures formed { IsWellFormed (outgoing_message result) }
{
    Outgoing {
        offset,
        payload,
        ..bare(address, Kind::LongRequest, handler, args)
    }
}

/// The parts of a Short reply for a handler, which isn't 0, with at most 16 arguments.
pub fn short_reply<'a>(address: Address, handler: u8, args: &'a [i32]) -> Outgoing<'a>
    requires address { IsWellAddressed address }
    requires handler { 1 ≤ handler }
    requires count { length args.now ≤ 16 }
    ensures value { outgoing_message result ≡ message_at_address address (short_reply handler args.now) }
    ensures formed { IsWellFormed (outgoing_message result) }
{
    bare(address, Kind::ShortReply, handler, args)
}

/// The parts of a Medium reply for a handler, which isn't 0, with at most 16 arguments and a payload of at most 8,192
/// bytes, which the handler sees in a buffer of the library.
pub fn medium_reply<'a>(
    address: Address,
    handler: u8,
    args: &'a [i32],
    payload: &'a [u8],
) -> Outgoing<'a>
    requires address { IsWellAddressed address }
    requires handler { 1 ≤ handler }
    requires count { length args.now ≤ 16 }
    requires payload { length payload.now ≤ MAX_PAYLOAD }
    ensures value { let content = medium_reply handler args.now payload.now in
        outgoing_message result ≡ message_at_address address content }
    ensures formed { IsWellFormed (outgoing_message result) }
{
    Outgoing {
        payload,
        ..bare(address, Kind::MediumReply, handler, args)
    }
}

/// The parts of a Long reply for a handler, which isn't 0, with at most 16 arguments and a payload of at most 8,192
/// bytes, which goes to the receiver's segment from the byte at `offset` on.
pub fn long_reply<'a>(
    address: Address,
    handler: u8,
    args: &'a [i32],
    offset: u64,
    payload: &'a [u8],
) -> Outgoing<'a>
    requires address { IsWellAddressed address }
    requires handler { 1 ≤ handler }
    requires count { length args.now ≤ 16 }
    requires payload { length payload.now ≤ MAX_PAYLOAD }
    ensures value { let content = long_reply handler args.now offset payload.now in
        outgoing_message result ≡ message_at_address address content }
    ensures formed { IsWellFormed (outgoing_message result) }
{
    Outgoing {
        offset,
        payload,
        ..bare(address, Kind::LongReply, handler, args)
    }
}

/// The parts of an Ack, the empty reply.
pub fn ack<'a>(address: Address) -> Outgoing<'a>
    requires { IsWellAddressed address }
    ensures value { outgoing_message result ≡ message_at_address address ack }
    ensures formed { IsWellFormed (outgoing_message result) }
{
    bare(address, Kind::Ack, 0, &[])
}

/// Writes the message's one spelling at the beginning of a buffer of 8,296 bytes, which has room for each, and answers
/// its length.
///
/// The parts must be well formed, as they are where they were made here. The rest of the buffer is unchanged.
pub fn spell(parts: &Outgoing<'_>, buffer: &mut [u8]) -> usize
    requires formed { IsWellFormed (outgoing_message parts.now) }
    requires room { length buffer.old ≡ MAX_DATAGRAM }
    ensures message { IsMessage (outgoing_message parts.now) }
    ensures len { result ≡ length (spelling (outgoing_message parts.now)) }
    ensures some { 1 ≤ result }
    ensures fits { result ≤ MAX_DATAGRAM }
    ensures written { buffer.new ≡ spelling (outgoing_message parts.now) ++ drop result buffer.old }
    ensures room { length buffer.new ≡ MAX_DATAGRAM }
{
    write_whole(parts, buffer)
}
