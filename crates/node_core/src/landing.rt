//! Payloads: where they come from, and where they go.

ghost use Rattle.std.specs.Prelude.{◌≡◌, ◌≤◌, ◌+◌, false, length, take};
ghost use Rattle.wire_message.specs.Content.{content_of};
ghost use Rattle.wire_message.specs.Reading.{viewed_message};
ghost use Rattle.part_segment.specs.Bytes.{part};
ghost use Rattle.part_segment.specs.Image.{overwritten, written_by};
ghost use Rattle.part_handlers.specs.Runs.{IsPlaced};
ghost use Rattle.node_core.specs.HandlerRuns.{landing, place_of, shown_payload};
ghost use Rattle.node_core.specs.ClientRules.{IsFine, passes_source, payload_in};
ghost use Rattle.node_core.specs.AskedFor.{asking_of, content_asked, content_with, payload_from};
ghost use Rattle.node_core.specs.InPlace.{laid_writes};
ghost use Rattle.node_core.specs.Landed.{IsLanded, content_at};
ghost use Rattle.wire_message.specs.declared.limits.TheConstants.{MAX_DATAGRAM};

use crate::asking::{Asking, Category, Payload};
use part_handlers::Reply;
use part_segment::Segment;
use wire_message::{Kind, View};

/// What a delivery does with the payload of a Long message for a client's handler.
#[derive(Clone, Copy, Drop)]
pub enum Landing {
    /// It is written to its place, before the handler runs.
    Written,
    /// The handler ran before: what stands at the place is what it left there, and stays.
    Kept,
}

/// Writes bytes to their place of a segment.
fn write(segment: &mut Segment, offset: u64, bytes: &[u8])
    requires { offset + length bytes.now ≤ length segment.old }
    ensures written { segment.new
        ≡ overwritten segment.old (record { offset = offset; bytes = bytes.now }) }
    ensures len { length segment.new ≡ length segment.old }
{
    segment
        .part_mut(offset, bytes.len() as u64)
        .copy_from_slice(bytes);
}

/// Writes the payload of a Long message to its place; nothing for the other kinds.
pub fn land(segment: &mut Segment, message: &View<'_>)
    requires { IsPlaced (length segment.old) (place_of (content_of (viewed_message message.now))) }
    ensures landed { segment.new
        ≡ written_by segment.old (landing (content_of (viewed_message message.now))) }
    ensures len { length segment.new ≡ length segment.old }
{
    match message.kind {
        Kind::LongRequest | Kind::LongReply => write(segment, message.offset, message.payload),
        Kind::ShortRequest | Kind::MediumRequest => {}
        Kind::ShortReply | Kind::MediumReply | Kind::Ack => {}
    }
}

/// The same, where it is to be written.
pub fn land_if_written(segment: &mut Segment, landing: Landing, message: &View<'_>)
    requires { IsPlaced (length segment.old) (place_of (content_of (viewed_message message.now))) }
    ensures landed { segment.new ≡ written_by segment.old
        (laid_writes landing (content_of (viewed_message message.now))) }
    ensures len { length segment.new ≡ length segment.old }
{
    match landing {
        Landing::Written => land(segment, message),
        Landing::Kept => {}
    }
}

/// The bytes of a payload, which lies inside the local segment where it is a range of it.
pub fn payload_of<'a>(segment: &'a Segment, payload: &Payload<'a>) -> &'a [u8]
    requires { passes_source (length segment.now) (payload_from payload.now) ≡ false }
    ensures { result.now ≡ payload_in segment.now (payload_from payload.now) }
{
    match *payload {
        Payload::Lent(bytes) => bytes,
        Payload::Own { offset, len } => match segment.part(offset, len) {
            Some(bytes) => bytes,
            None => unreachable!(),
        },
    }
}

/// Puts the payload of an own request where its handler finds it: a Long's at its place of the segment, a Medium's at
/// the beginning of the buffer. Tells how many bytes stand there for the handler.
pub fn lend_own(segment: &mut Segment, buffer: &mut [u8], asking: &Asking<'_>) -> usize
    requires fine { IsFine (length segment.old) (asking_of asking.now) }
    requires room { length buffer.old ≡ MAX_DATAGRAM }
    ensures landed { IsLanded (content_asked segment.old asking.now) segment.old segment.new
        buffer.new result }
    ensures room { length buffer.new ≡ MAX_DATAGRAM }
{
    match asking.category {
        Category::Short => 0,
        Category::Medium => {
            let bytes = payload_of(segment, &asking.payload);
            buffer[..bytes.len()].copy_from_slice(bytes);
            bytes.len()
        }
        Category::Long => {
            match asking.payload {
                Payload::Lent(bytes) => write(segment, asking.offset, bytes),
                Payload::Own { offset, len } => copy(segment, offset, asking.offset, len),
            }
            0
        }
    }
}

/// Copies `len` bytes of a segment from one place to another.
fn copy(segment: &mut Segment, from: u64, to: u64, len: u64)
    requires from { from + len ≤ length segment.old }
    requires to { to + len ≤ length segment.old }
    ensures written { segment.new ≡ overwritten segment.old
        (record { offset = to; bytes = part segment.old from len }) }
    ensures len { length segment.new ≡ length segment.old }
{
    if segment.copy_within(from, to, len).is_err() {
        unreachable!();
    }
}

/// Puts the payload of a reply of the local node, which stands at the beginning of the buffer, where its handler finds
/// it: a Long's at its place of the segment. Tells how many bytes of the buffer are the handler's.
pub fn land_reply(segment: &mut Segment, buffer: &[u8], reply: &Reply) -> usize
    requires len { reply.now.len ≤ length buffer.now }
    requires placed { IsPlaced (length segment.old) (place_of (content_at buffer.now reply.now)) }
    ensures { IsLanded (content_at buffer.now reply.now) segment.old segment.new buffer.now result }
{
    match reply.kind {
        Kind::LongRequest | Kind::LongReply => {
            write(segment, reply.offset, &buffer[..reply.len]);
            0
        }
        Kind::ShortRequest | Kind::MediumRequest => reply.len,
        Kind::ShortReply | Kind::MediumReply | Kind::Ack => reply.len,
    }
}
