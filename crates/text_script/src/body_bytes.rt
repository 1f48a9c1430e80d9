//! The bytes that an action reads and writes, as it runs.

ghost use Rattle.std.specs.Prelude.{◌≡◌, length};
ghost use Rattle.std.specs.Option.{option_map};
ghost use Rattle.part_handlers.specs.Tokens.{token_arrival};
ghost use Rattle.part_handlers.specs.Runs.{IsPlaced};
ghost use Rattle.text_script.specs.Bodies.{kept_write, message_bytes, overwritten_if, payload_bytes, range_bytes};

use part_handlers::Token;
use part_segment::Segment;
use text_calls::Payload;

/// The payload of the message that the token is for; of a Long the bytes at its place, of a Short none.
pub(crate) fn message_bytes<'b, 'a: 'b>(segment: &'b Segment, token: &Token<'a>) -> &'b [u8]
    requires { IsPlaced (length segment.now) (token_arrival token.now).place }
    ensures { result.now ≡ message_bytes (token_arrival token.now) segment.now }
{
    match token.place() {
        Some((offset, len)) => segment.part(offset, len).unwrap(),
        None => token.payload(),
    }
}

/// The bytes of a range of the segment; none where it passes the end.
fn range_bytes(segment: &Segment, offset: u64, len: u64) -> Option<&[u8]>
    ensures { option_map (λ lent. lent.now) result ≡ range_bytes segment.now offset len }
{
    segment.part(offset, len)
}

/// The bytes of a payload of an action; none where its range is outside the segment.
pub(crate) fn payload_bytes<'b, 'a: 'b>(
    payload: &'b Payload,
    segment: &'b Segment,
    token: &Token<'a>,
) -> Option<&'b [u8]>
    requires { IsPlaced (length segment.now) (token_arrival token.now).place }
    ensures { option_map (λ lent. lent.now) result
        ≡ payload_bytes (token_arrival token.now) segment.now payload.now }
{
    match payload {
        Payload::Bytes { bytes } => Some(bytes.items()),
        Payload::Range { offset, len } => range_bytes(segment, *offset, *len),
        Payload::Message => Some(message_bytes(segment, token)),
    }
}

/// Writes a payload at an offset of the segment, where there is one and it fits.
pub(crate) fn keep(payload: &[u8], offset: u64, segment: &mut Segment)
    ensures { segment.new ≡ overwritten_if (kept_write (length segment.old) offset payload.now)
        segment.old }
{
    let len = payload.len() as u64;
    if len == 0 || !segment.contains(offset, len) {
        return;
    }
    segment.part_mut(offset, len).copy_from_slice(payload);
}
