//! Writing messages.

ghost use Rattle.std.specs.Prelude.{◌≡◌, ◌+◌, ◌*◌, ◌<◌, ◌≤◌, ◌^◌, ℕ, slice_index, [], ◌∷◌, ◌++◌};
ghost use Rattle.std.specs.Prelude.{length, take, drop, OnSome};
ghost use Rattle.std.specs.List.{flat_map, AllByRecursion};
ghost use Rattle.std.specs.Int.{w16, w32, to_be_bytes};
ghost use Rattle.std.specs.Int.RustNames.{FitsSigned};
ghost use Rattle.wire_message.specs.Content.{IsMessage, IsWellFormed, HasRanges, code, header};
ghost use Rattle.wire_message.specs.Content.{magic, spelling, word};
ghost use Rattle.wire_message.specs.Reading.{outgoing_message};
ghost use Rattle.wire_message.specs.Writing.{Writes};
ghost use Rattle.wire_message.specs.declared.limits.TheConstants.{MAX_PAYLOAD};

use crate::outgoing::Outgoing;

/// The length, with what the type says of each byte.
fn byte_count(bytes: &[u8]) -> usize
    ensures len { result ≡ length bytes.now }
    ensures fit { (i : ℕ) → slice_index bytes.now i < 2 ^ 8 }
{
    bytes.len()
}

/// Writes bytes at a place.
fn write_at(buf: &mut [u8], at: usize, bytes: &[u8])
    requires { at + length bytes.now ≤ length buf.old }
    ensures { buf.new ≡ take at buf.old ++ bytes.now ++ drop (at + length bytes.now) buf.old }
{
    buf[at..at + bytes.len()].copy_from_slice(bytes);
}

/// Writes an argument at a place.
fn write_argument(buf: &mut [u8], at: usize, arg: i32)
    requires { at + 4 ≤ length buf.old }
    ensures { buf.new ≡ take at buf.old ++ word arg ++ drop (at + 4) buf.old }
{
    write_at(buf, at, &arg.to_be_bytes());
}

/// Writes arguments at a place, with what the type says of each.
fn write_arguments(buf: &mut [u8], at: usize, args: &[i32])
    requires { at + 4 * length args.now ≤ length buf.old }
    ensures written { let n = 4 * length args.now in
        buf.new ≡ take at buf.old ++ flat_map word args.now ++ drop (at + n) buf.old }
    ensures fit { AllByRecursion (FitsSigned w32) args.now }
{
    for (i, arg) in args.iter().enumerate() {
        write_argument(buf, at + 4 * i, *arg);
    }
}

/// The header's first 8 bytes: the version's text, kind, handler, argument count, and 0; with the
/// range of the handler.
fn preamble_of(parts: &Outgoing<'_>) -> [u8; 8]
    requires version { parts.now.version ≤ 2 }
    requires args { length parts.now.args.now ≤ 16 }
    ensures handler { parts.now.handler < 2 ^ 8 }
    ensures value { let m = outgoing_message parts.now in
        result ≡ magic m.version ++ (code m.kind ∷ m.handler ∷ length m.args ∷ 0 ∷ []) }
{
    [
        0x47,
        0x41,
        0x4d,
        0x30 + parts.version,
        parts.kind.code(),
        parts.handler,
        parts.args.len() as u8,
        0,
    ]
}

/// The header's 6 bytes behind the job: sender, receiver and slot; with their ranges.
fn route_of(parts: &Outgoing<'_>) -> [u8; 6]
    ensures from { parts.now.from < 2 ^ 16 }
    ensures to { parts.now.to < 2 ^ 16 }
    ensures slot { parts.now.slot < 2 ^ 16 }
    ensures value { let m = outgoing_message parts.now in
        result ≡ to_be_bytes w16 m.from ++ to_be_bytes w16 m.to ++ to_be_bytes w16 m.slot }
{
    let from = parts.from.to_be_bytes();
    let to = parts.to.to_be_bytes();
    let slot = parts.slot.to_be_bytes();
    [from[0], from[1], to[0], to[1], slot[0], slot[1]]
}

/// The 40 bytes before the arguments, with the ranges of the fields.
#[tactic(auto, unfolding(crate::specs::Content::header))]
fn header_of(parts: &Outgoing<'_>) -> [u8; 40]
    requires version { parts.now.version ≤ 2 }
    requires args { length parts.now.args.now ≤ 16 }
    requires payload { length parts.now.payload.now ≤ MAX_PAYLOAD }
    ensures value { result ≡ header (outgoing_message parts.now) }
    ensures ranges { HasRanges (outgoing_message parts.now) }
{
    let len = byte_count(parts.payload) as u16;
    let mut header = [0; 40];
    write_at(&mut header, 0, &preamble_of(parts));
    write_at(&mut header, 8, &parts.job.to_be_bytes());
    write_at(&mut header, 16, &route_of(parts));
    write_at(&mut header, 22, &len.to_be_bytes());
    write_at(&mut header, 24, &parts.number.to_be_bytes());
    write_at(&mut header, 32, &parts.offset.to_be_bytes());
    header
}

/// Writes the message's one spelling at the beginning of a buffer that has room for it, and answers its length.
pub(crate) fn write_whole(parts: &Outgoing<'_>, buf: &mut [u8]) -> usize
    requires message { IsWellFormed (outgoing_message parts.now) }
    requires room { let message = outgoing_message parts.now in
        40 + 4 * length message.args + length message.payload ≤ length buf.old }
    ensures message { IsMessage (outgoing_message parts.now) }
    ensures len { result ≡ length (spelling (outgoing_message parts.now)) }
    ensures written { buf.new ≡ spelling (outgoing_message parts.now) ++ drop result buf.old }
{
    let body = 40 + 4 * parts.args.len();
    write_at(buf, 0, &header_of(parts));
    write_arguments(buf, 40, parts.args);
    write_at(buf, body, parts.payload);
    body + parts.payload.len()
}

/// Writes the message's one spelling into the beginning of the buffer, and answers its length, at most 8,296 bytes.
///
/// None exactly where the buffer is too small, and then it is unchanged. Else the rest of it is unchanged. The parts
/// must be well formed, as `Outgoing::well_formed` tells.
pub fn write_into(parts: &Outgoing<'_>, buf: &mut [u8]) -> Option<usize>
    requires { IsWellFormed (outgoing_message parts.now) }
    ensures written { Writes (spelling (outgoing_message parts.now)) buf.old result buf.new }
    ensures message { OnSome result (IsMessage (outgoing_message parts.now)) }
{
    if buf.len() < 40 + 4 * parts.args.len() + parts.payload.len() {
        return None;
    }
    Some(write_whole(parts, buf))
}
