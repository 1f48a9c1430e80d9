//! The table of refusals.

ghost use Rattle.std.specs.Prelude.{◌≡◌, ◌+◌, ◌*◌, ◌≤◌, length, slice_index};
ghost use Rattle.std.specs.Int.{w16, w64};
ghost use Rattle.wire_message.specs.Refusals.{number_at, told_length, has_magic};
ghost use Rattle.wire_message.specs.Refusals.{is_wrong_count, is_wrong_reserved};
ghost use Rattle.wire_message.specs.Refusals.{is_wrong_length, first_refusal};

use crate::kind::{is_ack, is_bare, is_kind, is_long};
use crate::limits::MAX_PAYLOAD;
use crate::refused::Refused;

/// The most bytes of a payload, as a datagram tells them.
const LONGEST: u16 = MAX_PAYLOAD as u16;

/// The number in two bytes from a place on.
pub(crate) fn u16_at(bytes: &[u8], at: usize) -> u16
    requires { at + 2 ≤ length bytes.now }
    ensures { result ≡ number_at w16 bytes.now at }
{
    u16::from_be_bytes([bytes[at], bytes[at + 1]])
}

/// The number in eight bytes from a place on.
pub(crate) fn u64_at(bytes: &[u8], at: usize) -> u64
    requires { at + 8 ≤ length bytes.now }
    ensures { result ≡ number_at w64 bytes.now at }
{
    u64::from_be_bytes([
        bytes[at],
        bytes[at + 1],
        bytes[at + 2],
        bytes[at + 3],
        bytes[at + 4],
        bytes[at + 5],
        bytes[at + 6],
        bytes[at + 7],
    ])
}

/// Whether the first four bytes are the text `GAM1` in version 1, `GAM2` in version 2.
fn has_magic(bytes: &[u8], version: u8) -> bool
    requires some { 40 ≤ length bytes.now }
    requires version { version ≤ 2 }
    ensures { result ≡ has_magic version bytes.now }
{
    bytes[0] == 0x47 && bytes[1] == 0x41 && bytes[2] == 0x4d && bytes[3] == 0x30 + version
}

/// Whether there are more than 16 arguments, or an Ack has one.
pub(crate) fn is_wrong_count(kind: u8, count: u8) -> bool
    ensures { result ≡ is_wrong_count kind count }
{
    count > 16 || (is_ack(kind) && count != 0)
}

/// Whether byte 7 isn't 0, an Ack has a handler, another kind has none, or a kind other than Long has an offset.
pub(crate) fn is_wrong_reserved(kind: u8, reserved: u8, handler: u8, offset: u64) -> bool
    ensures { result ≡ is_wrong_reserved kind reserved handler offset }
{
    reserved != 0
        || (is_ack(kind) && handler != 0)
        || (!is_ack(kind) && handler == 0)
        || (!is_long(kind) && offset != 0)
}

/// Whether the payload is above 8,192 bytes, or a kind without one has it.
pub(crate) fn is_wrong_length(kind: u8, len: u16) -> bool
    ensures { result ≡ is_wrong_length kind len }
{
    len > LONGEST || (is_bare(kind) && len != 0)
}

/// The first refusal of the table that applies to a message of this version.
#[tactic(auto, unfolding(crate::specs::Refusals::first_refusal))]
pub(crate) fn first_refusal(bytes: &[u8], version: u8) -> Option<Refused>
    requires { version ≤ 2 }
    ensures { result ≡ first_refusal version bytes.now }
{
    if bytes.len() < 40 {
        return Some(Refused::Short(bytes.len()));
    }
    if !has_magic(bytes, version) {
        return Some(Refused::Magic);
    }
    let kind = bytes[4];
    if !is_kind(kind) {
        return Some(Refused::Kind);
    }
    if is_wrong_count(kind, bytes[6]) {
        return Some(Refused::ArgCount);
    }
    if is_wrong_reserved(kind, bytes[7], bytes[5], u64_at(bytes, 32)) {
        return Some(Refused::Reserved);
    }
    if u64_at(bytes, 24) == 0 {
        return Some(Refused::Number);
    }
    if u16_at(bytes, 16) == u16_at(bytes, 18) {
        return Some(Refused::SelfAddressed);
    }
    let len = u16_at(bytes, 22);
    if is_wrong_length(kind, len) {
        return Some(Refused::Length);
    }
    let told = 40 + 4 * usize::from(bytes[6]) + usize::from(len);
    if bytes.len() < told {
        return Some(Refused::Cut(bytes.len()));
    }
    if bytes.len() > told {
        return Some(Refused::Trailing(told));
    }
    None
}
