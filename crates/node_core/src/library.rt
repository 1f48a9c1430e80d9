//! The library's own requests: what is asked, and their arguments.

ghost use Rattle.std.specs.Prelude.{◌≡◌, ◌≤◌, ◌<◌, ◌+◌, ◌^◌, ◌∷◌, [], length, pos, IfSome, is_none};
ghost use Rattle.std.specs.Prelude.{nat_lt};
ghost use Rattle.wire_message.specs.Notifications.{argument, high_half as high_part};
ghost use Rattle.wire_message.specs.Notifications.{low_half as low_part};
ghost use Rattle.node_core.specs.Library.{fetch_arguments, fill_arguments, fetch_said, fill_said};
ghost use Rattle.node_core.specs.Library.{is_beyond};
ghost use Rattle.node_core.specs.Library.{is_no_fetch, is_no_fill, argument_number};

use wire_message::{BarrierNotification, MAX_PAYLOAD, high_half, joined, low_half};

/// The most bytes of a part, as an argument tells them.
const LONGEST: u16 = MAX_PAYLOAD as u16;

/// The handler of a part of a put: a Long request.
pub(crate) const PUT: u8 = 64;

/// The handler of a part of a get: a Short request.
pub(crate) const GET: u8 = 65;

/// The handler of a part of a memset: a Short request.
pub(crate) const MEMSET: u8 = 66;

/// The handler of a notification of the barrier: a Short request.
pub(crate) const NOTE: u8 = 67;

/// The handler of the bytes that a get asked for: a Long reply.
pub(crate) const GET_REPLY: u8 = 68;

/// The greatest index that is the library's: those above are clients'.
pub(crate) const LAST_OWN: u8 = 127;

/// What the library asks of another node (GASNet 1.8.1, extended API): a chunk of a transfer, 1 to 8,192 bytes
/// (profile), or a notification of the barrier.
#[derive(Clone, Copy)]
pub enum LibraryRequest {
    /// Bytes of the local segment go to the other's.
    Put {
        /// Their first byte here.
        local: u64,
        /// Their first byte there.
        remote: u64,
        /// How many they are.
        len: u64,
    },
    /// Bytes of the other's segment come to the local one.
    Get {
        /// Their first byte here.
        local: u64,
        /// Their first byte there.
        remote: u64,
        /// How many they are.
        len: u64,
    },
    /// Bytes of the other's segment are each set to one value.
    Memset {
        /// Their first byte there.
        remote: u64,
        /// How many they are.
        len: u64,
        /// The value.
        byte: u8,
    },
    /// The other is told this of the barrier.
    Notification(BarrierNotification),
}

/// A part of a get, as the node that is asked reads it.
#[derive(Clone, Copy)]
pub(crate) struct Fetch {
    /// The first byte of the range there.
    pub remote: u64,
    /// How many bytes it has, at most 8,192.
    pub len: u64,
    /// Where they go in the asker's segment.
    pub local: u64,
}

/// A part of a memset, as the node that is asked reads it.
#[derive(Clone, Copy)]
pub(crate) struct Fill {
    /// The first byte of the range.
    pub remote: u64,
    /// How many bytes it has, at most 8,192.
    pub len: u64,
    /// What each of them becomes.
    pub byte: u8,
}

/// The arguments of a get.
pub(crate) fn fetch_arguments(local: u64, remote: u64, len: u64) -> [i32; 5]
    requires { len ≤ MAX_PAYLOAD }
    ensures { result ≡ fetch_arguments local remote len }
{
    [
        high_half(remote),
        low_half(remote),
        len as i32,
        high_half(local),
        low_half(local),
    ]
}

/// The arguments of a memset.
pub(crate) fn fill_arguments(remote: u64, len: u64, byte: u8) -> [i32; 4]
    requires { len ≤ MAX_PAYLOAD }
    ensures { result ≡ fill_arguments remote len byte }
{
    [
        high_half(remote),
        low_half(remote),
        len as i32,
        i32::from(byte),
    ]
}

/// The number whose upper half is the argument at a place, and its lower half the one behind it.
fn number_at(args: &[i32], place: usize) -> u64
    requires { place + 2 ≤ length args.now }
    ensures { result ≡ argument_number args.now place }
{
    joined(args[place], args[place + 1])
}

/// The number of an argument; None exactly where it isn't 0 to `most`.
fn limited(argument: i32, most: u16) -> Option<u16>
    ensures refused { is_none result ≡ is_beyond most argument }
    ensures found { IfSome result (λ number. (argument ≡ pos number) × (number ≤ most)) }
{
    if argument < 0 || argument > i32::from(most) {
        return None;
    }
    Some(argument as u16)
}

/// Whether a range passes the end of a segment of this length.
fn passes(segment: u64, offset: u64, len: u64) -> bool
    ensures { result ≡ nat_lt segment (offset + len) }
{
    offset > segment || segment - offset < len
}

/// The get that arguments spell; None exactly where they aren't five, or the length isn't 0 to 8,192, or a range passes
/// the end of a segment of this length.
pub(crate) fn read_fetch(args: &[i32], segment: u64) -> Option<Fetch>
    ensures refused { is_none result ≡ is_no_fetch segment args.now }
    ensures found { IfSome result (λ fetch. fetch ≡ fetch_said args.now) }
    ensures few { IfSome result (λ fetch. fetch.len ≤ MAX_PAYLOAD) }
{
    if args.len() != 5 {
        return None;
    }
    let remote = number_at(args, 0);
    let len = u64::from(limited(args[2], LONGEST)?);
    let local = number_at(args, 3);
    if passes(segment, remote, len) || passes(segment, local, len) {
        return None;
    }
    Some(Fetch { remote, len, local })
}

/// The memset that arguments spell; None exactly where they aren't four, or the length isn't 0 to 8,192, or the byte
/// isn't 0 to 255, or the range passes the end of a segment of this length.
pub(crate) fn read_fill(args: &[i32], segment: u64) -> Option<Fill>
    ensures refused { is_none result ≡ is_no_fill segment args.now }
    ensures found { IfSome result (λ fill. fill ≡ fill_said args.now) }
{
    if args.len() != 4 {
        return None;
    }
    let remote = number_at(args, 0);
    let len = u64::from(limited(args[2], LONGEST)?);
    let byte = limited(args[3], 255)? as u8;
    if passes(segment, remote, len) {
        return None;
    }
    Some(Fill { remote, len, byte })
}
