//! What C needs to send requests again by itself: their datagrams, and when the next one is due.
//!
//! A law of every run says that the message of an open request was sent (`law_messages`, `EachOpenWasSent`). So C repeats
//! what was sent where it sends such a datagram once more, byte for byte, and that is what the network may do.

ghost use Rattle.std.specs.Prelude.{◌≡◌};
ghost use Rattle.gasnet_c.specs.Retransmission.{TellsAgain, TellsNextDue};
ghost use Rattle.gasnet_c.specs.Whole.{IsWhole};

use crate::handle::{Handle, put, taken};
use std::alloc::Global;

/// The datagram of an open request once more: the one to the node `to` that stands in that slot, as a told answer named
/// them. It is copied into the buffer, and the answer is how many bytes it has. 0 where no request is open there, it
/// doesn't fit, or the handle is dead: C owes a buffer of `GASNET_C_ROOM` bytes.
///
/// It changes nothing: when a tick sends the request again stays as it was. C may send the datagram, unaltered, to that
/// node, at any time.
#[unsafe(no_mangle)]
pub extern "C" fn gasnet_c_again(
    alloc: Global,
    handle: &mut Handle,
    to: u16,
    slot: u16,
    buffer: &mut [u8],
) -> u64
    requires { IsWhole handle.old }
    ensures whole { IsWhole handle.new }
    ensures same { handle.new.place.held ≡ handle.old.place.held }
    ensures tells { TellsAgain handle.old.place.held to slot result buffer.new }
{
    if !handle.live {
        return 0;
    }
    let node = taken(handle, alloc);
    let len = node.open_request(to, slot, buffer);
    put(handle, node);
    len
}

/// From which time on a tick sends a request again, as long as no event happens to the node: before it a tick doesn't,
/// and from then on it does. `UINT64_MAX` where no tick before that time does, as of a dead handle. It changes nothing.
#[unsafe(no_mangle)]
pub extern "C" fn gasnet_c_next_due(alloc: Global, handle: &mut Handle) -> u64
    requires { IsWhole handle.old }
    ensures whole { IsWhole handle.new }
    ensures same { handle.new.place.held ≡ handle.old.place.held }
    ensures tells { TellsNextDue handle.old.place.held result }
{
    if !handle.live {
        return u64::MAX;
    }
    let node = taken(handle, alloc);
    let time = node.next_due();
    put(handle, node);
    time
}
