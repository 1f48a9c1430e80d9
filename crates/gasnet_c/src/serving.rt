//! The handlers that the library serves, and the datagrams for them.

ghost use Rattle.std.specs.Prelude.{◌≡◌};
ghost use Rattle.node_rules.specs.declared.call.Event.TheVariants as event;
ghost use Rattle.gasnet_c.specs.OwnHandlers.{serving};
ghost use Rattle.gasnet_c.specs.Telling.{Tells};
ghost use Rattle.gasnet_c.specs.Whole.{IsWhole};

use crate::handle::Handle;
use crate::node::EventAt;
use crate::stepping::stepped;
use crate::told::{Told, dead};
use node_atomics::serve as serve_batch;
use node_rules::Event;
use part_collective_area::serve as serve_collective;
use part_handlers::{Cells, Handlers, Token};
use part_segment::Segment;
use std::alloc::Global;

/// The index of the handler of collectives.
const COLLECTIVE_HANDLER: u8 = 254;

/// The handlers of batches and of collectives, and no others.
#[derive(Clone, Copy)]
pub struct OwnHandlers;

impl Handlers for OwnHandlers {
    ghost use Rattle.gasnet_c.specs.ServingLawful.{serving_lawful};

    ghost meaning = { λ it handler frame start. serving handler frame start };

    ghost is_lawful = { λ it handler frame start. serving_lawful handler frame start };

    /// It does the operations of a batch, and replies; or it writes stamp and shape of a collective.
    fn run(&self, handler: u8, segment: &mut Segment, _cells: &mut Cells, token: &mut Token<'_>) {
        if handler == COLLECTIVE_HANDLER {
            serve_collective(segment, token);
        } else {
            serve_batch(handler, segment, token);
        }
    }
}

/// Delivers a datagram for one of the two handlers of operations, 252 and 253, or for that of collectives, 254. They
/// run in the call: C runs nothing before it. It is answered as `gasnet_c_deliver`.
///
/// A datagram for another handler runs one that does nothing.
#[unsafe(no_mangle)]
pub extern "C" fn gasnet_c_serve(
    alloc: Global,
    handle: &mut Handle,
    now: u64,
    bytes: &[u8],
    buffer: &mut [u8],
) -> Told
    requires { IsWhole handle.old }
    ensures whole { IsWhole handle.new }
    ensures tells { Tells serving handle.old.place.held now (event.Deliver bytes.entry) result
        buffer.new handle.new.place.held }
{
    if !handle.live {
        return dead();
    }
    let event_at = EventAt {
        time: now,
        event: Event::Deliver { bytes },
    };
    stepped(alloc, handle, &OwnHandlers, &event_at, buffer)
}
