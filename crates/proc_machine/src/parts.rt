//! The parts of a turn before the try of a step.

ghost use Rattle.std.specs.Prelude.{◌≡◌, ◌≤◌, ◌∷◌, [], Option, Some, true, IsSome, length, option_copied};
ghost use Rattle.std.specs.Option.{option_to_list};
ghost use Rattle.spec_node.specs.NodeStep.{Ticks};
ghost use Rattle.law_traces.specs.Fitting.{AreBytes};
ghost use Rattle.law_traces.specs.Laws.{GotBytes};
ghost use Rattle.law_traces.specs.Turn.{before_try, comes};
ghost use Rattle.proc_steps.specs.Tries.{Happen};
ghost use Rattle.proc_machine.specs.Parts.{at_once};

use crate::outgoing::Outgoing;
use node_core::SlotRef;
use node_endpoint::Endpoint;
use node_rules::Event;
use part_handlers::Handlers;

/// Bytes are delivered. Answers the slot of what that sent.
fn deliver_bytes<H: Handlers>(
    endpoint: &mut Endpoint,
    handlers: &H,
    now: u64,
    bytes: &[u8],
) -> Option<SlotRef>
    ensures happen { Happen (H.meaning handlers.now) endpoint.old
        (at_once now (comes endpoint.old.core.settings.version (Some bytes.now))
        (option_to_list result)) endpoint.new }
    ensures bytes { AreBytes bytes.now }
{
    endpoint
        .step(handlers, now, &Event::Deliver { bytes })
        .sends()
}

/// What was got is delivered. Answers the slot of what that sent.
fn deliver<H: Handlers>(
    endpoint: &mut Endpoint,
    handlers: &H,
    now: u64,
    got: Option<&[u8]>,
) -> Option<SlotRef>
    ensures happen { Happen (H.meaning handlers.now) endpoint.old
        (at_once now (comes endpoint.old.core.settings.version (option_copied got.entry))
        (option_to_list result)) endpoint.new }
    ensures bytes { GotBytes (option_copied got.entry) }
{
    match got {
        Some(bytes) => deliver_bytes(endpoint, handlers, now, bytes),
        None => None,
    }
}

/// A tick. Answers the slot of what it sent.
fn tick<H: Handlers>(endpoint: &mut Endpoint, handlers: &H, now: u64) -> Option<SlotRef>
    ensures { Happen (H.meaning handlers.now) endpoint.old
        (at_once now (Ticks ∷ []) (option_to_list result)) endpoint.new }
{
    endpoint.step(handlers, now, &Event::Tick).sends()
}

/// Where the thread polls, what was got is delivered, and then the node ticks. Answers what that sent: the reply to
/// what was got, and the request of the tick, as far as there are such.
pub fn before_try<H: Handlers>(
    endpoint: &mut Endpoint,
    handlers: &H,
    now: u64,
    polls: bool,
    got: Option<&[u8]>,
) -> Outgoing
    requires { IsSome got → polls ≡ true }
    ensures happen { Happen (H.meaning handlers.now) endpoint.old
        (at_once now
        (before_try endpoint.old.core.settings.version polls (option_copied got.entry)) result)
        endpoint.new }
    ensures bytes { GotBytes (option_copied got.entry) }
    ensures few { length result ≤ 2 }
{
    let mut outgoing = Outgoing::none();
    if polls {
        outgoing.add(deliver(endpoint, handlers, now, got));
        outgoing.add(tick(endpoint, handlers, now));
    }
    outgoing
}
