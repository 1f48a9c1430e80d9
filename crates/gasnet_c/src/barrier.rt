//! The barrier.

ghost use Rattle.std.specs.Prelude.{◌≡◌, []};
ghost use Rattle.part_handlers.specs.Runs.{Meaning};
ghost use Rattle.node_rules.specs.declared.call.Call.TheVariants as call;
ghost use Rattle.node_rules.specs.declared.call.Event.TheVariants as event;
ghost use Rattle.gasnet_c.specs.Telling.{Tells};
ghost use Rattle.gasnet_c.specs.Whole.{IsWhole};

use crate::handle::Handle;
use crate::stepping::called;
use crate::told::Told;
use node_rules::Call;
use std::alloc::Global;

/// Notifies the present phase of the barrier with an identifier. The flags are 0 where it is named, 1 where it is
/// anonymous, and 2 for a mismatch. It is `GASNET_C_OK`, or `GASNET_C_BAD` out of turn. Its notifications are sent by
/// `gasnet_c_tick`.
#[unsafe(no_mangle)]
pub extern "C" fn gasnet_c_notify(
    alloc: Global,
    handle: &mut Handle,
    now: u64,
    id: i32,
    flags: u8,
) -> Told
    requires { IsWhole handle.old }
    ensures whole { IsWhole handle.new }
    ensures tells { (meaning : Meaning) → Tells meaning handle.old.place.held now
        (event.Call 0 (call.Notify id flags)) result [] handle.new.place.held }
{
    called(alloc, handle, now, Call::Notify { id, flags })
}

/// Tries the barrier, with the identifier and flags of the notify. It is `GASNET_C_OK` where the phase is complete, and
/// `GASNET_C_MISMATCH` where it is and the notifies don't match; `GASNET_C_NOT_READY`; `GASNET_C_EXHAUSTED` where it
/// never will be; or `GASNET_C_BAD` out of turn.
#[unsafe(no_mangle)]
pub extern "C" fn gasnet_c_try(
    alloc: Global,
    handle: &mut Handle,
    now: u64,
    id: i32,
    flags: u8,
) -> Told
    requires { IsWhole handle.old }
    ensures whole { IsWhole handle.new }
    ensures tells { (meaning : Meaning) → Tells meaning handle.old.place.held now
        (event.Call 0 (call.TryBarrier id flags)) result [] handle.new.place.held }
{
    called(alloc, handle, now, Call::TryBarrier { id, flags })
}
