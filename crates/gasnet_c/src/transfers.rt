//! Transfers between segments.

ghost use Rattle.std.specs.Prelude.{◌≡◌, []};
ghost use Rattle.part_handlers.specs.Runs.{Meaning};
ghost use Rattle.node_rules.specs.declared.call.Call.TheVariants as call;
ghost use Rattle.node_rules.specs.declared.call.Event.TheVariants as event;
ghost use Rattle.gasnet_c.specs.Calls.{moved_call, transfer_of};
ghost use Rattle.gasnet_c.specs.Telling.{Tells};
ghost use Rattle.gasnet_c.specs.Whole.{AsksNone, IsForOne, IsWhole};

use crate::handle::Handle;
use crate::stepping::called;
use crate::told::Told;
use node_rules::Call;
use part_transfers::{Handle as Operation, Transfer};
use std::alloc::Global;

/// A transfer: `gasnet_c_move`. Offsets and lengths are in bytes.
#[repr(C)]
#[derive(Clone, Copy, Drop)]
pub struct Move {
    /// Where the target's range begins in its segment.
    pub remote: u64,
    /// Where the local range begins in the local segment; not read of a memset.
    pub local: u64,
    /// How many bytes each range has.
    pub len: u64,
    /// 0 for a put, 1 for a get, else a memset.
    pub kind: u32,
    /// The target.
    pub to: u16,
    /// What a memset writes.
    pub byte: u8,
}

/// What is transferred.
fn transfer_of(what: &Move) -> Transfer
    ensures { result ≡ transfer_of what.now }
{
    match what.kind {
        0 => Transfer::Put {
            to: what.to,
            remote: what.remote,
            local: what.local,
            len: what.len,
        },
        1 => Transfer::Get {
            to: what.to,
            remote: what.remote,
            local: what.local,
            len: what.len,
        },
        _ => Transfer::Memset {
            to: what.to,
            remote: what.remote,
            len: what.len,
            byte: what.byte,
        },
    }
}

/// A transfer as a call.
fn moved_call(what: &Move) -> Call<'static>
    ensures call { result ≡ moved_call what.now }
    ensures may { IsForOne (event.Call 0 result) }
    ensures asks_none { AsksNone result }
{
    Call::Begin {
        reg: None,
        transfer: transfer_of(what),
    }
}

/// Begins a transfer. It is `GASNET_C_HANDLE`, and its handle is told; or `GASNET_C_DONE` where it has no bytes or its
/// target is the local node, `GASNET_C_TOO_MANY` where `GASNET_C_OPERATIONS` stand, and `GASNET_C_BAD` where the target
/// or a range is bad; of the last two nothing happened. Its chunks are sent by `gasnet_c_tick`: a chunk of a put is
/// read out of the local segment by the tick that sends it.
#[unsafe(no_mangle)]
pub extern "C" fn gasnet_c_begin(alloc: Global, handle: &mut Handle, now: u64, what: &Move) -> Told
    requires { IsWhole handle.old }
    ensures whole { IsWhole handle.new }
    ensures tells { (meaning : Meaning) → Tells meaning handle.old.place.held now
        (event.Call 0 (moved_call what.now)) result [] handle.new.place.held }
{
    called(alloc, handle, now, moved_call(what))
}

/// Tries to synchronise the operation with this handle. It is `GASNET_C_OK`, and the handle is used up;
/// `GASNET_C_NOT_READY`; `GASNET_C_EXHAUSTED` where it never will be; or `GASNET_C_BAD` where nothing has the handle.
#[unsafe(no_mangle)]
pub extern "C" fn gasnet_c_sync(alloc: Global, handle: &mut Handle, now: u64, serial: u64) -> Told
    requires { IsWhole handle.old }
    ensures whole { IsWhole handle.new }
    ensures tells { (meaning : Meaning) → Tells meaning handle.old.place.held now
        (event.Call 0 (call.SyncHandle (record { serial = serial }))) result []
        handle.new.place.held }
{
    let call = Call::SyncHandle {
        handle: Operation { serial },
    };
    called(alloc, handle, now, call)
}
