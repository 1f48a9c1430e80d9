//! Collectives over all nodes of a job.

ghost use Rattle.std.specs.Prelude.{◌≡◌, None};
ghost use Rattle.gasnet_c.specs.CollectiveCalls.{AreOfNode, BeginsIn, EndsFor, StartsFor, StepsFor};
ghost use Rattle.gasnet_c.specs.CollectiveCalls.{WhereLive, both, handles};
ghost use Rattle.gasnet_c.specs.Whole.{HasCollectives, IsWhole};

use crate::collective_node::Collective;
use crate::collectives_handle::{CollectivesHandle, collectives_taken, put_collectives};
use crate::handle::{Handle, put, taken};
use crate::told::{DEAD, Told, dead};
use std::alloc::Global;

/// Makes the collectives of a node, of which it has started none. Their area begins at `base` in each segment, and each
/// of its parts has room for `room` bytes of data: it is 2 parts for each node, of 16 and `room` bytes. It answers 0;
/// or 1 where `base` or `room` isn't a multiple of 8, `room` is 0 or above 8,192, or the area passes the end of a
/// segment; 2 for want of memory, 3 where the handle of the collectives is live already, and `GASNET_C_DEAD` where the
/// node's is dead. After it no call of the collectives takes memory.
///
/// C owes that all nodes of the job name one area, into which nothing else writes, and that it uses these collectives
/// with this node alone, and frees them before the node.
#[unsafe(no_mangle)]
pub extern "C" fn gasnet_c_coll_new(
    alloc: Global,
    handle: &mut Handle,
    collectives: &mut CollectivesHandle,
    base: u64,
    room: u64,
) -> u32
    requires whole { IsWhole handle.old }
    requires collectives { HasCollectives collectives.old }
    ensures whole { IsWhole handle.new }
    ensures same { handle.new.place.held ≡ handle.old.place.held }
    ensures collectives { HasCollectives collectives.new }
    ensures begins { BeginsIn handle.old.place.held base room collectives.old.place.held result
        collectives.new.place.held }
{
    if !handle.live {
        return DEAD;
    }
    if collectives.live {
        return 3;
    }
    let node = taken(handle, alloc);
    let begun = node.collectives(base, room);
    put(handle, node);
    let Some(begun) = begun else {
        return 1;
    };
    match Box::new(alloc, begun) {
        Ok(begun) => {
            put_collectives(collectives, begun);
            0
        }
        Err(_) => 2,
    }
}

/// Ends the collectives of a node. Their handle is dead then; a dead one stays as it is. Their memory is given back,
/// which is tested.
#[unsafe(no_mangle)]
pub extern "C" fn gasnet_c_coll_free(alloc: Global, collectives: &mut CollectivesHandle)
    requires { HasCollectives collectives.old }
    ensures whole { HasCollectives collectives.new }
    ensures empty { collectives.new.place.held ≡ None }
{
    if collectives.live {
        drop(collectives_taken(collectives, alloc));
    }
}

/// Starts the node's next collective with the bytes at `from` of its segment. It is `GASNET_C_OK`; or `GASNET_C_BAD`
/// where the one before isn't ended, no kind has the number, the root isn't a node (or isn't 0 for a kind without one),
/// the length is above the room or for a reduction no multiple of 8, or the bytes pass the end of the segment; or
/// `GASNET_C_EXHAUSTED` where all 2^64 - 1 were started. Only where it is `GASNET_C_OK` one is started.
///
/// The bytes are copied: they may be changed after it.
#[unsafe(no_mangle)]
pub extern "C" fn gasnet_c_coll_start(
    alloc: Global,
    handle: &mut Handle,
    collectives: &mut CollectivesHandle,
    now: u64,
    what: &Collective,
) -> Told
    requires whole { IsWhole handle.old }
    requires collectives { HasCollectives collectives.old }
    requires of { AreOfNode (both (handles handle.old collectives.old)) }
    ensures whole { IsWhole handle.new }
    ensures collectives { HasCollectives collectives.new }
    ensures of { AreOfNode (both (handles handle.new collectives.new)) }
    ensures starts { WhereLive (StartsFor now what.now) (handles handle.old collectives.old) result
        (handles handle.new collectives.new) }
{
    if !handle.live || !collectives.live {
        return dead();
    }
    let mut node = taken(handle, alloc);
    let mut begun = collectives_taken(collectives, alloc);
    let told = node.start(&mut begun, now, what);
    put(handle, node);
    put_collectives(collectives, begun);
    told
}

/// Sends the collective that is started to the first node that it wasn't sent to and that can be asked. It is
/// `GASNET_C_ACCEPTED`, and the datagram that is to be sent is told; or `GASNET_C_NOTHING` where it was sent to all
/// others, no other node can be asked now, or none is started.
#[unsafe(no_mangle)]
pub extern "C" fn gasnet_c_coll_step(
    alloc: Global,
    handle: &mut Handle,
    collectives: &mut CollectivesHandle,
    now: u64,
    buffer: &mut [u8],
) -> Told
    requires whole { IsWhole handle.old }
    requires collectives { HasCollectives collectives.old }
    requires of { AreOfNode (both (handles handle.old collectives.old)) }
    ensures whole { IsWhole handle.new }
    ensures collectives { HasCollectives collectives.new }
    ensures of { AreOfNode (both (handles handle.new collectives.new)) }
    ensures steps { WhereLive (StepsFor now buffer.new) (handles handle.old collectives.old) result
        (handles handle.new collectives.new) }
{
    if !handle.live || !collectives.live {
        return dead();
    }
    let mut node = taken(handle, alloc);
    let mut begun = collectives_taken(collectives, alloc);
    let told = node.step(&mut begun, now, buffer);
    put(handle, node);
    put_collectives(collectives, begun);
    told
}

/// Tries to end the collective that is started. It is `GASNET_C_OK` where it ends, and the node's result stands at
/// `dest`; `GASNET_C_MISMATCH` where it ends without one, as the node that is told, the first of these, started it with
/// another kind, root or length; `GASNET_C_NOT_READY`; `GASNET_C_EXHAUSTED` where it isn't ready, and no numbers are
/// left for the node that is told; or `GASNET_C_BAD` where none is started, or the result's place passes the end of the
/// segment, shares a byte with the area, or is that of words that this node has and isn't a multiple of 8.
///
/// Deliveries bring what the other nodes give: C makes them between two tries.
#[unsafe(no_mangle)]
pub extern "C" fn gasnet_c_coll_end(
    alloc: Global,
    handle: &mut Handle,
    collectives: &mut CollectivesHandle,
    now: u64,
    dest: u64,
) -> Told
    requires whole { IsWhole handle.old }
    requires collectives { HasCollectives collectives.old }
    requires of { AreOfNode (both (handles handle.old collectives.old)) }
    ensures whole { IsWhole handle.new }
    ensures collectives { HasCollectives collectives.new }
    ensures of { AreOfNode (both (handles handle.new collectives.new)) }
    ensures ends { WhereLive (EndsFor now dest) (handles handle.old collectives.old) result
        (handles handle.new collectives.new) }
{
    if !handle.live || !collectives.live {
        return dead();
    }
    let mut node = taken(handle, alloc);
    let mut begun = collectives_taken(collectives, alloc);
    let told = node.try_end(&mut begun, now, dest);
    put(handle, node);
    put_collectives(collectives, begun);
    told
}
