//! What C holds of a node's collectives.

ghost use Rattle.std.specs.Prelude.{◌≡◌, Some, None, IsSome, true, false};

use crate::collectives_place::CollectivesPlace;
use base_box::RawBox;
use node_collectives::Collectives;
use std::alloc::Global;
use std::mem::replace;

/// What C holds of a node's collectives: `gasnet_c_collectives`. It is dead or whole, as `Handle` is.
#[repr(C)]
#[derive(Drop)]
pub struct CollectivesHandle {
    /// Whether collectives are in their place.
    pub live: bool,
    /// Their place.
    pub place: CollectivesPlace,
}

/// Takes the collectives out.
pub fn collectives_taken(handle: &mut CollectivesHandle, alloc: Global) -> Box<Collectives, Global>
    requires { IsSome handle.old.place.held }
    ensures value { handle.old.place.held ≡ Some result.value }
    ensures empty { handle.new.place.held ≡ None }
    ensures live { handle.new.live ≡ false }
{
    handle.live = false;
    replace(&mut handle.place, CollectivesPlace::empty())
        .into_raw()
        .into_box(alloc)
}

/// Puts collectives in.
pub fn put_collectives(handle: &mut CollectivesHandle, collectives: Box<Collectives, Global>)
    ensures value { handle.new.place.held ≡ Some collectives.value }
    ensures live { handle.new.live ≡ true }
{
    handle.place = CollectivesPlace::of(RawBox::of(collectives));
    handle.live = true;
}
