//! The place of a node's boxed collectives, as C holds it.

ghost use Rattle.std.specs.Prelude.{◌≡◌, Option, Some, None, IsSome};
ghost use Rattle.node_collectives.specs.CollectivesState.{CollectivesState};
ghost use Rattle.gasnet_c.specs.CollectivesHeld.{collectives_place_owns};

use base_box::RawBox;
use node_collectives::Collectives;
use std::alloc::Global;
use std::marker::{Model, PhantomData, Send};
use std::ptr::null_mut;

/// The place of a node's boxed collectives, or none.
#[repr(C)]
#[derive(Drop)]
pub struct CollectivesPlace {
    at: *mut u8,
    /// What they are, if there are some.
    pub ghost held: { Option CollectivesState },
}

impl Model for CollectivesPlace {
    ghost also_owns = { λ place. collectives_place_owns place.at place.held };
}

// It may go to another thread: nobody else has them, and any thread may give their block back.
unsafe impl Send for CollectivesPlace {}

impl CollectivesPlace {
    /// Nothing is in it.
    pub fn empty() -> CollectivesPlace
        ensures { result.held ≡ None }
    {
        CollectivesPlace { at: null_mut() }
    }

    /// Collectives are in it.
    pub fn of(raw: RawBox<Collectives, Global>) -> CollectivesPlace
        ensures { result.held ≡ Some raw.value }
    {
        let RawBox { at, marker: _ } = raw;
        CollectivesPlace { at: at as *mut u8 }
    }

    /// They come out of it.
    pub fn into_raw(self) -> RawBox<Collectives, Global>
        requires { IsSome self.held }
        ensures { self.held ≡ Some result.value }
    {
        let CollectivesPlace { at } = self;
        RawBox {
            at: at as *mut Collectives,
            marker: PhantomData,
        }
    }
}
