//! The place of a boxed node, as C holds it.

ghost use Rattle.std.specs.Prelude.{◌≡◌, Option, Some, None, IsSome};
ghost use Rattle.node_endpoint.specs.EndpointState.{EndpointState};
ghost use Rattle.gasnet_c.specs.Held.{place_owns};

use crate::node::Node;
use base_box::RawBox;
use std::alloc::Global;
use std::marker::{Model, PhantomData, Send};
use std::ptr::null_mut;

/// The place of a boxed node, or none.
#[repr(C)]
#[derive(Drop)]
pub struct NodePlace {
    at: *mut u8,
    /// What the node is, if there is one.
    pub ghost held: { Option EndpointState },
}

impl Model for NodePlace {
    ghost also_owns = { λ place. place_owns place.at place.held };
}

// It may go to another thread: nobody else has the node, and any thread may give its block back.
unsafe impl Send for NodePlace {}

impl NodePlace {
    /// Nothing is in it.
    pub fn empty() -> NodePlace
        ensures { result.held ≡ None }
    {
        NodePlace { at: null_mut() }
    }

    /// A node is in it.
    pub fn of(raw: RawBox<Node, Global>) -> NodePlace
        ensures { result.held ≡ Some raw.value }
    {
        let RawBox { at, marker: _ } = raw;
        NodePlace { at: at as *mut u8 }
    }

    /// The node comes out of it.
    pub fn into_raw(self) -> RawBox<Node, Global>
        requires { IsSome self.held }
        ensures { self.held ≡ Some result.value }
    {
        let NodePlace { at } = self;
        RawBox {
            at: at as *mut Node,
            marker: PhantomData,
        }
    }
}
