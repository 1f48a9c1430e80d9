//! What C holds of a node.

ghost use Rattle.std.specs.Prelude.{◌≡◌, Some, None, IsSome, true, false};

use crate::node::Node;
use crate::node_place::NodePlace;
use base_box::RawBox;
use std::alloc::Global;
use std::mem::replace;

/// What C holds of a node: `gasnet_c_node`.
///
/// It is dead or whole: whole where a node is in its place, and `live` says so. C begins with zeros, which is a dead
/// one, and neither copies, reads nor writes it.
#[repr(C)]
#[derive(Drop)]
pub struct Handle {
    /// Whether a node is in its place.
    pub live: bool,
    /// The node's place.
    pub place: NodePlace,
}

/// Takes the node out.
pub fn taken(handle: &mut Handle, alloc: Global) -> Box<Node, Global>
    requires { IsSome handle.old.place.held }
    ensures value { handle.old.place.held ≡ Some result.value }
    ensures empty { handle.new.place.held ≡ None }
    ensures live { handle.new.live ≡ false }
{
    handle.live = false;
    replace(&mut handle.place, NodePlace::empty())
        .into_raw()
        .into_box(alloc)
}

/// Puts a node in.
pub fn put(handle: &mut Handle, node: Box<Node, Global>)
    ensures value { handle.new.place.held ≡ Some node.value }
    ensures live { handle.new.live ≡ true }
{
    handle.place = NodePlace::of(RawBox::of(node));
    handle.live = true;
}
