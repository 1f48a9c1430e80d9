//! The caller at a node of a group.

use crate::group::Group;
use node_endpoint::{Called, Caller};
use node_rules::Call;
use part_handlers::Handlers;
use part_segment::Segment;
use sim_world::{WorldAnswer, WorldEvent};

/// A node of a group. What it stands for is the group of the laws, with the most buffers that each node held so far.
/// Its calls leave the collectives as they are.
#[derive(Drop)]
pub struct AtGroup<'a, H: Handlers> {
    /// The group.
    pub group: &'a mut Group,
    /// The node.
    pub node: u16,
    /// The handlers that its calls run.
    pub handlers: &'a H,
    /// The time of its calls.
    pub now: u64,
}

impl<'a, H: Handlers> Caller for AtGroup<'a, H> {
    ghost use Rattle.std.specs.Prelude.{true};
    ghost use Rattle.sim_group.specs.Standing.{StandsFor};
    ghost use Rattle.sim_group.specs.Wholes.{GroupWhole, follows_in, group_then};

    ghost Whole = { GroupWhole };

    ghost stands = { λ at whole. StandsFor at.group.now whole.area whole.group whole.most };

    ghost site = { λ at. record {
      settings = at.group.now.world.settings;
      table = at.group.now.world.table;
      meaning = H.meaning at.handlers.now;
      node = at.node;
      now = at.now;
    } };

    ghost record_in = { λ at whole. whole.group.records at.node };

    ghost after = { group_then };

    ghost may_lack = { true };

    ghost lent = { λ at. at.group.ghost_name };

    fn call(&mut self, thread: u16, call: &Call<'_>) -> Called {
        let event = WorldEvent::Call {
            node: self.node,
            thread,
            call: *call,
        };
        match self.group.event(self.handlers, self.now, &event) {
            WorldAnswer::Node(answer) => Called::Answer(answer),
            _ => Called::NoMemory,
        }
    }

    fn segment(&self) -> &Segment {
        self.group.world().endpoint(self.node).segment()
    }

    ghost follows = { follows_in };
}
