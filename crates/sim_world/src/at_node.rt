//! The caller at a node of a world.

use crate::{World, WorldAnswer, WorldEvent};
use node_endpoint::{Called, Caller};
use node_rules::Call;
use part_handlers::Handlers;
use part_segment::Segment;

/// A node of a world. What it stands for is the records of all nodes, with the most buffers that each held so far.
#[derive(Drop)]
pub struct AtNode<'a, H: Handlers> {
    /// The world.
    pub world: &'a mut World,
    /// The node.
    pub node: u16,
    /// The handlers that its calls run.
    pub handlers: &'a H,
    /// The time of its calls.
    pub now: u64,
}

impl<'a, H: Handlers> Caller for AtNode<'a, H> {
    ghost use Rattle.std.specs.Prelude.{true};
    ghost use Rattle.sim_world.specs.Stands.{WorldStands};
    ghost use Rattle.sim_world.specs.Wholes.{WorldWhole, whole_then};
    ghost use Rattle.sim_world.specs.Following.{follows_then};

    ghost Whole = { WorldWhole };

    ghost stands = { λ at whole. WorldStands at.world.now whole.records whole.most };

    ghost site = { λ at. record {
      settings = at.world.now.settings;
      table = at.world.now.table;
      meaning = H.meaning at.handlers.now;
      node = at.node;
      now = at.now;
    } };

    ghost record_in = { λ at whole. whole.records at.node };

    ghost after = { whole_then };

    ghost may_lack = { true };

    ghost lent = { λ at. at.world.ghost_name };

    fn call(&mut self, thread: u16, call: &Call<'_>) -> Called {
        let event = WorldEvent::Call {
            node: self.node,
            thread,
            call: *call,
        };
        match self.world.step(self.handlers, self.now, &event) {
            WorldAnswer::Node(answer) => Called::Answer(answer),
            _ => Called::NoMemory,
        }
    }

    fn segment(&self) -> &Segment {
        self.world.endpoint(self.node).segment()
    }

    ghost follows = { follows_then };
}
