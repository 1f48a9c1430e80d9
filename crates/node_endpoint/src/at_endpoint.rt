//! The caller at an endpoint.

ghost use Rattle.std.specs.Prelude.{◌≡◌, refl};

use crate::caller::{Called, Caller};
use crate::{Call, Endpoint, Event};
use part_handlers::Handlers;
use part_segment::Segment;

/// The node of an endpoint. What it stands for is the record of that node, and it never lacks memory.
#[derive(Drop)]
pub struct AtEndpoint<'a, H: Handlers> {
    /// The endpoint.
    pub endpoint: &'a mut Endpoint,
    /// The handlers that its calls run.
    pub handlers: &'a H,
    /// The time of its calls.
    pub now: u64,
}

impl<'a, H: Handlers> Caller for AtEndpoint<'a, H> {
    ghost use Rattle.std.specs.Prelude.{false};
    ghost use Rattle.spec_node.specs.Record.{Node};
    ghost use Rattle.node_rules.specs.EndpointLocal.{EndpointLocal};
    ghost use Rattle.node_endpoint.specs.EndpointState.{EndpointStands};
    ghost use Rattle.node_endpoint.specs.Sites.{node_then};

    ghost Whole = { Node EndpointLocal };

    ghost stands = { λ at node. EndpointStands at.endpoint.now node };

    ghost site = { λ at. record {
      settings = at.endpoint.now.core.settings;
      table = at.endpoint.now.core.table;
      meaning = H.meaning at.handlers.now;
      node = at.endpoint.now.core.me;
      now = at.now;
    } };

    ghost record_in = { λ at node. node };

    ghost after = { node_then };

    ghost may_lack = { false };

    ghost lent = { λ at. at.endpoint.ghost_name };

    fn call(&mut self, thread: u16, call: &Call<'_>) -> Called {
        let event = Event::Call {
            thread,
            call: *call,
        };
        Called::Answer(self.endpoint.step(self.handlers, self.now, &event))
    }

    fn segment(&self) -> &Segment {
        self.endpoint.segment()
    }

    ghost follows = { λ at node call. refl };
}
