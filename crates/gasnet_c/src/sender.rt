//! The caller at a node whose datagrams C sends.

ghost use Rattle.std.specs.Prelude.{◌≡◌, refl};

use crate::serving::OwnHandlers;
use node_core::SlotRef;
use node_endpoint::{Called, Caller, Endpoint};
use node_rules::{Call, Event};
use part_segment::Segment;

/// The node of an endpoint, whose calls run the library's own handlers. What it stands for is the record of that node,
/// with the slot of the datagram that its last call sends. It never lacks memory.
#[derive(Drop)]
pub struct Sender<'a> {
    /// The endpoint.
    pub endpoint: &'a mut Endpoint,
    /// The time of its calls.
    pub now: u64,
    /// The slot of the datagram that its last call sends; none where that sends none, or none was made.
    pub sends: Option<SlotRef>,
}

impl<'a> Caller for Sender<'a> {
    ghost use Rattle.std.specs.Prelude.{false};
    ghost use Rattle.node_endpoint.specs.EndpointState.{EndpointStands};
    ghost use Rattle.gasnet_c.specs.OwnHandlers.{serving};
    ghost use Rattle.gasnet_c.specs.SenderWholes.{SenderWhole, sender_then};

    ghost Whole = { SenderWhole };

    ghost stands = { λ at whole. EndpointStands at.endpoint.now whole.node
        × (at.sends ≡ whole.sends) };

    ghost site = { λ at. record {
      settings = at.endpoint.now.core.settings;
      table = at.endpoint.now.core.table;
      meaning = serving;
      node = at.endpoint.now.core.me;
      now = at.now;
    } };

    ghost record_in = { λ at whole. whole.node };

    ghost after = { sender_then };

    ghost may_lack = { false };

    ghost lent = { λ at. at.endpoint.ghost_name };

    fn call(&mut self, thread: u16, call: &Call<'_>) -> Called {
        let event = Event::Call {
            thread,
            call: *call,
        };
        let answer = self.endpoint.step(&OwnHandlers, self.now, &event);
        self.sends = answer.sends();
        Called::Answer(answer)
    }

    fn segment(&self) -> &Segment {
        self.endpoint.segment()
    }

    ghost follows = { λ at whole call. refl };
}
