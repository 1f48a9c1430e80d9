//! A caller at an endpoint, which keeps how its last call was answered.

use node_endpoint::{Called, Caller, Endpoint};
use node_rules::{Answer, Call, Event};
use part_handlers::Handlers;
use part_segment::Segment;

/// The node of an endpoint, with the answer of the last call. It never lacks memory.
///
/// What a step of a collective is answered names no slot of a message; the answer of its last call does.
#[derive(Drop)]
pub(crate) struct LastAnswer<'a, H: Handlers> {
    /// The endpoint.
    pub endpoint: &'a mut Endpoint,
    /// The handlers that its calls run.
    pub handlers: &'a H,
    /// The time of its calls.
    pub now: u64,
    /// How the last call was answered, if one was made.
    pub last: Option<Answer>,
}

impl<'a, H: Handlers> Caller for LastAnswer<'a, H> {
    ghost use Rattle.std.specs.Prelude.{false};
    ghost use Rattle.proc_collective_steps.specs.Wholes.{LastWhole, LastStands, after_call, follows_last};

    ghost Whole = { LastWhole };

    ghost stands = { λ at whole. LastStands at.endpoint.now at.last whole };

    ghost site = { λ at. record {
      settings = at.endpoint.now.core.settings;
      table = at.endpoint.now.core.table;
      meaning = H.meaning at.handlers.now;
      node = at.endpoint.now.core.me;
      now = at.now;
    } };

    ghost record_in = { λ at whole. whole.node };

    ghost after = { after_call };

    ghost may_lack = { false };

    ghost lent = { λ at. at.endpoint.ghost_name };

    fn call(&mut self, thread: u16, call: &Call<'_>) -> Called {
        let event = Event::Call {
            thread,
            call: *call,
        };
        let answer = self.endpoint.step(self.handlers, self.now, &event);
        self.last = Some(answer);
        Called::Answer(answer)
    }

    fn segment(&self) -> &Segment {
        self.endpoint.segment()
    }

    ghost follows = { follows_last };
}
