//! A call of a thread, said so that calls join to lists.

ghost use Rattle.node_endpoint.specs.Making.{MakesOne};
ghost use Rattle.node_endpoint.specs.Sites.{IsThere, called_by};
ghost use Rattle.node_endpoint.specs.EndpointState.{MayBeCalled};

use crate::caller::{Called, Caller};
use crate::{Answer, Call};

/// Makes a call of a thread of the caller's node. `None` where memory ran out; then nothing was changed.
pub fn make_call<K: Caller>(caller: &mut K, thread: u16, call: &Call<'_>) -> Option<Answer>
    requires there { IsThere (K.site caller.old) }
    requires called { MayBeCalled (K.site caller.old).settings thread call.now }
    ensures { MakesOne K.Caller caller.old (called_by thread call.now) result caller.new }
{
    match caller.call(thread, call) {
        Called::Answer(answer) => Some(answer),
        Called::NoMemory => None,
    }
}
