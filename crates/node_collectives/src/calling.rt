//! A call of a thread at a caller.

ghost use Rattle.node_endpoint.specs.Sites.{IsThere, called_by};
ghost use Rattle.node_endpoint.specs.EndpointState.{MayBeCalled};
ghost use Rattle.node_collectives.specs.Starts.{CallsOne};

use node_endpoint::{Called, Caller};
use node_rules::{Answer, Call};

/// Makes a call of a thread of the caller's node. None where memory ran out; then nothing was changed.
pub(crate) fn call_one<K: Caller>(caller: &mut K, thread: u16, call: &Call<'_>) -> Option<Answer>
    requires there { IsThere (K.site caller.old) }
    requires called { MayBeCalled (K.site caller.old).settings thread call.now }
    ensures { CallsOne K.Caller caller.old (called_by thread call.now) result caller.new }
{
    match caller.call(thread, call) {
        Called::Answer(answer) => Some(answer),
        Called::NoMemory => None,
    }
}
