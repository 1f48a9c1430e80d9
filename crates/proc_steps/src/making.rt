//! The call of a try, and how a try went by its answer.

ghost use Rattle.std.specs.Prelude.{◌≡◌, None, Some};
ghost use Rattle.law_traces.specs.Actions.{unless};
ghost use Rattle.node_rules.specs.Called.{meant};
ghost use Rattle.node_rules.specs.Sends.{sends};
ghost use Rattle.node_endpoint.specs.EndpointState.{ForItsRecord, MayBeCalled};
ghost use Rattle.proc_steps.specs.Forms.{is_sent};
ghost use Rattle.proc_steps.specs.Tries.{Makes, made_by};

use crate::answers::begun_handle;
use crate::trial::{Trial, Tried};
use law_traces::ScriptAnswer;
use node_endpoint::Endpoint;
use node_rules::{Answer, Call, Event};
use part_handlers::Handlers;

/// The call of a try.
pub(crate) fn make<H: Handlers>(
    endpoint: &mut Endpoint,
    handlers: &H,
    trial: &Trial<'_>,
    call: &Call<'_>,
) -> Answer
    requires { MayBeCalled endpoint.old.core.settings trial.now.thread call.now }
    ensures { Makes (H.meaning handlers.now) endpoint.old
        (made_by trial.now (meant call.now) result) endpoint.new }
{
    let (thread, call) = (trial.thread, *call);
    endpoint.step(handlers, trial.time, &Event::Call { thread, call })
}

/// Whether no chunk of what began with this answer is unissued.
pub(crate) fn is_sent(endpoint: &Endpoint, first: &Answer) -> bool
    ensures { ForItsRecord endpoint.now (λ node. result ≡ is_sent first.now node) }
{
    match begun_handle(first) {
        Some(handle) => !endpoint.has_unissued(handle),
        None => true,
    }
}

impl Tried {
    /// No call was made, and the step neither ended nor began.
    pub(crate) fn nothing() -> Tried
        ensures { result ≡ record { sent = None; ended = None; began = None } }
    {
        Tried {
            sent: None,
            ended: None,
            began: None,
        }
    }

    /// The call of the try was answered so, and the step ended with that, unless it waits there.
    pub(crate) fn unless(waits: bool, call: &Answer, step: Answer) -> Tried
        ensures { result
            ≡ record { sent = sends call.now; ended = unless waits step; began = None } }
    {
        Tried {
            sent: call.sends(),
            ended: if waits {
                None
            } else {
                Some(ScriptAnswer::Call(step))
            },
            began: None,
        }
    }

    /// The call of the try was answered so, and the step began with that.
    pub(crate) fn begun(call: Answer) -> Tried
        ensures { result ≡ record { sent = sends call; ended = None; began = Some call } }
    {
        Tried {
            sent: call.sends(),
            ended: None,
            began: Some(call),
        }
    }
}
