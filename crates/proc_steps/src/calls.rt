//! The tries of the calls that a schedule has, too.

ghost use Rattle.std.specs.Prelude.{◌<◌};
ghost use Rattle.text_script.specs.ScheduledCalls.{meant_by};
ghost use Rattle.proc_steps.specs.Forms.{IsJobCall, call_form};
ghost use Rattle.proc_steps.specs.Tries.{TriesForm, read_as};

use crate::answers::waits_at;
use crate::making::make;
use crate::trial::{Trial, Tried};
use node_endpoint::Endpoint;
use part_handlers::Handlers;
use text_calls::ScheduledCall;
use text_script::call_of;

/// The try of such a call: a request and a lock are waited for, each other call is made once.
pub(crate) fn try_call<H: Handlers>(
    endpoint: &mut Endpoint,
    handlers: &H,
    trial: &Trial<'_>,
    call: &ScheduledCall,
) -> Tried
    requires thread { trial.now.thread < endpoint.old.core.settings.threads }
    requires call { IsJobCall call.now }
    ensures { TriesForm (H.meaning handlers.now) endpoint.old
        (read_as trial.now (λ node. call_form call.now (meant_by node.local.core.cells call.now)))
        result endpoint.new }
{
    let mut args = [0; 17];
    let made = call_of(call, endpoint.cells(), &mut args);
    let answer = make(endpoint, handlers, trial, &made);
    Tried::unless(waits_at(call, &answer), &answer, answer)
}
