//! The try of a step.

ghost use Rattle.std.specs.Prelude.{◌<◌};
ghost use Rattle.proc_steps.specs.Forms.{IsJobStep, waiting_in};
ghost use Rattle.proc_steps.specs.Tries.{AreThere, Tries, TriesFound};

use crate::calls::try_call;
use crate::collectives::{WholeText, try_collective, try_whole};
use crate::many::try_vis;
use crate::trial::{Trial, Tried};
use crate::waiting::try_waiting;
use node_collectives::Collectives;
use node_endpoint::Endpoint;
use part_handlers::Handlers;
use proc_collective_steps::Start;
use text_steps::{ScriptStep, WaitingStep};

/// The try of a step that scripts alone have, by how far the node's collectives are.
fn try_scripted<H: Handlers>(
    endpoint: &mut Endpoint,
    handlers: &H,
    collectives: &mut Option<Collectives>,
    trial: &Trial<'_>,
    step: &WaitingStep,
) -> Tried
    requires thread { trial.now.thread < endpoint.old.core.settings.threads }
    requires there { AreThere endpoint.old collectives.old }
    ensures tries { TriesFound (H.meaning handlers.now)
        (record { endpoint = endpoint.old; collectives = collectives.old }) trial.now
        (waiting_in step.now) result
        (record { endpoint = endpoint.new; collectives = collectives.new }) }
    ensures there { AreThere endpoint.new collectives.new }
{
    match step {
        WaitingStep::Collective { shape, from, dest } => {
            let (shape, from, dest) = (*shape, *from, *dest);
            let start = Start { shape, from };
            try_whole(
                endpoint,
                handlers,
                collectives,
                trial,
                WholeText { start, dest },
            )
        }
        _ => try_waiting(endpoint, handlers, trial, step),
    }
}

/// Tries a step of a thread's script, with the calls of the endpoint that its form makes. `collectives` is how far the
/// node's collectives are, which all its threads run; None where the job has none.
pub fn attempt<H: Handlers>(
    endpoint: &mut Endpoint,
    handlers: &H,
    collectives: &mut Option<Collectives>,
    trial: &Trial<'_>,
) -> Tried
    requires thread { trial.now.thread < endpoint.old.core.settings.threads }
    requires step { IsJobStep endpoint.old.core.settings trial.now.step.now }
    requires there { AreThere endpoint.old collectives.old }
    ensures tries { Tries (H.meaning handlers.now)
        (record { endpoint = endpoint.old; collectives = collectives.old }) trial.now result
        (record { endpoint = endpoint.new; collectives = collectives.new }) }
    ensures there { AreThere endpoint.new collectives.new }
{
    match trial.step {
        ScriptStep::Call { call } => try_call(endpoint, handlers, trial, call),
        ScriptStep::Vis { vis } => try_vis(endpoint, handlers, trial, vis.text()),
        ScriptStep::Collective { call } => {
            try_collective(endpoint, handlers, collectives, trial, *call)
        }
        ScriptStep::Waiting { step } => {
            try_scripted(endpoint, handlers, collectives, trial, step)
        }
    }
}
