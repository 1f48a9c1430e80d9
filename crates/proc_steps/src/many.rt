//! The try of a step that begins a transfer of many pieces.

ghost use Rattle.std.specs.Prelude.{◌≡◌, ◌<◌, ◌≤◌, length};
ghost use Rattle.proc_steps.specs.Forms.{plan_form};
ghost use Rattle.proc_steps.specs.Tries.{HasBegun, TriesForm, context_here, read_as};

use crate::trial::{Trial, Tried};
use law_traces::ScriptAnswer;
use node_endpoint::{AtEndpoint, Endpoint};
use node_vis::{Plan, Vis};
use part_handlers::Handlers;
use text_vis::VisText;

/// The pieces of a plan that are to be begun, from one on, and the register that gets their handle.
#[derive(Clone, Copy)]
struct Pieces<'a> {
    /// The plan.
    plan: &'a Plan,
    /// The first of them, counted from 0.
    from: usize,
    /// The register.
    reg: u8,
}

/// Begins these pieces in one region of the thread. The caller keeps the reference that it was lent.
fn begin_pieces<H: Handlers>(
    caller: &mut AtEndpoint<'_, H>,
    thread: u16,
    pieces: &Pieces<'_>,
) -> Vis
    requires there { caller.old.endpoint.now.core.me < caller.old.endpoint.now.core.settings.nodes }
    requires thread { thread < caller.old.endpoint.now.core.settings.threads }
    requires from { pieces.now.from ≤ length pieces.now.plan.now.pieces }
    requires settings { pieces.now.plan.now.settings ≡ caller.old.endpoint.now.core.settings }
    ensures same_reference { caller.new.endpoint.ghost_name ≡ caller.old.endpoint.ghost_name }
    ensures begun { HasBegun caller.old.endpoint.now
        (context_here (H.meaning caller.old.handlers.now) caller.old.endpoint.now thread
        caller.old.now)
        (record {
          plan = pieces.now.plan.now;
          thread = thread;
          from = pieces.now.from;
          register = pieces.now.reg;
        }) result caller.new.endpoint.now }
{
    pieces.plan.begin(caller, thread, pieces.from, pieces.reg)
}

/// The try of a step that begins these pieces: it begins them in one region, and ends.
fn try_pieces<H: Handlers>(
    endpoint: &mut Endpoint,
    handlers: &H,
    trial: &Trial<'_>,
    pieces: &Pieces<'_>,
) -> Tried
    requires thread { trial.now.thread < endpoint.old.core.settings.threads }
    requires from { pieces.now.from ≤ length pieces.now.plan.now.pieces }
    requires settings { pieces.now.plan.now.settings ≡ endpoint.old.core.settings }
    ensures { TriesForm (H.meaning handlers.now) endpoint.old
        (read_as trial.now (plan_form pieces.now.plan.now pieces.now.from pieces.now.reg
        (context_here (H.meaning handlers.now) endpoint.old trial.now.thread trial.now.time)))
        result endpoint.new }
{
    let _node = endpoint.me(); // one of the job's, as a plan asks
    let mut caller = AtEndpoint {
        endpoint,
        handlers,
        now: trial.time,
    };
    let answer = begin_pieces(&mut caller, trial.thread, pieces);
    Tried {
        sent: None,
        ended: Some(ScriptAnswer::Vis(answer)),
        began: None,
    }
}

/// The try of a step that begins a transfer of many pieces.
pub(crate) fn try_vis<H: Handlers>(
    endpoint: &mut Endpoint,
    handlers: &H,
    trial: &Trial<'_>,
    vis: &VisText,
) -> Tried
    requires thread { trial.now.thread < endpoint.old.core.settings.threads }
    requires from { vis.now.words.from ≤ length vis.now.plan.pieces }
    requires settings { vis.now.plan.settings ≡ endpoint.old.core.settings }
    ensures { TriesForm (H.meaning handlers.now) endpoint.old
        (read_as trial.now (plan_form vis.now.plan vis.now.words.from vis.now.words.register
        (context_here (H.meaning handlers.now) endpoint.old trial.now.thread trial.now.time)))
        result endpoint.new }
{
    let pieces = Pieces {
        plan: &vis.plan,
        from: usize::from(vis.words.from),
        reg: vis.words.register,
    };
    try_pieces(endpoint, handlers, trial, &pieces)
}
