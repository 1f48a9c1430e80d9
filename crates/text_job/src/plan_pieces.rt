//! How many pieces the plans of a job have.

ghost use Rattle.std.specs.Prelude.{◌≡◌, ◌≤◌, ◌+◌, nat_lt};
ghost use Rattle.text_job.specs.PlanPieces.{event_pieces, most_pieces};
ghost use Rattle.text_job.specs.StepPieces.{step_pieces};

use text_steps::{ScheduledEvent, ScriptStep};

/// The most pieces of all plans of a job.
const PIECES: usize = 65_536;

/// The pieces of the plan of an event.
pub fn event_pieces(event: &ScheduledEvent) -> usize
    ensures { result ≡ event_pieces event.now }
{
    match event {
        ScheduledEvent::Vis { vis, .. } => vis.text().plan.pieces(),
        _ => 0,
    }
}

/// The pieces of the plan of a step.
pub fn step_pieces(step: &ScriptStep) -> usize
    ensures { result ≡ step_pieces step.now }
{
    match step {
        ScriptStep::Vis { vis } => vis.text().plan.pieces(),
        _ => 0,
    }
}

/// Whether so many pieces are too many with so many more.
#[tactic(auto, using(crate::proofs::PlanPieces::too_many))]
pub fn are_too_many_pieces(pieces: usize, more: usize) -> bool
    requires { pieces ≤ PIECES }
    ensures { result ≡ nat_lt most_pieces (pieces + more) }
{
    PIECES - pieces < more
}
