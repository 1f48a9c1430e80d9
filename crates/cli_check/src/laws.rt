//! What holds of the run that traces are, beside what `RunOfTraces` says.

ghost use Rattle.cli_check.specs.JobLaws.{PlansHold};

/// Carries the law of plans, for the check alone: it has no code. Where traces are a run of the world (`RunOfTraces`),
/// that is a run with the job's settings and handlers, and the law speaks of each of these.
pub fn plans_law()
    // In every run of a job each pair of a plan's bytes is transferred once, where its pieces were synchronised.
    ensures plans { PlansHold }
{}
