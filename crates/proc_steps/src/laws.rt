//! What holds of the steps that a text can say.

ghost use Rattle.proc_steps.specs.Laws.{StepsFit, WaitingIsCalm};

/// Carries what this crate proves of the steps of a job's text, for the check alone: it has no code.
///
/// `fitting`: what the calls of such steps say and write fits its places, where what the node keeps does. `calm`: a try
/// that neither ends nor begins its step, and sends nothing, leaves the node and its scripts.
pub fn steps_law()
    // The calls of such steps may be made.
    ensures fitting { StepsFit }
    // A try that waits changes nothing.
    ensures calm { WaitingIsCalm }
{}
