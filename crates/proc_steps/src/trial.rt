//! The try of a step, and how it went.

use law_traces::ScriptAnswer;
use node_core::SlotRef;
use node_rules::Answer;
use text_steps::ScriptStep;

/// A try of a step of a thread's script.
#[derive(Clone, Copy)]
pub struct Trial<'a> {
    /// When it is tried.
    pub time: u64,
    /// The thread whose script has the step.
    pub thread: u16,
    /// The step.
    pub step: &'a ScriptStep,
    /// The answer with which the step began, where an earlier try began it.
    pub began: Option<Answer>,
}

/// How the try of a step went.
#[derive(Clone, Copy)]
pub struct Tried {
    /// The slot of the message that its call sent, if it sent one.
    pub sent: Option<SlotRef>,
    /// The answer of the step, where the try ended it.
    pub ended: Option<ScriptAnswer>,
    /// The answer with which the step began, where this try began it and didn't end it.
    pub began: Option<Answer>,
}
