//! What a step of a script is answered.

use node_collectives::{EndAnswer, StartAnswer, StepAnswer};
use node_rules::Answer;
use node_vis::Vis;

/// What a step of a script is answered.
#[derive(Clone, Copy)]
pub enum ScriptAnswer {
    /// The answer of its call, or what the step makes of that.
    Call(Answer),
    /// How the transfer of many pieces began.
    Vis(Vis),
    /// How the next collective of the node started.
    Start(StartAnswer),
    /// How the node's collective went on.
    Step(StepAnswer),
    /// How the try to end the node's collective went.
    End(EndAnswer),
}
