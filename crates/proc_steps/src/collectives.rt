//! The tries of steps that run the collectives of their node.

ghost use Rattle.std.specs.Prelude.{◌≡◌, ◌<◌};
ghost use Rattle.std.specs.Prelude.{Some};
ghost use Rattle.proc_collective_steps.specs.Tries.{AreOf, TriesPart};
ghost use Rattle.proc_steps.specs.Forms.{call_part, collective_form, whole_form};
ghost use Rattle.proc_steps.specs.Tries.{AreThere, TriesFound, no_collectives, of_part};

use crate::trial::{Trial, Tried};
use law_traces::ScriptAnswer;
use node_collectives::{Collectives, StepAnswer};
use node_endpoint::Endpoint;
use node_rules::Answer;
use part_handlers::Handlers;
use proc_collective_steps::{
    AtThread, PartTried, Start, begin_whole, go_on_whole, try_end, try_start, try_step,
};
use text_steps::CollectiveText;

/// A whole collective.
#[derive(Clone, Copy)]
pub(crate) struct WholeText {
    /// Its start.
    pub start: Start,
    /// Where its result goes.
    pub dest: u64,
}

impl Trial<'_> {
    /// Which thread tries the step, and when.
    fn at(&self) -> AtThread
        ensures { result ≡ record { thread = self.now.thread; now = self.now.time } }
    {
        AtThread {
            thread: self.thread,
            now: self.time,
        }
    }
}

impl Tried {
    /// So the try of a step went that runs collectives. `began` is the answer with which the step began, by this try or
    /// an earlier one.
    fn of_part(part: &PartTried, began: Option<Answer>) -> Tried
        ensures { result ≡ of_part part.now began }
    {
        Tried {
            sent: part.sent,
            ended: part.ended,
            began: if part.moved && part.ended.is_none() {
                began
            } else {
                None
            },
        }
    }

    /// A node without collectives has nothing to do.
    fn nothing_there() -> Tried
        ensures { result ≡ no_collectives }
    {
        Tried {
            sent: None,
            ended: Some(ScriptAnswer::Step(StepAnswer::Nothing)),
            began: None,
        }
    }
}

/// One call of the node's collectives.
fn try_part<H: Handlers>(
    endpoint: &mut Endpoint,
    handlers: &H,
    collectives: &mut Collectives,
    at: AtThread,
    call: CollectiveText,
) -> PartTried
    requires thread { at.thread < endpoint.old.core.settings.threads }
    requires of { AreOf endpoint.old.core collectives.old }
    ensures { TriesPart (H.meaning handlers.now) at
        (record { endpoint = endpoint.old; collectives = collectives.old })
        (call_part call) result
        (record { endpoint = endpoint.new; collectives = collectives.new }) }
{
    match call {
        CollectiveText::Start { shape, from } => {
            try_start(endpoint, handlers, collectives, at, Start { shape, from })
        }
        CollectiveText::Step => try_step(endpoint, handlers, collectives, at),
        CollectiveText::Try { dest } => try_end(endpoint, handlers, collectives, at, dest),
    }
}

/// The try of a step that is one call of the node's collectives.
pub(crate) fn try_collective<H: Handlers>(
    endpoint: &mut Endpoint,
    handlers: &H,
    collectives: &mut Option<Collectives>,
    trial: &Trial<'_>,
    call: CollectiveText,
) -> Tried
    requires thread { trial.now.thread < endpoint.old.core.settings.threads }
    requires there { AreThere endpoint.old collectives.old }
    ensures tries { TriesFound (H.meaning handlers.now)
        (record { endpoint = endpoint.old; collectives = collectives.old }) trial.now
        (collective_form call) result
        (record { endpoint = endpoint.new; collectives = collectives.new }) }
    ensures there { AreThere endpoint.new collectives.new }
{
    match collectives {
        Some(it) => {
            let part = try_part(endpoint, handlers, it, trial.at(), call);
            Tried::of_part(&part, None)
        }
        None => Tried::nothing_there(),
    }
}

/// A try of a whole collective, by whether an earlier one began it.
fn whole_part<H: Handlers>(
    endpoint: &mut Endpoint,
    handlers: &H,
    collectives: &mut Collectives,
    trial: &Trial<'_>,
    text: WholeText,
) -> Tried
    requires thread { trial.now.thread < endpoint.old.core.settings.threads }
    requires of { AreOf endpoint.old.core collectives.old }
    ensures tries { TriesFound (H.meaning handlers.now)
        (record { endpoint = endpoint.old; collectives = Some collectives.old }) trial.now
        (whole_form text.start.shape text.start.from text.dest) result
        (record { endpoint = endpoint.new; collectives = Some collectives.new }) }
    ensures there { AreOf endpoint.new.core collectives.new }
{
    match trial.began {
        None => {
            let (part, first) = begin_whole(
                endpoint,
                handlers,
                collectives,
                trial.at(),
                text.start,
            );
            Tried::of_part(&part, first)
        }
        Some(first) => {
            let part = go_on_whole(endpoint, handlers, collectives, trial.at(), text.dest);
            Tried::of_part(&part, Some(first))
        }
    }
}

/// The try of a step that runs a whole collective.
pub(crate) fn try_whole<H: Handlers>(
    endpoint: &mut Endpoint,
    handlers: &H,
    collectives: &mut Option<Collectives>,
    trial: &Trial<'_>,
    text: WholeText,
) -> Tried
    requires thread { trial.now.thread < endpoint.old.core.settings.threads }
    requires there { AreThere endpoint.old collectives.old }
    ensures tries { TriesFound (H.meaning handlers.now)
        (record { endpoint = endpoint.old; collectives = collectives.old }) trial.now
        (whole_form text.start.shape text.start.from text.dest) result
        (record { endpoint = endpoint.new; collectives = collectives.new }) }
    ensures there { AreThere endpoint.new collectives.new }
{
    match collectives {
        Some(it) => whole_part(endpoint, handlers, it, trial, text),
        None => Tried::nothing_there(),
    }
}
