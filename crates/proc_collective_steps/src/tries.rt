//! The tries of steps that are one call of the node's collectives.

ghost use Rattle.std.specs.Prelude.{◌≡◌, ◌<◌};
ghost use Rattle.proc_collective_steps.specs.Outcomes.{sent_by};
ghost use Rattle.proc_collective_steps.specs.Parts.{start_part, step_part, end_part};
ghost use Rattle.proc_collective_steps.specs.Tries.{AreOf, TriesPart};

use crate::last_answer::LastAnswer;
use law_traces::ScriptAnswer;
use node_collectives::Collectives;
use node_core::SlotRef;
use node_endpoint::Endpoint;
use node_rules::Answer;
use part_collective_area::Shape;
use part_handlers::Handlers;

/// Which thread of the node tries a step, and when.
#[derive(Clone, Copy)]
pub struct AtThread {
    /// The thread.
    pub thread: u16,
    /// The time.
    pub now: u64,
}

/// What a start of a collective says.
#[derive(Clone, Copy)]
pub struct Start {
    /// The kind, the root and how many bytes the node gives.
    pub shape: Shape,
    /// Where these bytes begin.
    pub from: u64,
}

/// How the try of such a step went.
#[derive(Clone, Copy)]
pub struct PartTried {
    /// The slot of the message that it sent, if it sent one.
    pub sent: Option<SlotRef>,
    /// The answer of the step, where the try ended it.
    pub ended: Option<ScriptAnswer>,
    /// It may have changed how far the node's collectives are. Where it didn't say so, it left them.
    pub moved: bool,
}

/// The slot of the message that the call of this answer sent.
pub(crate) fn sent_by(last: &Option<Answer>) -> Option<SlotRef>
    ensures { result ≡ sent_by last.now }
{
    match last {
        Some(answer) => answer.sends(),
        None => None,
    }
}

/// The try of a step that starts the next phase.
pub fn try_start<H: Handlers>(
    endpoint: &mut Endpoint,
    handlers: &H,
    collectives: &mut Collectives,
    at: AtThread,
    asked: Start,
) -> PartTried
    requires thread { at.thread < endpoint.old.core.settings.threads }
    requires of { AreOf endpoint.old.core collectives.old }
    ensures { TriesPart (H.meaning handlers.now) at
        (record { endpoint = endpoint.old; collectives = collectives.old })
        (λ here. start_part here asked.shape asked.from) result
        (record { endpoint = endpoint.new; collectives = collectives.new }) }
{
    let mut caller = LastAnswer {
        endpoint,
        handlers,
        now: at.now,
        last: None,
    };
    let answer = collectives.start(&mut caller, at.thread, asked.shape, asked.from);
    PartTried {
        sent: sent_by(&caller.last),
        ended: Some(ScriptAnswer::Start(answer)),
        moved: true,
    }
}

/// The try of a step that sends the phase that is open on.
pub fn try_step<H: Handlers>(
    endpoint: &mut Endpoint,
    handlers: &H,
    collectives: &mut Collectives,
    at: AtThread,
) -> PartTried
    requires thread { at.thread < endpoint.old.core.settings.threads }
    requires of { AreOf endpoint.old.core collectives.old }
    ensures { TriesPart (H.meaning handlers.now) at
        (record { endpoint = endpoint.old; collectives = collectives.old })
        step_part result
        (record { endpoint = endpoint.new; collectives = collectives.new }) }
{
    let mut caller = LastAnswer {
        endpoint,
        handlers,
        now: at.now,
        last: None,
    };
    let answer = collectives.step(&mut caller, at.thread);
    PartTried {
        sent: sent_by(&caller.last),
        ended: Some(ScriptAnswer::Step(answer)),
        moved: true,
    }
}

/// The try of a step that tries to end the phase that is open, with the result at `dest`.
pub fn try_end<H: Handlers>(
    endpoint: &mut Endpoint,
    handlers: &H,
    collectives: &mut Collectives,
    at: AtThread,
    dest: u64,
) -> PartTried
    requires thread { at.thread < endpoint.old.core.settings.threads }
    requires of { AreOf endpoint.old.core collectives.old }
    ensures { TriesPart (H.meaning handlers.now) at
        (record { endpoint = endpoint.old; collectives = collectives.old })
        (λ here. end_part here dest) result
        (record { endpoint = endpoint.new; collectives = collectives.new }) }
{
    let mut caller = LastAnswer {
        endpoint,
        handlers,
        now: at.now,
        last: None,
    };
    let answer = collectives.try_end(&mut caller, at.thread, dest);
    PartTried {
        sent: None,
        ended: Some(ScriptAnswer::End(answer)),
        moved: true,
    }
}
