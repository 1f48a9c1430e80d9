//! The tries of a step that runs a whole collective: its start, and then its steps and its tries to end.

ghost use Rattle.std.specs.Prelude.{◌≡◌, ◌<◌, ◌&&◌};
ghost use Rattle.std.specs.Option.{option_map};
ghost use Rattle.node_endpoint.specs.EndpointState.{ForItsRecord};
ghost use Rattle.proc_collective_steps.specs.Outcomes.{is_nothing, is_started, start_ends, step_ends, try_ends};
ghost use Rattle.proc_collective_steps.specs.Parts.{first_part, later_part};
ghost use Rattle.proc_collective_steps.specs.Tries.{AreOf, TriesPart, context_at, first_of, went_on};

use crate::last_answer::LastAnswer;
use crate::tries::{AtThread, PartTried, Start, sent_by};
use law_traces::ScriptAnswer;
use node_collectives::{Collectives, EndAnswer, StartAnswer, StepAnswer};
use node_core::SlotRef;
use node_endpoint::Endpoint;
use node_rules::Answer;
use part_handlers::Handlers;

/// The answer of the step, where its start ends it: the phase isn't started, and the start waits for no lock.
fn start_said(answer: StartAnswer) -> Option<ScriptAnswer>
    ensures { result ≡ option_map (λ one. ScriptAnswer.Start one) (start_ends answer) }
{
    match answer {
        StartAnswer::Started | StartAnswer::LockBusy(_) => None,
        _ => Some(ScriptAnswer::Start(answer)),
    }
}

/// Whether the phase is started.
fn is_started(answer: StartAnswer) -> bool
    ensures { result ≡ is_started answer }
{
    matches!(answer, StartAnswer::Started)
}

/// The answer of the collective, where a step ends it.
fn step_ends(answer: StepAnswer) -> Option<StepAnswer>
    ensures { result ≡ step_ends answer }
{
    match answer {
        StepAnswer::Forbidden(_) | StepAnswer::NoMemory => Some(answer),
        _ => None,
    }
}

/// Whether a step changed nothing where the phase isn't ended: it sent nothing, and no mark of a node was there.
fn is_quiet(answer: StepAnswer, unexhausted: bool) -> bool
    ensures { result ≡ (is_nothing answer && unexhausted) }
{
    matches!(answer, StepAnswer::Nothing) && unexhausted
}

/// The answer of the collective, where a try to end ends it.
fn try_ends(answer: EndAnswer) -> Option<EndAnswer>
    ensures { result ≡ try_ends answer }
{
    match answer {
        EndAnswer::NotReady => None,
        _ => Some(answer),
    }
}

/// The first try of a whole collective, which makes its start alone. Beside how it went stands the answer of its call.
pub fn begin_whole<H: Handlers>(
    endpoint: &mut Endpoint,
    handlers: &H,
    collectives: &mut Collectives,
    at: AtThread,
    asked: Start,
) -> (PartTried, Option<Answer>)
    requires thread { at.thread < endpoint.old.core.settings.threads }
    requires of { AreOf endpoint.old.core collectives.old }
    ensures tries { TriesPart (H.meaning handlers.now) at
        (record { endpoint = endpoint.old; collectives = collectives.old })
        (λ here. first_part here asked.shape asked.from) result.0
        (record { endpoint = endpoint.new; collectives = collectives.new }) }
    ensures first { ForItsRecord endpoint.old (λ node.
        let here = context_at (H.meaning handlers.now) endpoint.old at in
        result.1 ≡ first_of here
        (first_part here asked.shape asked.from node collectives.old) node) }
{
    let mut caller = LastAnswer {
        endpoint,
        handlers,
        now: at.now,
        last: None,
    };
    let answer = collectives.start(&mut caller, at.thread, asked.shape, asked.from);
    let tried = PartTried {
        sent: sent_by(&caller.last),
        ended: start_said(answer),
        moved: is_started(answer),
    };
    (tried, caller.last)
}

/// How a later try went whose step didn't end the collective, and whose try to end was answered so. `quiet` says that
/// the step changed nothing.
fn went_on(sent: Option<SlotRef>, quiet: bool, answer: EndAnswer) -> PartTried
    ensures { result ≡ went_on sent quiet answer }
{
    match try_ends(answer) {
        Some(end) => PartTried {
            sent,
            ended: Some(ScriptAnswer::End(end)),
            moved: true,
        },
        None => PartTried {
            sent,
            ended: None,
            moved: !quiet,
        },
    }
}

/// A later try of a whole collective: a step, and a try to end behind it, with the result at `dest`.
pub fn go_on_whole<H: Handlers>(
    endpoint: &mut Endpoint,
    handlers: &H,
    collectives: &mut Collectives,
    at: AtThread,
    dest: u64,
) -> PartTried
    requires thread { at.thread < endpoint.old.core.settings.threads }
    requires of { AreOf endpoint.old.core collectives.old }
    ensures { TriesPart (H.meaning handlers.now) at
        (record { endpoint = endpoint.old; collectives = collectives.old })
        (λ here. later_part here dest) result
        (record { endpoint = endpoint.new; collectives = collectives.new }) }
{
    let unexhausted = collectives.is_unexhausted();
    let mut caller = LastAnswer {
        endpoint,
        handlers,
        now: at.now,
        last: None,
    };
    let answer = collectives.step(&mut caller, at.thread);
    let sent = sent_by(&caller.last);
    if let Some(end) = step_ends(answer) {
        return PartTried {
            sent,
            ended: Some(ScriptAnswer::Step(end)),
            moved: true,
        };
    }
    let quiet = is_quiet(answer, unexhausted);
    let ended = collectives.try_end(&mut caller, at.thread, dest);
    went_on(sent, quiet, ended)
}
