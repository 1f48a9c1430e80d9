//! At which answers a step waits.

ghost use Rattle.std.specs.Prelude.{◌≡◌};
ghost use Rattle.proc_steps.specs.Forms.{begun_handle, is_held, is_not_ready, is_put_off, as_synced};
ghost use Rattle.proc_steps.specs.Forms.{cell_reached, waits_at, word_reached};

use law_traces::ScriptAnswer;
use node_core::Asked;
use node_rules::{Answer, Begun, Local};
use part_barrier::BarrierAnswer;
use part_handlers::LockAnswer;
use part_transfers::{Handle, Synced};
use text_calls::ScheduledCall;

/// Whether a request can't go now.
fn is_put_off(answer: &Answer) -> bool
    ensures { result ≡ is_put_off answer.now }
{
    matches!(answer, Answer::Asked(Asked::NotYet | Asked::LockBusy(_)))
}

/// Whether another one holds the lock.
fn is_held(answer: &Answer) -> bool
    ensures { result ≡ is_held answer.now }
{
    matches!(answer, Answer::Lock(LockAnswer::Held))
}

/// Whether what is synchronised isn't complete.
pub(crate) fn is_not_ready(answer: &Answer) -> bool
    ensures { result ≡ is_not_ready answer.now }
{
    matches!(
        answer,
        Answer::Synced(Synced::NotReady) | Answer::Barrier(BarrierAnswer::NotReady)
    )
}

/// Whether the step of a call waits at this answer of the call.
pub(crate) fn waits_at(call: &ScheduledCall, answer: &Answer) -> bool
    ensures { result ≡ waits_at call.now answer.now }
{
    match call {
        ScheduledCall::Short { .. }
        | ScheduledCall::Medium { .. }
        | ScheduledCall::Long { .. }
        | ScheduledCall::LongAsync { .. }
        | ScheduledCall::Atomic { .. } => is_put_off(answer),
        ScheduledCall::Lock { .. } => is_held(answer),
        _ => false,
    }
}

/// The answer of the step of an `until`, where the number of the cell that was read ends it.
pub(crate) fn reached(value: i32, answer: &Answer) -> Option<ScriptAnswer>
    ensures { result ≡ cell_reached value answer.now }
{
    match answer {
        Answer::Local(Local::Cell(number)) if value <= *number => {
            Some(ScriptAnswer::Call(Answer::Local(Local::Done)))
        }
        _ => None,
    }
}

/// The answer of the step of an `until-word`, where the word that was read, or a refusal of its place, ends it.
pub(crate) fn word_reached(number: u64, answer: &Answer) -> Option<ScriptAnswer>
    ensures { result ≡ word_reached number answer.now }
{
    match answer {
        Answer::Local(Local::Number(found)) if *found == number => {
            Some(ScriptAnswer::Call(Answer::Local(Local::Done)))
        }
        Answer::Local(Local::Number(_)) => None,
        _ => Some(ScriptAnswer::Call(*answer)),
    }
}

/// The handle of what is under way by this answer.
pub(crate) fn begun_handle(answer: &Answer) -> Option<Handle>
    ensures { result ≡ begun_handle answer.now }
{
    match answer {
        Answer::Begun(Begun::Handle(handle)) | Answer::Started(Begun::Handle(handle)) => {
            Some(*handle)
        }
        _ => None,
    }
}

/// The answer of the step of a blocking transfer.
pub(crate) fn as_synced(answer: Answer) -> Answer
    ensures { result ≡ as_synced answer }
{
    match answer {
        Answer::Begun(Begun::Done) => Answer::Synced(Synced::Ok),
        _ => answer,
    }
}
