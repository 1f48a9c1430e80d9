//! Reading what a thread does in a line.

ghost use Rattle.std.specs.Prelude.{◌≡◌};
ghost use Rattle.base_text.specs.Found.{Reads};
ghost use Rattle.text_steps.specs.ThreadActions.{other_action_at, thread_action_at};
ghost use Rattle.text_steps.specs.ThreadActions.{thread_action_form};

use crate::collectives::{collective_at, collective_form};
use crate::steps::CollectiveText;
use base_text::Miss;
use std::alloc::Global;
use text_calls::{ScheduledCall, Scope, call_at, call_form};
use text_vis::{BoxedVis, vis_at, vis_form};

/// What a thread does in a line.
#[derive(Drop)]
pub enum ThreadAction {
    /// It makes a call.
    Call { call: ScheduledCall },
    /// It begins a transfer of many pieces.
    Vis { vis: BoxedVis },
    /// It makes a call of collectives.
    Collective { call: CollectiveText },
}

/// What a thread does by a line that is no call, and the bytes after it.
fn other_action_at<'a>(
    alloc: Global,
    scope: &Scope,
    bytes: &'a [u8],
) -> Result<(ThreadAction, &'a [u8]), Miss>
    ensures { Reads (λ x. (x.0, x.1.now)) result (other_action_at scope.now bytes.now) }
{
    match vis_at(alloc, scope, bytes) {
        Ok((vis, rest)) => Ok((ThreadAction::Vis { vis }, rest)),
        Err(Miss::NoMemory) => Err(Miss::NoMemory),
        Err(Miss::Unlike) => {
            let (call, rest) = collective_at(scope, bytes)?;
            Ok((ThreadAction::Collective { call }, rest))
        }
    }
}

/// What a thread does by a line, and the bytes after it.
#[tactic(auto, unfolding(crate::specs::ThreadActions::thread_action_at))]
#[inline(always)]
pub fn thread_action_at<'a>(
    alloc: Global,
    scope: &Scope,
    bytes: &'a [u8],
) -> Result<(ThreadAction, &'a [u8]), Miss>
    ensures { Reads (λ x. (x.0, x.1.now)) result (thread_action_at scope.now bytes.now) }
{
    match call_at(alloc, scope, bytes) {
        Ok((call, rest)) => Ok((ThreadAction::Call { call }, rest)),
        Err(Miss::NoMemory) => Err(Miss::NoMemory),
        Err(Miss::Unlike) => other_action_at(alloc, scope, bytes),
    }
}

/// Whether bytes have the form of what a thread does by a line.
#[tactic(auto, unfolding(crate::specs::ThreadActions::thread_action_form))]
pub fn thread_action_form(scope: &Scope, bytes: &[u8]) -> bool
    ensures { result ≡ thread_action_form scope.now bytes.now }
{
    call_form(scope, bytes) || vis_form(scope, bytes) || collective_form(scope, bytes)
}
