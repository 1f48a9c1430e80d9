//! How the nodes of a job ended, and their traces alone.

ghost use Rattle.std.specs.Prelude.{◌≡◌, ◌≤◌, ◌^◌, IfOk, MatchOption, length};
ghost use Rattle.cli_check.specs.CheckInputs.{traces_in};
ghost use Rattle.cli_check.specs.Statuses.{AreOver, IsFirstFailed, is_over};

use std::alloc::{AllocError, Global};
use text_trace::{NodeStatus, Output, Trace};

/// A node that ended with a status other than 0 and 1.
#[derive(Clone, Copy)]
pub struct Failed {
    /// Its rank.
    pub rank: u16,
    /// Its status.
    pub code: u8,
}

/// Whether all scripts of a node came to their ends.
fn is_over(status: NodeStatus) -> bool
    ensures { result ≡ is_over status }
{
    match status {
        NodeStatus::Ok | NodeStatus::Violations => true,
        NodeStatus::LinkFault | NodeStatus::Stuck | NodeStatus::JournalFull => false,
    }
}

/// The node of the smallest rank that ended with a status other than 0 and 1, if one did.
pub fn first_failed(outputs: &[Output]) -> Option<Failed>
    requires { length outputs.now ≤ 2 ^ 16 }
    ensures { MatchOption result (AreOver outputs.now)
        (λ failed. IsFirstFailed outputs.now failed.rank failed.code) }
{
    for (rank, output) in outputs.iter().enumerate() {
        if !is_over(output.status) {
            return Some(Failed {
                rank: rank as u16,
                code: output.status.code(),
            });
        }
    }
    None
}

/// The traces of the outputs.
pub fn traces_of(alloc: Global, outputs: Vec<Output>) -> Result<Vec<Trace>, AllocError>
    ensures { IfOk result (λ traces. traces.items ≡ traces_in outputs.items) }
{
    let mut traces = Vec::with_capacity(alloc, outputs.len())?;
    for output in outputs {
        traces.push(output.trace)?;
    }
    Ok(traces)
}
