//! A launch.

ghost use Rattle.std.specs.Prelude.{IfOk};
ghost use Rattle.cli_check.specs.CheckInputs.{HaveTraces};
ghost use Rattle.cli_launch.specs.Children.{spawner_seen};
ghost use Rattle.cli_launch.specs.LaunchEnds.{EndsLaunch};

use crate::children::run_children;
use crate::fault::LaunchFault;
use crate::outputs::{has_failed, outputs_of};
use base_io::Spawner;
use std::alloc::Global;
use text_job::Job;
use text_trace::Output;

/// Starts a child for each node of a job, in rising order of ranks, each with the port of rank 0 and these bytes;
/// finishes all that were started, in the same order; and gives the output of each node.
///
/// # Errors
///
/// `SpawnFault` where a start or a finish failed, which is told before what a child gave; `Child` where a child
/// failed; `NoMemory` where memory ran out.
pub fn launch_nodes<P: Spawner>(
    alloc: Global,
    job: &Job,
    port: u16,
    input: &[u8],
    spawner: &mut P,
) -> Result<Vec<Output>, LaunchFault>
    ensures ends { EndsLaunch (record { job = job.now; port = port; input = input.now })
        (spawner_seen P.Spawner spawner.old) (spawner_seen P.Spawner spawner.new) result }
    ensures traces { IfOk result (λ outputs. HaveTraces job.now outputs.items) }
{
    let nodes = job.settings.nodes();
    let Ok(children) = run_children(alloc, spawner, nodes, port, input) else {
        return Err(LaunchFault::NoMemory);
    };
    if children.len() < usize::from(nodes) || has_failed(&children) {
        return Err(LaunchFault::SpawnFault);
    }
    outputs_of(alloc, job, &children)
}
