//! What children gave.

ghost use Rattle.std.specs.Prelude.{◌≡◌, ◌≤◌, All, IfOk, IsTrue, ◌↔◌, length};
ghost use Rattle.base_io.specs.declared.spawner.Finished.TheVariants as finished;
ghost use Rattle.cli_check.specs.CheckInputs.{HaveTraces, IsTraceOf};
ghost use Rattle.cli_launch.specs.Children.{AreRanked, IsOutputWithin, end_of_child, ends_of};
ghost use Rattle.cli_launch.specs.Outputs.{GiveOrNot, GivesOrNot, SomeFailed};

use crate::children::Child;
use crate::fault::LaunchFault;
use base_io::Finished;
use std::alloc::Global;
use text_job::Job;
use text_trace::{Output, TraceFault, Wanted, read_output};

/// Whether the finish of one of them failed.
pub fn has_failed(children: &[Child]) -> bool
    ensures { IsTrue result ↔ SomeFailed (ends_of children.now) }
{
    for child in children {
        match child.answer {
            Finished::Ended(_) | Finished::NoMemory => {}
            Finished::Failed => return true,
        }
    }
    false
}

/// The output that a child gave which ended with this status.
fn read_child(alloc: Global, job: &Job, child: &Child, code: u8) -> Result<Output, LaunchFault>
    requires within { IsOutputWithin (end_of_child child.now) }
    requires ended { child.now.answer ≡ finished.Ended code }
    ensures given { GivesOrNot job.now (end_of_child child.now) result }
    ensures trace { IfOk result (λ output. IsTraceOf job.now output.trace) }
{
    let rank = child.rank;
    let wanted = Wanted {
        version: job.settings.version(),
        threads: job.settings.threads(),
        job: job.settings.job(),
        rank,
    };
    match read_output(alloc, &child.output, wanted) {
        Ok((output, len)) => {
            if len < child.output.len() || code > 1 || output.status.code() != code {
                return Err(LaunchFault::Child { rank, code });
            }
            Ok(output)
        }
        Err(TraceFault::Bad { .. }) => Err(LaunchFault::Child { rank, code }),
        Err(TraceFault::NoMemory) => Err(LaunchFault::NoMemory),
    }
}

/// The output that a child gave.
fn output_of(alloc: Global, job: &Job, child: &Child) -> Result<Output, LaunchFault>
    requires { IsOutputWithin (end_of_child child.now) }
    ensures given { GivesOrNot job.now (end_of_child child.now) result }
    ensures trace { IfOk result (λ output. IsTraceOf job.now output.trace) }
{
    match child.answer {
        Finished::Ended(code) => read_child(alloc, job, child, code),
        Finished::Failed => Err(LaunchFault::SpawnFault),
        Finished::NoMemory => Err(LaunchFault::NoMemory),
    }
}

/// The outputs that the children of all nodes gave, up to the first that gave none.
pub fn outputs_of(alloc: Global, job: &Job, children: &[Child]) -> Result<Vec<Output>, LaunchFault>
    requires ranks { AreRanked (ends_of children.now) }
    requires within { All IsOutputWithin (ends_of children.now) }
    ensures given { GiveOrNot job.now (ends_of children.now) result }
    ensures traces { IfOk result (λ outputs. HaveTraces job.now outputs.items) }
{
    let mut outputs = Vec::new(alloc);
    for child in children {
        let output = match output_of(alloc, job, child) {
            Ok(output) => output,
            Err(fault) => return Err(fault),
        };
        let Ok(()) = outputs.push(output) else {
            return Err(LaunchFault::NoMemory);
        };
    }
    Ok(outputs)
}
