//! What another version of the datagrams leaves as it is: the output of a job's run.
//!
//! The two versions spell a notification of the barrier otherwise, and nothing else that a node does looks at the
//! version. So the records of the two runs differ in the contents of such requests alone, event by event, and each
//! answer, and what the nodes hold and note at the end, is the same. It has no code.
#![tactic(auto)]

ghost use Rattle.sim_versions.specs.Upgraded.{RunsAlike};

/// Carries what this crate proves, for the check alone: it has no code.
///
/// The run of a job with datagrams of another version, which has so many nodes, has the same lines as the run of the
/// job, and a node notes a violation in both or in neither.
pub fn upgrade_law()
    ensures { RunsAlike }
{}
