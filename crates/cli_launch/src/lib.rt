//! The children of a launch: a process for each node of a job, started and finished by a spawner, and what they gave.
//!
//! What is proved, by the names of clauses (in `src/`) and definitions (in `specs/`):
//!
//! - `launch_nodes` [`EndsLaunch`]: where the spawner tells its calls, and told no finish of the ranks that are started
//!   before, it tells, behind what it told before, the starts of the ranks from 0 on, in order, each with the port and
//!   the bytes, all of them unless a start failed; then the finish of each that was started, in order, also where a
//!   start or a finish before it failed; and the ends that these finishes had (`plain` of `Spawns`). Where it told
//!   such finishes before, it tells the same but these ranks' finishes and ends (`told`). Where memory ran out before
//!   the first start, what is seen of it stands as it did. The outputs of all nodes are given only where each child
//!   gave the text of an output of its node and ended with the status in it, 0 or 1 (`GivesOutput`). `Child` names the
//!   smallest rank of a child that didn't, with its exit status, and comes only where no start and no finish failed;
//!   `SpawnFault` comes only where the spawner's count of faults rose, or stands at its last value.
//!
//! That a child is a node, or reads what it was given, no clause says: what it gave is read as any bytes are.
#![tactic(auto)]

mod children;
mod fault;
mod launching;
mod outputs;

pub use cli_check::{
    CheckInput, InputFault, NoNotes, Notes, TracesEnd, first_failed, read_input, run_traces,
    traces_of,
};
pub use fault::LaunchFault;
pub use launching::launch_nodes;
