//! The check of traces: whether what the nodes of a job wrote is one run of the world, and the text of that run.
//!
//! What is proved, by the names of clauses (in `src/`) and definitions (in `specs/`):
//!
//! - `read_input` [`TakesInput`, `IsUnread`]: the bytes of the source are read as a job with an output of each of its
//!   nodes exactly where they are the text of such (`InputText`), as that; else the fault names the first bad line,
//!   counted over all of them, and the first reason that applies to it (`IsBadInput`), and they are the text of none;
//!   or the source failed, or memory ran out. What a refusal means apart from the reader: of the job's text
//!   `PrefixMeans` of `text_job`; behind it outputs of some nodes, and the next one is refused as `Means` of
//!   `text_trace` says (`IsBadOutput`); or those of all, and a byte behind them (`HasMoreBehind`). It means that of
//!   this line and this reason alone [`only`], and of an input that was read of none [`unrefused`].
//! - `first_failed` [`IsFirstFailed`, `AreOver`] is the smallest rank of a node that ended with a status other than 0
//!   and 1.
//! - `run_traces` [`EndsTraces`]: bytes that their node refuses, whatever it did before, are rejected from the traces
//!   first (`accepted_traces`): an entry that got such bytes is one that got nothing. How many those are is told to
//!   `Notes` (`refused_turns`). It ends as `NotARun` only where the accepted traces are no run (`AreNoRun`), with the
//!   smallest node with an entry left at the one stuck prefix. Else it ends as `Done`, and what is written is the text
//!   of the run (`run_lines`: the answer of each step of a script, where it ended, and the lines of each node), or as
//!   the sink failed, a prefix of it. Then the accepted traces are a run of the world (`RunOfTraces`, with all that
//!   `IsWorldRun` of `law_traces` says: the headline, the laws of transfers and of the barrier), and the endpoints that
//!   are given stand for the records that this run leaves its nodes [`nodes_of_run`]. By the law of `law_traces`
//!   these are the records that each node's trace leaves as it was read [`nodes_after`: `AreNodesAfter`]. Or it ends as
//!   `NoMemory`: the body writes nothing then, but the clause allows whole lines of a run (`EndsHalfway`). Each line of
//!   a step tells which step of which thread ended, in which turn of the run, by which calls and with what answers
//!   (`LinesTell`): so an `ok` of a sync, of a blocking transfer and of the barrier is that of a call of that very
//!   turn, of which the laws speak. Of two lines of one node the later one's turn is later [`rise`].
//! - `plans_law` [`PlansHold`]: the law of plans holds in every run of a job, and so in that of its traces.
//! - `replay_output` [`ReplaysOutput`]: what the output of a node tells by itself, also where the traces are no run:
//!   its record after the turns that can be taken, with the lines of the steps that ended in them, whether its scripts
//!   are over, how many of its requests are open, and what it sent. No clause speaks of which outputs `replay_input`
//!   and `replay_given` give it. Of those replays `first_unsent` [`IsFirstUnsent`] is the first entry that got what
//!   none sent.
//!
//! Each node's trace is replayed once, in the merge, where entries of all nodes go as they can: its machine records the
//! lines of its steps (`Recorder`), which are written once the traces are known to be a run.
#![tactic(auto)]

mod checks;
mod ending;
mod input;
mod laws;
mod machines;
mod node_replay;
mod notes;
mod outputs;
mod recorder;
mod rejecting;
mod requests;
mod run;
mod steps;

pub use checks::{Failed, first_failed, traces_of};
pub use input::{CheckInput, InputFault, read_input};
pub use laws::plans_law;
pub use node_replay::{NodeReplay, Refusal, replay_output};
pub use notes::{NoNotes, Notes};
pub use outputs::{GivenOutput, NodeReplays, replay_given, replay_input};
pub use run::{TracesEnd, run_traces};
