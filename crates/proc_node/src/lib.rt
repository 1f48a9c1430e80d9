//! A node of a job that runs to its end: its link behind the job's sieve, its machine, its threads and its trace.
//!
//! What is proved, by the names of clauses (in `src/`) and definitions (in `specs/`):
//!
//! - `run_job_node` [`EndsNode`]: the end, what the node is then, and what was written. By what is seen of link and
//!   clock before and after (`LinkSeen`, `ClockSeen`), the node's threads left what `RunsOver` of `proc_station` says
//!   (`NodeLeaves`): there is a journal, and the machine stands for its replay from the node's opening (`opening_state`
//!   of `proc_machine`); the link was bound to the node's address; where it tells them, the datagrams received are the
//!   journal's; and each end has its cause. Or the link failed as it was to be bound; then nothing was done, and the
//!   end is `LinkFault`.
//! - What was handed to the job's sieve are the datagrams of the replay, with `LinkFault` and `WriteFault` without
//!   those of the last turn that weren't. Where the link tells what it was sent, and its count of faults didn't rise,
//!   that is what the sieve sends of them, datagram by datagram (`IsBehind`, `sieved_by`, over `next_plan` of
//!   `base_io`). Where the sieve is 0 0 0 it is they themselves, also where the link failed.
//! - What was written is the one text of the trace of that journal (`node_lines`), or at a fault of the sink a prefix
//!   of it; where memory ran out the same without its last line (`node_open`), or nothing where nothing was done.
//! - No datagram is handed to the sieve before the lines of its turn and of those before it have gone on to the sink
//!   behind (`Ahead` of `proc_runner`, in `NodeLeaves`), where the sink tells what it took.
#![tactic(auto)]

mod calling;
mod handed;
mod sieved;

pub use calling::{Devices, EndedJobNode, run_job_node};
