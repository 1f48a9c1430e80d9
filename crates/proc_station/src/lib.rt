//! A node that runs to its end, and its trace.
//!
//! `run_node` binds a node's link, and runs the node's threads over it until an end. It writes the trace of what they do
//! as it grows, by `TraceSink`, which takes each entry under the threads' lock. It knows of the node's machine, link,
//! clock, waiter and sink what their traits promise, and no more.
//!
//! What is proved, by the names of clauses (in `src/`) and definitions (in `specs/`):
//!
//! - What is left (`RunsOver`): the link was bound to the node's address, and the threads left what `StationLeaves` of
//!   `proc_runner` says: there is a journal, machine and journal are the replay of the machine handed in, no datagram
//!   went before the lines of its turn and of those before it had, and each end has its cause. Or the link failed as it
//!   was to be bound; then nothing was done, and the end is `LinkFault`.
//! - What is written (`WritesAt`), into a sink that gathers: the one text of the trace of that journal, whatever the end
//!   was; without its last line where memory ran out; where the sink failed a prefix of it. Where it failed within the
//!   first lines nothing was done (`IsUnopened`).
#![tactic(auto)]

mod node;
mod recorder;

pub use node::{Node, NodeAddress, run_node};
pub use recorder::TraceSink;
