//! Nodes that run scripts, and the order of the entries of their traces as a run of the world.
//!
//! A machine is the record of a node with what is left of its scripts. A turn of one of its threads is a list of events
//! of the node: what was got is delivered, the node ticks, and the thread's next step is tried, which makes calls, one
//! after another (`specs/Turn.antt`). What a try calls, and when it ends its step, is a parameter (`Scripts`); steps
//! have six forms (`specs/Actions.antt`), of which one makes several calls in a try, and the others at most one.
//! `specs/Order.antt` says which orders of the entries of several traces can go, and `specs/WorldRun.antt` what it
//! means that such an order is a run of the world. It has no code but the type of what a step is answered
//! (`ScriptAnswer`).
//!
//! What is proved is named by the clauses of these laws, for any reading of actions as forms:
//!
//! - `run_law` [`run`]: entries in an order in which each can go are a run of the world from its opening
//!   (`IsWorldRun`). Each turn is events of the world at its time, all among the nodes; a datagram that was got is the
//!   delivery of the message that it spells, which was sent. The run leaves each node the record that its machine's
//!   replay has, its answers and the datagrams sent in it are the machines', and the most that a node held is what its
//!   own entries tell. So the headline, the laws of transfers and the law of the barrier hold of it. Asked are settings
//!   within their limits, lawful handlers, and that numbers fit their places in messages (`IsFittingJob`, `ActionsMay`,
//!   `specs/Fitting.antt`).
//! - `merge_law` [`run`]: so it is of the order by which a list of nodes reaches the prefix that has all entries
//!   (`Reaches`), and the entries of each node in it are the node's trace.
//! - `states_law` [`run`]: the same at states with more in them, as those for which a machine stands.
//! - `carrying_law`: what can go of machines that others become can go of them.
//! - `empty_law`: an empty turn leaves the machine, where a try that waits leaves the record (`IsCalm`); `waiting_law`:
//!   a try that neither ends nor begins its step leaves the scripts.
//! - `outgoing_law` [`first`, `stands`]: each message that a turn sent stands in its slot at the end of the turn.
//! - `every_trace` of `rejected` [`turn`, `replay`]: an entry that got bytes which the node refuses can be read as the
//!   same entry that got nothing. So what stands in a trace by mistake doesn't keep the trace from being a part of a
//!   run.
#![tactic(auto)]

mod laws;
mod rejected;
mod script_answer;

pub use laws::{
    carrying_law, empty_law, merge_law, outgoing_law, run_law, states_law, waiting_law,
};
pub use rejected::every_trace;
pub use script_answer::ScriptAnswer;
