//! The machine of a node: its endpoint, with the scripts of its threads, run by turns.
//!
//! A turn of a thread that polls delivers what was got, if anything was, and then ticks; each turn then tries the
//! next step of the thread's script. It needs no thread of the system and no socket, and takes no memory.
//!
//! What is proved:
//!
//! - `NodeMachine` is a `Machine` whose states are those of `law_traces`: the record of the node, with what is
//!   left of the scripts, and how far its collectives are (`NodeState`, in `specs/NodeState.antt`). Of every
//!   state for which it stood (`NodeStands`) each turn is the turn of that definition, over the steps as
//!   `proc_steps` reads them: what the machine stands for afterwards [`after`], what the turn tells
//!   [`turned`], and the datagrams, each the one spelling of a message of the node's record [`outgoing`], in
//!   order: the reply's, the tick's, the call's. A thread polls exactly where it holds no lock; an empty turn
//!   leaves the state, and what was outgoing [`empty`].
//! - `NodeMachine::new` stands for the node's opening state (`opening_state`); want of memory is its one error.
//! - `traces_law` [`run`]: where the entries of the traces of a job's nodes can go one after another, over such
//!   states, they are a run of the world with all that holds of one (`IsWorldRun`); [`opens`] the nodes begin as new
//!   machines do; [`replays`] what a machine stands for after its trace is what that run leaves its node.
#![tactic(auto)]

mod cursor;
mod laws;
mod node;
mod outgoing;
mod parts;
mod turn;

pub use laws::traces_law;
pub use node::NodeMachine;
