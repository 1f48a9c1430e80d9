//! Groups: worlds of endpoints whose nodes run collectives, and what their calls are by the laws (`law_collectives`).
//!
//! - `WorldNodes` is a world, and how far each node is with its collectives. Its calls are the events of the groups of
//!   the laws [`does`], of each group for which it stood. The answer is the one of the event, and the code stands for
//!   what the event leaves. `specs/Standing.antt` says which event it is where memory ran out.
//! - `Group` is such nodes that all have their collectives, and that nobody else changes. Its three calls of
//!   collectives have `does` too. `Group::event` is an event of the world, and leaves the collectives as they are.
//! - Each history of the group, which is the list of its events from its opening on, goes on by the call's event
//!   [`history`] (`specs/Histories.antt`).
//! - `Group::coll_end` carries the law of results as a clause [`law`: `TellsOfHistory`]: whatever happened to the group
//!   before, `Ended` says that all nodes have started that phase with one shape, and that the node's result stands at
//!   `dest`; `Mismatch(k)` that all have started it, and that `k` is the first node whose shape isn't the local one.
//! - `AtGroup` is a `Caller` at a node of a group. The whole for which it stands is the group: a call is an event that
//!   no collective makes, and leaves the collectives as they are (`calls_are_other_events`).
//! - `calls_are_of_a_group` carries what joins the contracts of `node_collectives` with the laws: what a start, a step
//!   and a try to end do by the record of their node is what the same event of a group does.
#![tactic(auto)]

mod at_group;
mod collecting;
mod group;
mod laws;
mod world_nodes;

pub use at_group::AtGroup;
pub use group::{Group, idle_nodes};
pub use laws::{calls_are_of_a_group, calls_are_other_events};
pub use world_nodes::WorldNodes;
