//! A world of endpoints, whose messages are delivered in any order.
//!
//! An endpoint makes requests and runs those of others. The world keeps of each request that was ever sent its slot,
//! whether it ran, and whether it is back. The messages themselves stand in the slots of the endpoints, and are
//! delivered out of these.
//!
//! What is proved is said of every record for which the endpoint, or the world, stood before the call
//! (`EndpointStands`, `WorldStands`). What an endpoint's step does is said by `node_endpoint`.
//!
//! - `World::new` gives a world that stands for empty records [`stands`]; want of memory is its one error. Each run
//!   from there, by lawful handlers and events among the nodes, has the headline [`headline`], and the laws of
//!   transfers and of the barrier [`laws`].
//! - `World::step` [`steps`: `StepsInWorld`], for an event of a node that is there, or between two that are
//!   (`IsAmong`): the answer is the records' (`world_answer`), and the world stands for the records' next state
//!   (`world_after`). So `Unsent` comes exactly where that message was never sent, and a message may be delivered again
//!   at any time. `NoMemory` comes only at a request to another node that every record for which the world stood
//!   accepts (`WantsMemory`), and then the world stands for the same records. Read as the plain world, it is a step of
//!   it by the same event with the same answer [`plain`: `StepsPlainly`], and the laws hold of the state that it comes
//!   to [`lawful`: `IsLawful`]. The laws of transfers [`transfers`] and of the barrier [`barrier`] hold of each run of
//!   its job. Handlers are a parameter of the step; their meaning is the one of their trait.
//! - `World::settle` does the events of so many rounds, in their order (`settle_events`) [`moves`].
//! - `World::endpoint` gives the endpoint that stands for the node's record; `most_held` the greatest number of message
//!   buffers after any event so far [`most`], at most the sum over the node's peers of the credits both ways [`few`];
//!   `accepted` the length of the plain world's list of a pair's requests; `returned` whether a request is back there;
//!   `first_out` the lowest number of a request of the pair that isn't back there, or the one after the last [`out`].
//!
//! - `AtNode` is a `Caller` (`node_endpoint`). The whole for which it stands is the records of all nodes, with the most
//!   buffers that each held so far; a call is an event of the world. Memory may run out where a call is a request.
//! - `calls_are_a_run`: calls of a caller at a node, one after another, are as many events of a run of the world, in
//!   their order. So what holds of every run of a job holds of what a layer above does by its calls.
#![tactic(auto)]

mod at_node;
mod event;
mod exchanges;
mod laws;
mod settling;
mod step;
mod world;

pub use at_node::AtNode;
pub use event::{WorldAnswer, WorldEvent};
pub use laws::calls_are_a_run;
pub use world::World;
