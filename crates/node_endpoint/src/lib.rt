//! The endpoint of a node: its active messages, transfers, access regions, registers of handles and barrier.
//!
//! What is proved is said of every record for which the endpoint stood before the call (`EndpointStands`).
//!
//! - `Endpoint::step` [`steps`: `EndpointSteps`], for a thread of the job and lists of at most 256 registers
//!   (`MayHappen`): the answer is the one of the record of the node (`node_rules`), and the endpoint stands for the
//!   record's next one. That is so for each call of a thread, for a tick, and for any bytes that are delivered: those
//!   that spell a message of the job's version come as that message, and others are refused by the first reason of the
//!   grammar. What the rule table forbids is answered `Forbidden`, whatever the call, and noted once. The message that
//!   the step sends is that of the slot which `Answer::sends` names [`sends`: `StepSends`]; `Endpoint::message` gives
//!   it, `Endpoint::number` its number. A step that runs no handler (`RunsNone`: a tick, or a call that is no request
//!   to the local node) is the same whatever the handlers mean [`quiet`]. `Endpoint::call` is such a step at the call
//!   of a thread, without an event around it [`steps`: `NodeSteps`; `sends`: `NodeSends`; `quiet`].
//! - A tick sends a request again that is due; else the notification of the barrier that is due to the least node that
//!   can be asked; else the next chunk of the oldest operation whose target can be asked. `Endpoint::next_target` tells
//!   before it which node would get a request of the node's own accord [`target`: `IsTickTarget`]; `would_accept`
//!   whether an event would accept a request. `next_due` tells from which time on a tick sends a request again, as long
//!   as no event happens [`IsNextDue`].
//! - `Endpoint::would_deliver` tells what a delivery of bytes would be answered [`told`: `WouldDeliver`]: every
//!   delivery of them is answered so, at any time and whatever the handlers mean [`agrees`: `IsAnsweredAlways`].
//! - `Endpoint::new` gives an endpoint that stands for the opening record [`stands`]; want of memory is its one error.
//!   After it no call takes memory. `Endpoint::with_segment` is the same over a segment of zeros that was made before.
//! - `issued`, `register`, `segment`, `cells`, `log`, `held` and `polls` give what the record has.
//!
//! A layer that makes several calls for one of its own, as a plan of transfers does, takes a `Caller`, and so works at
//! both. `AtEndpoint` is the caller at an endpoint; `sim_world` has the one at a node of a world.
//!
//! - `Caller::call` [`answered`, `no_memory`]: a caller stands for a *whole*, which is the record of its node, or the
//!   records of a world with what the nodes held at most. Of each whole for which it stood, the answer is that of the
//!   node's record, and it stands for the whole after that one call. Where memory ran out, which may be at a request
//!   alone, it stands for the whole as before. Its settings, table, handlers, node and time stay [`site`], and so does
//!   the reference that it was lent [`lent`].
//! - `AtEndpoint` never lacks memory.
//! - `make_call` [`MakesOne`] says the same by definitions which join: calls that were made one after another are one
//!   list (`Makes`), of which the whole afterwards is what they make of it in their order (`specs/Making.antt`). The
//!   lemmas by which a layer above proves its loops of calls are in `proofs/Joining.antt`.
#![tactic(auto)]

mod at_endpoint;
mod barrier;
mod beginning;
mod caller;
mod calls;
mod endpoint;
mod extended;
mod flags;
mod making;
mod memory;
mod ticking;
mod transfers;

pub use at_endpoint::AtEndpoint;
pub use caller::{Called, Caller};
pub use endpoint::Endpoint;
pub use making::make_call;
pub use node_core::Payload;
pub use node_rules::{Answer, Begun, Call, Event, Region};
