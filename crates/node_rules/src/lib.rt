//! The calls, events and answers of a node's endpoint, and what each of them does to the record of the node.
//!
//! The definitions (`specs/`) say what an endpoint's node keeps beside its requests and runs: what its core keeps, all
//! operations that ever began, the access regions and the registers of handles of its threads, and the record of its
//! barrier (`EndpointLocal`). They say what each call of a thread answers and leaves, what a message does, and what a
//! tick sends of the node's own accord: a notification of the barrier, or else the next chunk of a transfer
//! (`all_rules`). The code is the enums of calls, events and answers, and what is read off one of them.
//!
//! What is proved of the definitions is named by the clauses of `every_call`: they are sound, for any lawful handlers;
//! the part that a core keeps is left as the core leaves it; and each chunk of a transfer that was issued is a request
//! of the node, which says what the chunk says and is back exactly where the chunk is.
#![tactic(auto)]

ghost use Rattle.node_rules.specs.EveryCall.{AreSound, OpeningsAreGood, AreOver, ChunksAreRequests};
ghost use Rattle.node_rules.specs.Touches.{CallsAreFramed};
ghost use Rattle.node_rules.specs.PlainAnswers.{AnswersArePlain};

mod answer;
mod call;

pub use answer::{Answer, Begun, Local, Region, Ticked};
pub use call::{Call, Event};

/// Carries what this crate proves of the record of an endpoint's node, for the check alone: it has no code.
///
/// `sound`: for settings within their limits and handlers whose runs are lawful, each request and each reply that the
/// node sends may be delivered: a client's, a chunk of a transfer, a notification of the barrier. What any call,
/// message or tick leaves is good: writes stay inside the segment, no handler holds a lock between runs, the transfer
/// of each operation lies inside the segments and goes to another node, and the notifications of the barrier can be written.
/// `opening`: so is what a node keeps before all events. `over`: with messages, the endpoint does to what its core
/// keeps what the core does. `tracked`: each chunk that was issued is a request to the transfer's target, in its slot
/// and with its number, which says what the chunk says and is back exactly where the chunk is; no request belongs to
/// two chunks; and an operation that was synchronised is complete: all its chunks were issued and are back. This holds
/// before all events, and each event keeps it, the coming of any message included.
///
/// `frame`: the frame condition of each call. The table `touches` says which parts of the record the call may change;
/// it leaves the others as they were. `plain`: a call that makes no request has a plain answer, which refers to no
/// message and to no range of the segment. The one exception is the call that shows a range.
pub fn every_call()
    // The behaviour is sound.
    ensures sound { AreSound }
    // What is kept at the opening is good.
    ensures opening { OpeningsAreGood }
    // The core's part is left as the core leaves it.
    ensures over { AreOver }
    // Chunks are requests, and what was synchronised is complete.
    ensures tracked { ChunksAreRequests }
    // A call leaves what it doesn't touch as it was.
    ensures frame { CallsAreFramed }
    // The answer of a call that makes no request refers to nothing, unless the call shows a range.
    ensures plain { AnswersArePlain }
{}
