//! The record of a node, generic in what the node keeps beside its requests and runs.
//!
//! A record has every request that a node asked and every request that it ran, for each peer. This crate says
//! what a call, a delivery and a tick do to it (`specs/`), and has the lemmas on it. It has no code but the
//! answers.
//!
//! What is proved is named by the clauses of `every_event`, at one type of what a node keeps, for any sound behaviour
//! of a node, also one whose messages wait for locks and whose ticks send requests: each event, the coming of a message
//! with any content included, keeps what holds of the record, where what the event sends has a spelling (`EventsKeep`);
//! where all pairs have C credits the bound of a node's message buffers is 2C(n-1) (`BoundIsEven`).
#![tactic(auto)]

ghost use Rattle.spec_node.specs.EveryEvent.{EventsKeep, BoundIsEven};

mod answer;

pub use answer::{Asked, Delivered, Side, SlotRef, Ticked, Why};

/// Carries what this crate proves of the record of a node, for the check alone: it has no code.
///
/// `kept`: after each event of a node, a thread's call, a message with whatever content or a tick, its requests
/// to each peer are within the credits of that pair, and all but the last one of a slot are back; what it asked
/// and what it replied has a spelling; and what it keeps beside that is good. It holds of every sound behaviour,
/// where what the event sends has a spelling. `even`: where each pair of nodes has C credits, the bound of the
/// message buffers of a node among n is 2C(n-1).
pub fn every_event()
    // What holds of a record is kept.
    ensures kept { EventsKeep }
    // The bound of what a node holds, where all pairs have as many credits.
    ensures even { BoundIsEven }
{}
