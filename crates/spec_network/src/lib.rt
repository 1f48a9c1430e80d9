//! The world of node records, read as a plain one.
//!
//! A world is the record of each node (`spec_node`), and an event is a call, a tick or a delivery. The plain
//! world has requests, runs and what is back, and no buffers, kept replies or times. `specs/` says what both are,
//! and what holds of every run; the proofs are for every behaviour that is sound. It has no code.
//!
//! What is proved is named by the clauses of `every_run`, at one type of what a node keeps, for any sound behaviour of
//! nodes (`IsAllSound`), also one whose messages wait for locks and whose ticks send requests; `sim_world` carries it
//! to the program's own. Each event of a world is a step of the plain world (`specs/PlainStep.antt`), and in each state
//! (`IsLawful`, `specs/Laws.antt`):
//!
//! - no node holds more message buffers than the sum over its peers of the credits both ways (`HoldsFew`; the plain
//!   world's counts are the records', `CountsAgree`);
//! - a request that passes every earlier refusal, with a number left, is answered 'not yet' exactly where all credits
//!   of its pair are outstanding (`NotYetExactly`);
//! - a request that was sent and hasn't run runs where it comes, unless a lock defers it; its reply gets the reply
//!   slot of the request's slot, and each other request of that slot is back (`FindsItsSlot`); the reply stands there, as the message
//!   of that slot and as the answer to repeats, until a later request of that slot runs (`ReplyStands`), and none does
//!   before the request is back (`NonePasses`); a reply that comes while its request isn't back gives back that
//!   request's credit, unless a lock defers it (`ReplyFindsItsRequest`);
//! - a request that ran was accepted and ran with its slot and content, none ran twice (`RunsOnce`), and one that is
//!   back ran (`BackRan`);
//! - requests are those of two different nodes that are there, with slots below the pair's credits (`IsWithinCredits`).
//!
//! Of a whole run (`Headline`, `specs/Headline.antt`): it is a run of the plain world, step by step, and no delivery is
//! answered Refused; the laws hold in each state; requests and runs only become more; no request runs twice and no
//! reply is taken twice, nor before its request ran; what ran and what is back was run and taken by a delivery; what
//! may be delivered is what was sent.
#![tactic(auto)]

ghost use Rattle.spec_network.specs.EveryRun.{InEveryRun, HasHeadline, KeepsInvariant, HasGreatest};

/// Carries what this crate proves of a world of nodes, for the check alone: it has no code.
///
/// A run is any list of calls, deliveries and ticks, among the nodes of a job whose behaviour is sound; a message
/// may be lost, come again and overtake others. `headline`: each run is one of the plain world with the same
/// answers, each state has the laws (no node holds more than the credits of its pairs; a request that comes finds
/// its slot, and a reply its request, unless a lock defers it), requests, runs and what is back only become more,
/// each request runs at most once and its reply is taken at most once, and the messages that may be delivered are
/// those that were sent. `invariant_`: what holds of each pair of nodes and of what each node keeps holds at the
/// end. `greatest`: `most_after` is the most message buffers that each node held.
pub fn every_run()
    // Each run is one of the plain world, and its states have the laws.
    ensures headline { InEveryRun HasHeadline }
    // Each event keeps what holds of each pair, and of what each node keeps.
    ensures invariant_ { InEveryRun KeepsInvariant }
    // The most that a node held.
    ensures greatest { InEveryRun HasGreatest }
{}
