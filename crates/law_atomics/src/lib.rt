//! The laws of batches of atomic operations, over every run of a world of endpoints.
//!
//! A batch is a Medium request to handler 252, which does its operations on words of its target's segment and replies
//! with what the words were, by a Long to handler 253. These laws say what a client may rely on whatever else happens
//! in the run, where both handlers are registered and run as `serve` of `node_atomics` does (`ServesBatches`):
//! `specs/AtomicLaws.antt` states them (`AtomicsHold`), and `specs/Batches.antt` says what a batch does at an event. It
//! has no code.
#![tactic(auto)]

ghost use Rattle.law_atomics.specs.AtomicLaws.{InEveryServingJob, AtomicsHold};

/// Carries what this crate proves of runs, for the check alone: it has no code.
///
/// `said`: the request that a batch makes asks that batch. `goes`: whenever the request of a batch runs, all of its
/// operations act at that one moment, each on what the one before left; the request runs at most once, and exactly once
/// where its credit came back, and then what the words were stands in the requester's block, where no later write has a
/// byte. `accepted`: so it goes from the call on that was answered `Accepted`. `own`: so it is of a batch to the local
/// node, in the call. `word`: a word that only operations of batches write is what all operations on it make of 0, in
/// the order in which their batches ran; `olds`: and each of them finds what all earlier ones made of it.
pub fn every_batch()
    // The laws hold in every run of a job with settings in range and lawful handlers, which has batches.
    ensures laws { InEveryServingJob AtomicsHold }
{}
