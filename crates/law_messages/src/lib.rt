//! The laws of single messages, over every run of a world of endpoints: what the laws of a service stand on whose
//! requests have handlers of their own, such as batches of atomic operations or collectives.
//!
//! `specs/Steps.antt` says what an event leaves of requests and runs, `specs/Requests.antt` what a request leaves where
//! it runs and its reply where it comes back, `specs/Ranges.antt` what writes leave of a range of bytes, and
//! `specs/Events.antt` has words for the events of a run. It has no code.
#![tactic(auto)]

ghost use Rattle.law_transfers.specs.TransferLaws.{InEveryJob};
ghost use Rattle.law_messages.specs.MessageLaws.{MessagesHold};
ghost use Rattle.law_messages.specs.Ranges.{WritesStand, RangesStay};

/// Carries what this crate proves, for the check alone: it has no code.
///
/// `messages`, of every run: an event leaves requests and runs as they were, or adds the request that a thread or a
/// tick asked, or the run of one that came. A thread's request that is accepted is among them from then on. Whenever a
/// request runs, its target's segment is what the run of its handler left, and that run's reply is kept. Whenever the
/// reply comes back, the requester's segment is what the run of the reply's handler left. The message in the slot of a
/// request that isn't back was sent (`EachOpenWasSent`): to send it once more, byte for byte, repeats what was sent, as
/// the network may. `stand`: the bytes of a write stand at its place. `stay`: a range stays as it is where writes have
/// none of its bytes.
pub fn every_message()
    ensures messages { InEveryJob MessagesHold }
    ensures stand { WritesStand }
    ensures stay { RangesStay }
{}
