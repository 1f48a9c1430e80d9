//! The laws of transfers that were synchronised, over every run of a world of endpoints.
//!
//! A transfer (a put, a get or a memset) goes by chunks of 8,192 bytes, each a request of the library's own. These laws
//! say what a client may rely on where a synchronisation answers Ok, whatever else happens in the run: messages that
//! are lost, come again and overtake others, other threads' calls, other transfers. `specs/TransferLaws.antt` states
//! them (`TransfersHold`), `specs/Chunks.antt` says what it means that a chunk was done, and `specs/History.antt` what
//! happens at the events of a run. It has no code.
#![tactic(auto)]

ghost use Rattle.law_transfers.specs.TransferLaws.{InEveryJob, TransfersHold};

/// Carries what this crate proves of runs, for the check alone: it has no code.
///
/// `over`: a transfer whose operation is complete or was synchronised is done: each of its chunks was issued by a tick
/// after the transfer began, with the bytes that the source held then; its request ran exactly once; and its bytes were
/// written then, and stand where no later write has one (of a get: the bytes that the target's range held at the one
/// moment when the request ran were written to the local range when its reply came back, which it did once).
/// `synchronised`: so it is of each transfer that a sync which answers Ok synchronises, of whatever form. `goes`: a
/// sync that answers Ok finds each operation of which it speaks its caller's and complete, and marks it. `own`: a
/// transfer that is answered Done has no bytes, or was written to the local segment in the call. `cover`: each byte of a
/// range lies in exactly one chunk.
pub fn every_transfer()
    // The laws hold in every run of a job with settings in range and lawful handlers.
    ensures laws { InEveryJob TransfersHold }
{}
