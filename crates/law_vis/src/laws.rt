//! What holds of plans in every run.

ghost use Rattle.law_transfers.specs.TransferLaws.{InEveryJob};
ghost use Rattle.law_vis.specs.StridedLaws.{BegunAreUnderWay, OwnIsCopied, StridedHolds};

/// Carries what this crate proves of runs, for the check alone: it has no code.
pub fn every_plan()
    // The pieces that a beginning tells as begun, of a plan for another node, are under way.
    ensures begun { BegunAreUnderWay }
    // Each piece of a plan for the local node was copied in the calls, in their order.
    ensures own { OwnIsCopied }
    // In every run of a job with settings in range and lawful handlers.
    ensures laws { InEveryJob StridedHolds }
{}
