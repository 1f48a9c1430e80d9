//! The law of the split-phase barrier over whole runs of a job.
//!
//! `part_barrier` proves it of barriers by themselves, whose notifications come and go. Here it is proved of the nodes
//! of a job, where a notification is a request of the library that a tick sends and that comes to the other node as any
//! message does: it may be lost and sent again, come late, and overtake others. `specs/BarrierLaws.antt` says what
//! holds. It has no code.
#![tactic(auto)]

ghost use Rattle.law_barrier.specs.BarrierLaws.{InEveryBarrierJob};

/// Carries what this crate proves of the barrier of a job, for the check alone: it has no code.
///
/// `barrier` [`BarrierHolds`], of every run by events among the nodes: a try of the barrier answers Ok or Mismatch only
/// where all nodes have notified the phase in which the node is, and of the two Mismatch exactly where the notifies of
/// all nodes together are one, or where the try's flags, or its identifier where it is named, aren't those of the
/// node's own notify; that outcome is the same ever after; each phase that a node has ended was notified by all, so no
/// node is two phases ahead of another; each notification that a node heard or sent tells of nodes that have notified
/// its phase, and exactly what they notified; and the notifies of a node are its calls that were answered Ok, in order,
/// as its phases end by its tries that were answered Ok or Mismatch.
pub fn every_run()
    ensures barrier { InEveryBarrierJob }
{}
