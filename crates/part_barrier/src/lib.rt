//! Split-phase barriers of n nodes, by notifications.
//!
//! `Barrier` is one node's barrier. A node notifies a phase once and then tries it until it ends; the notifications
//! that its calls give and take go between the nodes in rounds, at most eight among 256 nodes, and no node gathers for
//! all. A notification may be lost and sent again, come late, come again and overtake others.
//!
//! What is proved: each call answers what the definitions say of the node's record, which has all that was ever
//! notified, heard and sent, and then it stands for the record's next one (`BarrierStands`). Over the records of n
//! nodes, a try ends a phase only where all have notified it, and tells a mismatch exactly where the combination of the
//! n notifies is one, or where the try differs from the node's own notify (`every_run`).
//!
//! GASNet 1.8.1, extended API, barriers; the numbers of the flags, the notifications, their route and the nodes that a
//! mismatch is told to are this project's profile.
#![tactic(auto)]

ghost use Rattle.part_barrier.specs.World.{InEveryRun, TryTells, EndedByAll, AreCovered};
ghost use Rattle.part_barrier.specs.Together.{AllTogether};
ghost use Rattle.part_barrier.specs.Within.{NotificationsFit, StaysWithin};

mod answer;
mod barrier;
mod known;
mod mask;
mod rounds;

pub use answer::{BarrierAnswer, Notified};
pub use barrier::Barrier;

/// Carries what this crate proves of the barriers of n nodes, for the check alone: it has no code.
///
/// A run is any list of notifies, tries and notifications, which may be lost, come again and overtake others. `tells`:
/// a try that answers Ok or Mismatch is of a phase that all n nodes have notified, and it answers Mismatch exactly
/// where the outcome is one, or where its flags or its named identifier differ from the node's own notify. `ended`:
/// each phase that a node has ended was notified by all. `notifications`: each notification that was heard or sent
/// tells of nodes that have notified its phase, and exactly what they notified. `together`: the combination of notifies
/// is a mismatch exactly where one has MISMATCH or two named identifiers differ, and its identifier is the least named
/// one. `fit`: among at most 256 nodes, a notification that must go can be written as arguments, where those that were
/// heard could; `stay`: each step keeps that they could.
pub fn every_run()
    ensures tells { InEveryRun TryTells }
    ensures ended { InEveryRun EndedByAll }
    ensures notifications { InEveryRun AreCovered }
    ensures together { AllTogether }
    ensures fit { NotificationsFit }
    ensures stay { StaysWithin }
{}
