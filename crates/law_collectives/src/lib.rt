//! The laws of collectives, over every run of a world of endpoints.
//!
//! `specs/Phases.antt` has nodes that run collectives by themselves: phases, messages and stamps, without bytes.
//! `specs/Groups.antt` has the nodes of a job that do: their records, how far each is, and what each gave to its
//! phases; every call of a collective is events of the records. `specs/CollectiveLaws.antt` says what a client may rely
//! on. It has no code.
#![tactic(auto)]

ghost use Rattle.law_collectives.specs.CollectiveLaws.{CollectivesHold, InEveryJob};
ghost use Rattle.law_collectives.specs.Phases.{PhasesAreSafe};

/// Carries what this crate proves of runs, for the check alone: it has no code.
///
/// `phases`, of nodes that run their collectives in order and keep two parts for each node: whatever order messages run
/// in, a node that is ready to end a phase has each node's message of that phase in its part, all nodes have started
/// the phase, and no message runs behind a later one of its part.
///
/// `collectives`, of every run of a job whose areas are written by these calls and their messages alone, and in which
/// nobody else calls their handler: a try that is answered `Ended` has all nodes in that phase with one shape, and
/// leaves the node's result at its place. One that is answered `Mismatch(k)` has all nodes in that phase, and `k` is
/// the first whose shape isn't the node's own.
pub fn every_collective()
    ensures phases { PhasesAreSafe }
    ensures collectives { InEveryJob CollectivesHold }
{}
