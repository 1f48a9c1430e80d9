//! Collectives over all nodes of a job: broadcast, gather, all-gather and reductions (this project's profile, over the
//! active messages of GASNet 1.8.1, core API).
//!
//! Each node runs its collectives in order, phase 0 first, one at a time. A phase is three calls of `Collectives`, each
//! over any `Caller` of the node (`node_endpoint`):
//!
//! - `start` [`Starts`] brings the node's bytes to its own part of the area, by a Long request to itself.
//! - `step` [`Steps`] sends the phase to the first node that it wasn't sent to and that can be asked. A node whose
//!   result doesn't use the bytes gets the stamp and the shape alone.
//! - `try_end` [`Tries`] ends the phase once all nodes were sent to and all were heard from, and writes the result.
//!
//! Each contract says which calls were made, what they leave, and how that is answered, by the definitions of
//! `specs/Progress.antt`. What follows of all runs is in `law_collectives`; `sim_group` joins both in a world.
#![tactic(auto)]

mod answers;
mod calling;
mod collectives;
mod ending;
mod reading;
mod sending;
mod starting;

pub use answers::{Argument, EndAnswer, StartAnswer, StepAnswer};
pub use collectives::Collectives;
