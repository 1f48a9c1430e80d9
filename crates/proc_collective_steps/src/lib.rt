//! The steps of scripts that run the collectives of their node, at the endpoint of the node.
//!
//! Each try of such a step is a list of ordinary calls of the node, with one answer. A call of the collectives is read
//! as a function of the node's record and of how far its collectives are (`specs/Outcomes.antt`): the calls that it
//! makes, in order, what it is answered, and how far the node is then.
//!
//! What is proved [`tried`: `IsPartTried`]: of every record for which the endpoint stood, a try makes the calls of its
//! part (`specs/Parts.antt`), the endpoint stands for the record after them, what they sent stands in the slot that is
//! told, and the step ends as the part says.
#![tactic(auto)]

mod last_answer;
mod tries;
mod whole;

pub use tries::{AtThread, PartTried, Start, try_end, try_start, try_step};
pub use whole::{begin_whole, go_on_whole};
