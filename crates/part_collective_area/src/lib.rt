//! The area of collectives in each node's segment, the shapes of collectives, and the handler that writes the area (this
//! project's profile, over the active messages of GASNet 1.8.1, core API).
//!
//! An area has two parts for each node: one for its phases with an even number, one for those with an odd one. A part
//! is 16 bytes and room for data: the stamp (1 more than the phase), the word of the shape, and the data.
//!
//! - `Shape::word` [`shape_word`] is the word that says a shape; `Shape::uses` and `Shape::has_result` say whose bytes
//!   go into whose result.
//! - `entry` is the handler's entry of the table of handlers: index 254, for requests, without locks.
//! - `serve` [`served`: `AtStamped`] runs it: it writes stamp and shape into the 16 bytes before the place of its Long
//!   message, and nothing else. Whatever a handler's run did before stays. It is lawful (`proofs/Stamping.antt`).
//! - `result_of` (`specs/Results.antt`) defines the result of each node over what all nodes gave.
#![tactic(auto)]

mod serving;
mod shape;

pub use serving::{entry, serve};
pub use shape::{CollectiveKind, Shape};
