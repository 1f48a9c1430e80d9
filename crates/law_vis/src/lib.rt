//! The laws of plans, over every run of a job.
//!
//! `specs/StridedLaws.antt` states them. A plan's pieces are begun as implicit transfers, so they stand on the laws of
//! transfers (`law_transfers`). It has no code.
//!
//! - `laws` [`PairsAreDone`]: take a run in which each piece of a plan was begun by a node, to another one, and a later
//!   sync synchronised it. Then each pair of bytes lies in one chunk of one piece, and that chunk was transferred
//!   exactly once between the piece's beginning and its sync. A put wrote the byte that the local segment held when the
//!   chunk was issued; a get wrote the byte that the target held when the chunk ran. Nothing else was written by it
//!   than bytes of the plan's pairs, and what it wrote stands where no later write has a byte.
//! - `begun` [`BegunAreUnderWay`]: the pieces of a plan for another node that `Plan::begin` tells as begun are under
//!   way, under the next numbers of the node: all with `Whole`, those before `next` with `Part`.
//! - `own` [`OwnIsCopied`]: a plan for the local node is copied in the calls, piece by piece.
#![tactic(auto)]

mod laws;

pub use laws::every_plan;
