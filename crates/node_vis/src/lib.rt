//! Strided and indexed transfers: many pieces that go as one, under one handle.
//!
//! A column of an array, a section of one, or a gather of ranges is a list of pairs: a byte of the target's segment
//! with a byte of the local one. A `Plan` has the pieces of such a list, and `Plan::begin` begins them in one access
//! region.
//!
//! - `Plan::strided`, `Plan::indexed` [`answer`: `IsPlanned`]: the fault is the first reason to refuse the transfer
//!   (`strided_fault`, `indexed_fault`), and without one there is a plan; memory may run out in place of either. Its
//!   pieces spell the pairs in order, none is empty, and none continues the one before it on both sides
//!   [`cut`: `IsCut`]; there is one such list (`pieces_of`). `pieces` and `piece` tell them.
//! - Making a plan takes time for each vector of indexes or range, and for each piece; pieces that don't ascend where
//!   they are written are sorted. More than 1,024 pieces are refused at the 1,025th.
//! - `Plan::begin` [`Begins`], for any `Caller`: the calls that it makes are `RegionBegin`, `BeginImplicit` for each
//!   piece up to one that is refused, and `RegionEnd` (`calls_made`), and its answer is read off the record of the
//!   caller's node (`vis_answer`).
//!
//! `law_vis` says what that means in every run of a job.
#![tactic(auto)]

mod begin;
mod levels;
mod overlap;
mod plan;
mod ranges;
mod runs;
mod shapes;

pub use plan::Plan;
pub use shapes::{Indexed, Level, Piece, PlanFault, Strided, Vis, Way};
