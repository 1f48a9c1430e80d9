//! Transfers of many pieces as lines say them: their values, their forms, and reading them.
//!
//! `vis_at` reads a strided or an indexed transfer and makes its plan, and `vis_form` tells whether a line has the
//! words of one (`VisLines`).
#![tactic(auto)]

mod vis;
mod vis_forms;
mod vis_lines;

pub use vis::{BoxedVis, Levels, SegmentRanges, VisShape, VisText, VisWords};
pub use vis_forms::VisForm;
pub use vis_lines::{vis_at, vis_form};
