//! The answers of a core.

pub use spec_node::{Asked, Delivered, Side, SlotRef, Why};
