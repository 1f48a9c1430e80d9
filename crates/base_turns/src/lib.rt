//! Machines whose threads take turns, by what they stand for; the entries of a journal, and prefixes of traces.
//!
//! - `Machine` is the trait of a node's program: a turn of one of its threads at a time, with a datagram that
//!   was got or none. A machine stands for a state, and each clause is said of every state for which it stood:
//!   what it keeps needn't determine that state.
//! - `Entry`, `Bytes` and `Journal` are the turns that got or changed something, in order.
//! - What a machine stands for after the entries of a journal, and which datagrams its turns sent, is
//!   `specs/Replay.antt`, over the record `Steps` of what is known of states [`replay_law`: one entry more].
//!   Which orders of the entries of several traces can go is `specs/Prefixes.antt`.
#![tactic(auto)]

mod entry;
mod laws;
mod turns;

pub use entry::{Bytes, Entry, Journal};
pub use laws::replay_law;
pub use turns::{Machine, Turned};
