//! What a node wrote of its run, and an entry's place in an order.

use base_turns::Journal;

/// What a node wrote of its run: the job's number, its own, and the entries of its journal.
#[derive(Drop)]
pub struct Trace {
    /// The number of the job.
    pub job: u64,
    /// The number of the node.
    pub rank: u16,
    /// The entries, in order.
    pub entries: Journal,
}

/// The place of an entry among several traces.
#[derive(Clone, Copy)]
pub struct Placed {
    /// The node.
    pub node: u16,
    /// The entry's number in its trace, counted from 1.
    pub entry: u32,
}
