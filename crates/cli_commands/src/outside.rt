//! The outside of a call.

/// The outside of a call: what it reads, where it writes, what the command `node` runs over, and what the command
/// `launch` starts nodes by.
#[derive(Drop)]
pub struct Outside<S, K, L, P, C, G> {
    /// What the call reads.
    pub source: S,
    /// Where it writes.
    pub sink: K,
    /// The link of a node, which isn't bound yet.
    pub link: L,
    /// The spawner of a job's nodes.
    pub spawner: P,
    /// The clock of a node.
    pub clock: C,
    /// The waiter that a node's threads pass before each turn.
    pub waiter: G,
}
