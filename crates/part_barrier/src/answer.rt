//! What the calls of a barrier answer.

/// What `Barrier::notify` answers.
#[derive(Clone, Copy, Debug, Drop, PartialEq, Eq)]
pub enum Notified {
    /// The phase is notified now.
    Ok,
    /// The flags are above 3.
    BadFlags,
    /// This phase was notified before.
    Twice,
    /// The phase is the last one, 2^64 - 1, which is never notified (profile).
    Exhausted,
}

/// What `Barrier::try_wait` answers.
#[derive(Clone, Copy, Debug, Drop, PartialEq, Eq)]
pub enum BarrierAnswer {
    /// All nodes have notified the phase, and their notifies match. The phase has ended.
    Ok,
    /// All nodes have notified the phase, and their notifies don't match, or the try differs from the local notify. The
    /// phase has ended.
    Mismatch,
    /// It isn't known that all nodes have notified the phase.
    NotReady,
    /// This node hasn't notified the phase.
    NoNotify,
    /// The flags are above 3.
    BadFlags,
    /// The phase isn't complete, and the numbers of messages for this node, to which a notification must go, are
    /// exhausted (profile).
    Exhausted(u16),
}
