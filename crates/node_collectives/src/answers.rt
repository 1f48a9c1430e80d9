//! What the calls of collectives are answered.

use part_handlers::Forbidden;

/// An argument of a call of collectives.
#[derive(Clone, Copy)]
pub enum Argument {
    /// The root.
    Root,
    /// How many bytes each node gives.
    Length,
    /// Where the bytes that the node gives begin.
    Source,
    /// Where the result goes.
    Destination,
}

/// What a start of a collective is answered.
#[derive(Clone, Copy)]
pub enum StartAnswer {
    /// The next phase is started.
    Started,
    /// The phase before is started and not ended; nothing happened.
    Busy,
    /// An argument is bad, the first that is; nothing happened.
    BadArg(Argument),
    /// All 2^64 - 1 phases of the node were started; nothing happened.
    Exhausted,
    /// The rule table forbids the request that brings the bytes to the local part; a violation was noted.
    Forbidden(Forbidden),
    /// That request waits for this lock; nothing happened.
    LockBusy(u8),
    /// Memory ran out; nothing happened.
    NoMemory,
}

/// What a step of a collective is answered.
#[derive(Clone, Copy)]
pub enum StepAnswer {
    /// The message of the phase was sent to this node.
    Sent(u16),
    /// No phase is started, it was sent to all nodes, or no other node could be asked.
    Nothing,
    /// The rule table forbids the request; a violation was noted.
    Forbidden(Forbidden),
    /// Memory ran out at a request; those before it have had their effect.
    NoMemory,
}

/// What a try to end a collective is answered.
#[derive(Clone, Copy)]
pub enum EndAnswer {
    /// The phase ended, and the node's result stands at its place.
    Ended,
    /// The phase ended without a result: this node, the first of them, started it with another shape.
    Mismatch(u16),
    /// The node hasn't sent to all, or hasn't heard from all.
    NotReady,
    /// No phase is started; nothing happened.
    NotStarted,
    /// An argument is bad; nothing happened.
    BadArg(Argument),
    /// It isn't ready, and the numbers of the pair with this node, the first of them, are used up.
    Exhausted(u16),
    /// The rule table forbids the poll; a violation was noted.
    Forbidden(Forbidden),
    /// Memory ran out; the phase isn't ended. It never comes where the caller stands for a record of a run, whose
    /// segment has the length of the settings.
    NoMemory,
}
