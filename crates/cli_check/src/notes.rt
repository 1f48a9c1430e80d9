//! What is told of a run beside its lines.

/// What is told of a run, beside what is written of it, to a person. No clause speaks of it.
pub trait Notes {
    /// The node of this rank refused the bytes that so many of its turns got, whatever it did before: the traces are
    /// judged without them.
    fn rejected(&mut self, rank: u16, turns: usize);
}

/// Nobody is told anything.
#[derive(Clone, Copy, Drop)]
pub struct NoNotes;

impl Notes for NoNotes {
    /// Nothing.
    fn rejected(&mut self, _rank: u16, _turns: usize) {}
}
