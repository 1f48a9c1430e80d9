//! The datagrams that were handed to a sieve.

ghost use Rattle.std.specs.Prelude.{◌≡◌, ℕ, List, [], ◌∷◌, ◌++◌};
ghost use Rattle.std.specs.Borrow.{ftrue};

use std::marker::{Model, PhantomData};

/// Datagrams with their nodes, in order. Only clauses read them: they take no memory.
#[derive(Drop)]
pub struct Handed {
    marker: PhantomData<u8>,
    pub ghost datagrams: { List (ℕ × List ℕ) },
}

impl Model for Handed {
    ghost also_owns = { λ _. ftrue };
}

// They own nothing, so they may go to another thread.
unsafe impl Send for Handed {}

impl Handed {
    /// None.
    pub fn new() -> Handed
        ensures { result.datagrams ≡ [] }
    {
        Handed {
            marker: PhantomData,
        }
    }

    /// One more, to this node.
    pub fn push(&mut self, _to: u16, _bytes: &[u8])
        ensures { self.new.datagrams ≡ self.old.datagrams ++ (_to, _bytes.now) ∷ [] }
    {}
}
