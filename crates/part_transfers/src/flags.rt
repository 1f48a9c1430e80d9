//! Flags of nodes, which are asked as they are needed.

/// A flag for each node. What says them stands for some flags, and each clause holds of all for which it does.
pub trait Flags {
    ghost use Rattle.std.specs.Prelude.{◌≡◌, ℕ, Bool, false};

    /// It stands for these flags.
    ghost stands: { Self → (ℕ → Bool) → Type 0 };

    /// Whether the flag of a node is set.
    fn is_set(&self, node: u16) -> bool
        ensures { (flag : ℕ → Bool) → stands self.now flag → result ≡ flag node };

    /// Whether some flag may be set: where it answers false none is.
    fn may_be_set(&self) -> bool
        ensures { (flag : ℕ → Bool) → stands self.now flag → result ≡ false
            → (node : ℕ) → flag node ≡ false };
}
