//! Machines whose threads take turns.

ghost use Rattle.std.specs.Prelude.{◌≡◌, ℕ, ◌<◌, ◌≤◌, Bool, true, false};
ghost use Rattle.std.specs.Prelude.{List, Option, None, IsSome};
ghost use Rattle.std.specs.Prelude.{option_map, option_copied, slice_get};
ghost use Rattle.base_turns.specs.declared.turns.Turned.{Turned};

/// What a turn did.
#[derive(Clone, Copy)]
pub struct Turned {
    /// Something was got or sent, or a script step ended, or began without ending.
    pub changed: bool,
    /// A script step ended.
    pub stepped: bool,
    /// How many datagrams are to be sent, at most three.
    pub sends: u8,
}

/// A machine whose threads take turns, numbered from 0. What it keeps stands for a state, and each
/// clause is said of every state for which it stood.
pub trait Machine {
    /// What a machine stands for.
    ghost State: { Type 0 };
    /// The machine stands for the state.
    ghost stands: { Self → State → Type 0 };
    /// How many threads it has.
    ghost thread_count: { Self → ℕ };
    /// Whether a thread polls: only then it may be handed a datagram.
    ghost polls_at: { Self → ℕ → Bool };
    /// Whether no script has a step left.
    ghost is_over: { Self → Bool };
    /// Whether a thread polls, in the state.
    ghost polls_in: { State → ℕ → Bool };
    /// The state after a turn of a thread, at a time, with a datagram that was got or none.
    ghost after: { State → ℕ → ℕ → Option (List ℕ) → State };
    /// What that turn tells.
    ghost turned: { State → ℕ → ℕ → Option (List ℕ) → Turned };
    /// The datagrams of the last turn that wasn't empty, each with the node that it is for.
    ghost sent: { State → List (ℕ × List ℕ) };

    /// How many threads it has. That never changes.
    fn threads(&self) -> u16
        ensures { result ≡ thread_count self.now };

    /// Whether a thread polls.
    fn polls(&self, thread: u16) -> bool
        requires { thread < thread_count self.now }
        ensures polls { result ≡ polls_at self.now thread }
        ensures state { (r : State) → stands self.now r → result ≡ polls_in r thread };

    /// Whether no script has a step left.
    fn over(&self) -> bool
        ensures { result ≡ is_over self.now };

    /// A turn of a thread at a time, with a datagram that was got, or none. It takes no memory.
    ///
    /// What `polls` says changes only in a turn that ended a script step. A turn that got nothing and
    /// changed nothing is empty: it sends nothing, ends no step, and leaves what the machine stands
    /// for, with what `outgoing` gives.
    fn turn(&mut self, thread: u16, now: u64, got: Option<&[u8]>) -> Turned
        requires thread { thread < thread_count self.old }
        requires polls { IsSome got → polls_at self.old thread ≡ true }
        ensures after { (r : State) → stands self.old r
            → stands self.new (after r thread now (option_copied got.entry)) }
        ensures turned { (r : State) → stands self.old r
            → result ≡ turned r thread now (option_copied got.entry) }
        ensures threads { thread_count self.new ≡ thread_count self.old }
        ensures polls { result.stepped ≡ false
            → (k : ℕ) → polls_at self.new k ≡ polls_at self.old k }
        ensures sends { result.sends ≤ 3 }
        ensures empty { option_copied got.entry ≡ None → result.changed ≡ false
            → (result.sends ≡ 0) × (result.stepped ≡ false)
            × ((r : State) → stands self.old r → stands self.new r) };

    /// Datagram `i` of the last turn that wasn't empty, counted from 0, with the node that it is for;
    /// none exactly where there are no more than `i`.
    fn outgoing(&self, i: u8) -> Option<(u16, &[u8])>
        ensures { (r : State) → stands self.now r
            → option_map (λ p. (p.0, p.1.now)) result ≡ slice_get (sent r) i };
}
