//! The laws of prefixes.

ghost use Rattle.std.specs.Prelude.{◌≡◌, ℕ, ◌≤◌, List, slice_index, ◌⊎◌};
ghost use Rattle.base_turns.specs.Replay.{Steps};
ghost use Rattle.base_turns.specs.Prefixes.{Node, CanGo, IsRun, IsStuck, Reaches};
ghost use Rattle.text_trace.specs.Cut.{IsSilent, cut};

/// What holds of all prefixes of any nodes, whatever states their machines stand for.
pub fn prefix_law<S>()
    // What can go at a prefix can go at each prefix that has the same number for that node and
    // no smaller one for another.
    ensures later { (s : Steps S) (nodes : List (Node S)) (prefix other : List ℕ) (rank : ℕ)
        → slice_index prefix rank ≡ slice_index other rank
        → ((k : ℕ) → slice_index prefix k ≤ slice_index other k)
        → CanGo s nodes prefix rank → CanGo s nodes other rank }
    // There is at most one stuck prefix.
    ensures one { (s : Steps S) (nodes : List (Node S)) (prefix other : List ℕ)
        → IsStuck s nodes prefix → IsStuck s nodes other → prefix ≡ other }
    // Traces are a run, or have a stuck prefix,
    ensures run_or_stuck { (s : Steps S) (nodes : List (Node S))
        → IsRun s nodes ⊎ ((prefix : List ℕ) × IsStuck s nodes prefix) }
    // and never both.
    ensures not_both { (s : Steps S) (nodes : List (Node S)) (prefix : List ℕ)
        → IsRun s nodes → IsStuck s nodes prefix → ⊥ }
    // The entries that have gone at a prefix that is reached are a run.
    ensures cut { (s : Steps S) (nodes : List (Node S)) (prefix ranks : List ℕ)
        → Reaches s nodes ranks prefix → IsRun s (cut nodes prefix) }
    // So are those up to any prefix behind which nothing was sent, where all are.
    ensures silent { (s : Steps S) (nodes : List (Node S)) (prefix : List ℕ)
        → IsRun s nodes → IsSilent s nodes prefix → IsRun s (cut nodes prefix) }
{}
