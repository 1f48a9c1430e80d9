//! What holds of every replay.

ghost use Rattle.std.specs.Prelude.{◌≡◌, ℕ, ◌++◌, ◌∷◌, [], List};
ghost use Rattle.base_turns.specs.declared.entry.Entry.{Entry};
ghost use Rattle.base_turns.specs.Replay.{Steps, after_entry, given_by, got_in, replay_state, sent_in};
ghost use Rattle.std.specs.Option.{option_to_list};

/// What one entry more adds to a replay, whatever states machines stand for.
pub fn replay_law<S>()
    ensures replayed { (s : Steps S) (state : S) (entries : List Entry) (last : Entry)
        → replay_state s state (entries ++ last ∷ [])
        ≡ after_entry s (replay_state s state entries) last }
    ensures sent { (s : Steps S) (state : S) (entries : List Entry) (last : Entry)
        → sent_in s state (entries ++ last ∷ [])
        ≡ sent_in s state entries ++ given_by s (replay_state s state entries) last }
    ensures got { (entries : List Entry) (last : Entry)
        → got_in (entries ++ last ∷ []) ≡ got_in entries ++ option_to_list last.got }
{}
