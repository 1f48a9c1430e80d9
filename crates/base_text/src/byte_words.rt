//! Bytes of a line, as a value.

ghost use Rattle.std.specs.Prelude.{◌≡◌};

use std::marker::Model;

/// The most bytes of a word: one more than a payload has, so that a job can have a payload that is too long.
pub const MAX_WORD_BYTES: usize = 8_193;

/// Bytes of a line, at most `MAX_WORD_BYTES`, in an allocation of their own.
#[derive(Drop)]
pub struct LineBytes {
    pub(crate) inside: Box<Vec<u8>>,
}

impl Model for LineBytes {
    ghost use Rattle.std.specs.Prelude.{ℕ, List};
    ghost use Rattle.std.specs.Box.{box_value};

    ghost Value = { List ℕ };

    ghost view = { λ b. (box_value b.inside).items };
}

impl LineBytes {
    /// The bytes, at most `MAX_WORD_BYTES` where the job was read.
    pub fn items(&self) -> &[u8]
        ensures { result.now ≡ self.now }
    {
        &self.inside
    }
}
