//! Tables of forms in code: how many words may follow the name of a form.
//!
//! A crate of lines has an enumeration of its forms. Its function `row` is the one place in code where the name of a
//! form and the count of its words stand: reading, refusing and printing ask it.

ghost use Rattle.std.specs.Prelude.{◌≡◌};
ghost use Rattle.text_calls.specs.Tables.{fits};

use crate::bundles::are_bundles;
use base_text::is_between;

/// How many words may follow the name of a form.
#[derive(Clone, Copy)]
pub enum WordCount {
    /// So many.
    Exactly(usize),
    /// From the first count to the second.
    Between(usize, usize),
    /// So many, and then 1 to 16 operations of remote atomics, of four words each.
    Operations(u8),
}

impl WordCount {
    /// Whether so many words may follow the name.
    pub fn fits(self, words: usize) -> bool
        ensures { result ≡ fits self words }
    {
        match self {
            WordCount::Exactly(count) => words == count,
            WordCount::Between(least, most) => is_between(words, least, most),
            WordCount::Operations(before) => are_bundles(words, usize::from(before), 1, 16, 4),
        }
    }
}
