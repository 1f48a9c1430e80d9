//! The names of a trace's lines.

ghost use Rattle.std.specs.Prelude.{◌≡◌};
ghost use Rattle.std.specs.Str.{bytes_eq};
ghost use Rattle.text_trace.specs.LineNames.{line_name};

use base_text::is_name;

/// A line of a trace, without the words behind its name.
#[derive(Clone, Copy)]
pub enum LineName {
    /// `trace VERSION`
    Trace,
    /// `job NUMBER`
    Job,
    /// `rank NUMBER`
    Rank,
    /// `turn THREAD TIME GOT`
    Turn,
    /// `end`
    End,
}

impl LineName {
    /// The word with which the line begins.
    pub fn word(self) -> &'static [u8]
        ensures { result.now ≡ line_name self }
    {
        match self {
            LineName::Trace => b"trace",
            LineName::Job => b"job",
            LineName::Rank => b"rank",
            LineName::Turn => b"turn",
            LineName::End => b"end",
        }
    }

    /// Whether a word is that one.
    pub fn matches(self, word: &[u8]) -> bool
        ensures { result ≡ bytes_eq word.now (line_name self) }
    {
        is_name(word, self.word())
    }
}
