//! Why a text is refused.

use std::error::Error;
use std::fmt;

/// The first reason that applies to the first bad line of a text.
#[derive(Clone, Copy, Debug)]
pub enum LineWhy {
    /// The text has more bytes than its reader takes; told before all others, for line 0.
    Size,
    /// The text ends before the line `done`.
    Early,
    /// The line has a byte outside printable ASCII, an empty word, or no ending byte.
    Text,
    /// A word that may not stand where the line's form is decided, or another number of words than its form has.
    Form,
    /// Another word isn't in its set or range.
    Value,
    /// The handler's index, or the pair of nodes, stood in a line before.
    Entry,
    /// One pair, handler, action or schedule line too many, or too many rounds of `settle` in all.
    Count,
    /// A byte stands after the line `done`.
    After,
}

impl fmt::Display for LineWhy {
    fn fmt<W: fmt::Write>(&self, f: &mut fmt::Formatter<W>) -> fmt::Result {
        match *self {
            LineWhy::Size => write!(f, "the text is too long"),
            LineWhy::Early => write!(f, "the text ends early"),
            LineWhy::Text => write!(f, "the line isn't words with one space between each two"),
            LineWhy::Form => write!(f, "the line has no form that may stand there"),
            LineWhy::Value => write!(f, "a word isn't in its set or range"),
            LineWhy::Entry => write!(f, "it stood in a line before"),
            LineWhy::Count => write!(f, "one more than there may be"),
            LineWhy::After => write!(f, "a byte stands behind the last line"),
        }
    }
}

impl Error for LineWhy {}
