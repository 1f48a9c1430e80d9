//! What a reader of words tells that read none.

ghost use Rattle.std.specs.Prelude.{◌≡◌};
ghost use Rattle.base_text.specs.declared.miss.Miss.TheVariants.{NoMemory as Exhausted, Unlike};

use std::alloc::{AllocError, AllocFailed};
use std::error::Error;
use std::fmt;

/// The bytes are spelled otherwise.
#[derive(Clone, Copy, Debug)]
pub struct Other;

impl fmt::Display for Other {
    fn fmt<W: fmt::Write>(&self, f: &mut fmt::Formatter<W>) -> fmt::Result {
        write!(f, "the bytes are spelled otherwise")
    }
}

impl Error for Other {}

/// Why bytes weren't read.
#[derive(Debug, Drop)]
pub enum Miss {
    /// Memory ran out.
    NoMemory,
    /// They are spelled otherwise.
    Unlike,
}

impl fmt::Display for Miss {
    fn fmt<W: fmt::Write>(&self, f: &mut fmt::Formatter<W>) -> fmt::Result {
        match *self {
            Miss::NoMemory => write!(f, "memory ran out"),
            Miss::Unlike => write!(f, "the bytes are spelled otherwise"),
        }
    }
}

impl Error for Miss {}

impl From<AllocError> for Miss {
    ghost from_gives = { λ _ e. e ≡ Exhausted };

    fn from(_e: AllocError) -> Miss {
        Miss::NoMemory
    }
}

impl<T: Drop> From<AllocFailed<T>> for Miss {
    ghost from_gives = { λ _ e. e ≡ Exhausted };

    fn from(_e: AllocFailed<T>) -> Miss {
        Miss::NoMemory
    }
}

impl From<Other> for Miss {
    ghost from_gives = { λ _ e. e ≡ Unlike };

    fn from(_e: Other) -> Miss {
        Miss::Unlike
    }
}
