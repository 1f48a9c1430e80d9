//! Why a text is no trace.

ghost use Rattle.std.specs.Prelude.{◌≡◌};
ghost use Rattle.text_trace.specs.declared.fault.LineFault.TheVariants.{NoMemory as Exhausted, Bad as BadWords};
ghost use Rattle.text_trace.specs.declared.fault.TraceFault.TheVariants.{NoMemory as Spent};

use base_text::LineWhy;
use std::alloc::{AllocError, AllocFailed};
use thiserror::Error;

/// Why no trace was read.
#[derive(Debug, Drop, Error)]
pub enum TraceFault {
    /// The bytes begin with no trace's text.
    #[error("line {line} is bad")]
    Bad {
        /// The first bad line, counted from 1.
        line: u32,
        /// The first reason that applies to it: `Early`, `Text`, `Form` or `Value`.
        why: LineWhy,
    },
    /// Memory ran out.
    #[error("no memory")]
    NoMemory,
}

/// Why the words of a line weren't read.
#[derive(Drop)]
pub enum LineFault {
    /// Memory ran out.
    NoMemory,
    /// The line is bad, for this reason.
    Bad(LineWhy),
}

impl From<AllocError> for TraceFault {
    ghost from_gives = { λ _ e. e ≡ Spent };

    fn from(_e: AllocError) -> TraceFault {
        TraceFault::NoMemory
    }
}

impl<T: Drop> From<AllocFailed<T>> for TraceFault {
    ghost from_gives = { λ _ e. e ≡ Spent };

    fn from(_e: AllocFailed<T>) -> TraceFault {
        TraceFault::NoMemory
    }
}

impl From<AllocError> for LineFault {
    ghost from_gives = { λ _ e. e ≡ Exhausted };

    fn from(_e: AllocError) -> LineFault {
        LineFault::NoMemory
    }
}

impl From<LineWhy> for LineFault {
    ghost from_gives = { λ why e. e ≡ BadWords why };

    fn from(why: LineWhy) -> LineFault {
        LineFault::Bad(why)
    }
}
