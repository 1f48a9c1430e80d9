//! Why a text is no job.

ghost use Rattle.std.specs.Prelude.{◌≡◌};
ghost use Rattle.text_job.specs.declared.fault.JobFault.TheVariants.{NoMemory as Spent};

use base_text::LineWhy;
use std::alloc::{AllocError, AllocFailed};
use thiserror::Error;

/// Why no job was read.
#[derive(Debug, Drop, Error)]
pub enum JobFault {
    /// The bytes are no job's text.
    #[error("line {line} is bad")]
    Bad {
        /// The first bad line, counted from 1; 0 where the text is too long.
        line: u32,
        /// The first reason that applies to it.
        why: LineWhy,
    },
    /// Memory ran out.
    #[error("no memory")]
    NoMemory,
}

impl From<AllocError> for JobFault {
    ghost from_gives = { λ _ e. e ≡ Spent };

    fn from(_e: AllocError) -> JobFault {
        JobFault::NoMemory
    }
}

impl<T: Drop> From<AllocFailed<T>> for JobFault {
    ghost from_gives = { λ _ e. e ≡ Spent };

    fn from(_e: AllocFailed<T>) -> JobFault {
        JobFault::NoMemory
    }
}
