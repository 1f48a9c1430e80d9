//! How far the lines of a command were said.

ghost use Rattle.std.specs.Prelude.{◌≡◌};
ghost use Rattle.sim_run.specs.LinesWritten.{said_of};

use base_io::Wrote;

/// How far lines were said.
#[derive(Clone, Copy)]
pub enum Said {
    /// All of them.
    Done,
    /// A prefix of their text: the sink failed.
    Fault,
    /// Whole lines of them: memory ran out.
    NoMemory,
}

impl Said {
    /// As far as a write went.
    pub fn from_wrote(wrote: Wrote) -> Said
        ensures { result ≡ said_of wrote }
    {
        match wrote {
            Wrote::Done => Said::Done,
            Wrote::Fault => Said::Fault,
        }
    }
}
