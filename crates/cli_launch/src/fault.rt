//! Why a launch gave no outputs.

use std::fmt;

/// Why a launch gave no outputs.
#[derive(Clone, Copy, Drop)]
pub enum LaunchFault {
    /// A child failed: it ended with a status other than 0 and 1, or gave something else than an output of its node
    /// with that status.
    Child {
        /// The smallest rank of such a child.
        rank: u16,
        /// Its exit status.
        code: u8,
    },
    /// The spawner failed.
    SpawnFault,
    /// Memory ran out.
    NoMemory,
}

impl fmt::Display for LaunchFault {
    fn fmt<W: fmt::Write>(&self, f: &mut fmt::Formatter<W>) -> fmt::Result {
        match *self {
            LaunchFault::Child { rank, code } => write!(
                f,
                "the child of node {rank} failed with status {code}"
            ),
            LaunchFault::SpawnFault => write!(f, "the spawner failed"),
            LaunchFault::NoMemory => write!(f, "no memory"),
        }
    }
}
