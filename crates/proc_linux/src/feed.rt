//! Giving a child its input.

ghost use Rattle.std.specs.Prelude.{IfOk};
ghost use Rattle.proc_linux.specs.Children.{Feeds};

use std::io::{self, ErrorKind, Write};

/// How much of its input a child took.
#[derive(Clone, Copy)]
pub enum Fed {
    /// All of it.
    Whole,
    /// The child ended before it had taken all.
    Broken,
}

/// Writes all the input to a child's pipe, unless the child ends before.
///
/// # Errors
///
/// Each other error of the pipe.
pub fn feed<W: Write>(pipe: &mut W, input: &[u8]) -> io::Result<Fed>
    ensures { IfOk result (Feeds (W.contents pipe.old) (W.contents pipe.new) input.now) }
{
    match pipe.write_all(input) {
        Ok(()) => Ok(Fed::Whole),
        Err(error) if error.kind() == ErrorKind::BrokenPipe => Ok(Fed::Broken),
        Err(error) => Err(error),
    }
}
