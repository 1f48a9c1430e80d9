//! The command by which a child is started.

ghost use Rattle.std.specs.Prelude.{◌≡◌, ◌∷◌, [], IfOk, codes, decimal};
ghost use Rattle.std.specs.Process.{command_args, command_program};

use itoa::Buffer;
use std::alloc::{AllocError, Global};
use std::process::{Command, Stdio};

/// The command of the child of this rank: the program with the words `node RANK PORT`, and pipes at its input and its
/// output.
///
/// # Errors
///
/// `AllocError` where memory ran out.
pub fn child_command(
    alloc: Global,
    program: &str,
    rank: u16,
    port: u16,
) -> Result<Command, AllocError>
    ensures program { IfOk result (λ command. command_program command ≡ program.now) }
    ensures words { IfOk result (λ command. command_args command
        ≡ codes "node" ∷ decimal rank ∷ decimal port ∷ []) }
{
    let mut rank_text = Buffer::new();
    let mut port_text = Buffer::new();
    let mut command = Command::new(alloc, program)?;
    command.arg("node")?;
    command.arg(rank_text.format(rank))?;
    command.arg(port_text.format(port))?;
    command.stdin(Stdio::piped());
    command.stdout(Stdio::piped());
    Ok(command)
}
