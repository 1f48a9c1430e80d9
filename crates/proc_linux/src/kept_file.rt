//! The files that are kept of a child.

ghost use Rattle.std.specs.Prelude.{◌≡◌, IfOk, string_bytes};
ghost use Rattle.proc_linux.specs.Ends.{kept_path};

use std::alloc::{AllocError, Global};

/// The path of the file of the child of a rank, `FOLDER/RANK.ENDING`.
///
/// # Errors
///
/// `AllocError` where memory ran out.
pub fn kept_path(alloc: Global, folder: &str, rank: u16, ending: &str) -> Result<String, AllocError>
    ensures { IfOk result (λ path. string_bytes path ≡ kept_path folder.now rank ending.now) }
{
    format!(in alloc; "{folder}/{rank}.{ending}")
}
