//! Whether some byte would be written twice.

ghost use Rattle.std.specs.Prelude.{◌≡◌, IfOk, map};
ghost use Rattle.std.specs.List.{All};
ghost use Rattle.node_vis.specs.Pieces.{AreFilled};
ghost use Rattle.node_vis.specs.Runs.{ascend_from, EndsSoon, piece_in, some_meet, written_at};

use crate::runs::Run;
use crate::shapes::Way;
use std::alloc::{AllocError, Global};

/// Where a run is written.
fn written_at(way: Way, run: &Run) -> u128
    ensures { result ≡ written_at way (piece_in run.now) }
{
    match way {
        Way::Put => run.remote,
        Way::Get => run.local,
    }
}

/// Whether each run is written behind the end of the one before it.
fn ascend(way: Way, runs: &[Run]) -> bool
    requires { All EndsSoon runs.now }
    ensures { result ≡ ascend_from way 0 (map piece_in runs.now) }
{
    let mut end: u128 = 0;
    for run in runs {
        let first = written_at(way, run);
        if first < end {
            return false;
        }
        end = first + run.len;
    }
    true
}

/// Whether some two of the runs write the same byte.
pub fn some_meet(alloc: Global, way: Way, runs: &[Run]) -> Result<bool, AllocError>
    requires ends { All EndsSoon runs.now }
    requires filled { AreFilled (map piece_in runs.now) }
    ensures { IfOk result (λ meets. meets ≡ some_meet way (map piece_in runs.now)) }
{
    if ascend(way, runs) {
        return Ok(false);
    }
    let mut sorted = Vec::from_slice(alloc, runs)?;
    sorted.sort_unstable_by_key(|run| written_at(way, run));
    Ok(!ascend(way, &sorted))
}
