//! The runs of an indexed transfer.

ghost use Rattle.std.specs.Prelude.{◌≡◌, ◌≤◌, length};
ghost use Rattle.node_vis.specs.Pairs.{range_pairs, total};
ghost use Rattle.node_vis.specs.Runs.{AddsAll, IsGathered};

use crate::runs::{Run, Runs};
use crate::shapes::PlanFault;
use std::alloc::Global;

/// How many bytes the ranges have.
pub fn total(ranges: &[(u64, u64)]) -> u128
    requires { length ranges.now ≤ 256 }
    ensures { result ≡ total ranges.now }
{
    let mut all: u128 = 0;
    for (_, len) in ranges {
        all += u128::from(*len);
    }
    all
}

/// What is left of a range.
#[derive(Clone, Copy)]
struct Rest {
    first: u128,
    len: u128,
}

/// Adds the pairs of the ranges.
fn add_ranges(runs: &mut Runs, remote: &[(u64, u64)], local: &[(u64, u64)]) -> Result<(), PlanFault>
    ensures { AddsAll runs.old (range_pairs remote.now local.now) result runs.new }
{
    let (mut remotes, mut locals) = (remote, local);
    let mut far = Rest { first: 0, len: 0 };
    let mut near = Rest { first: 0, len: 0 };
    loop {
        if far.len == 0 {
            let Some((range, later)) = remotes.split_first() else {
                return Ok(());
            };
            far = Rest {
                first: u128::from(range.0),
                len: u128::from(range.1),
            };
            remotes = later;
        } else if near.len == 0 {
            let Some((range, later)) = locals.split_first() else {
                return Ok(());
            };
            near = Rest {
                first: u128::from(range.0),
                len: u128::from(range.1),
            };
            locals = later;
        } else {
            let len = far.len.min(near.len);
            runs.add(Run {
                remote: far.first,
                local: near.first,
                len,
            })?;
            far = Rest {
                first: far.first + len,
                len: far.len - len,
            };
            near = Rest {
                first: near.first + len,
                len: near.len - len,
            };
        }
    }
}

/// The runs of the ranges.
pub fn indexed_runs(
    alloc: Global,
    remote: &[(u64, u64)],
    local: &[(u64, u64)],
) -> Result<Runs, PlanFault>
    ensures { IsGathered (range_pairs remote.now local.now) result }
{
    let mut runs = Runs::new(alloc);
    add_ranges(&mut runs, remote, local)?;
    Ok(runs)
}
