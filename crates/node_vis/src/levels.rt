//! The runs of a strided transfer.

ghost use Rattle.std.specs.Prelude.{◌≡◌, ◌≤◌, ◌<◌, IfOk, IfSome, MatchOption, length};
ghost use Rattle.std.specs.List.{list_any};
ghost use Rattle.node_vis.specs.Pairs.{level_pairs, vectors as vectors_of};
ghost use Rattle.node_vis.specs.Runs.{AddsAll, AreFew, is_none, IsGathered, IsNear};

use crate::runs::{Run, Runs};
use crate::shapes::{Level, PlanFault};
use std::alloc::Global;

/// How many vectors of indexes a strided transfer has at most.
const MOST_VECTORS: u64 = 65_536;

/// Whether the index of some level has no value.
fn has_none(levels: &[Level]) -> bool
    ensures { result ≡ list_any is_none levels.now }
{
    for level in levels {
        if level.count == 0 {
            return true;
        }
    }
    false
}

/// How many vectors of indexes the levels have. `None` where they are more than 65,536.
#[tactic(auto, using(crate::proofs::Counting::no_vectors, crate::proofs::Counting::some_vectors))]
pub fn few_vectors(levels: &[Level]) -> Option<u64>
    ensures vectors { MatchOption result (MOST_VECTORS < vectors_of levels.now)
        (λ n. n ≡ vectors_of levels.now) }
    ensures few { IfSome result (λ n. n ≤ MOST_VECTORS) }
{
    if has_none(levels) {
        return Some(0);
    }
    let mut vectors: u64 = 1;
    for level in levels {
        if level.count > MOST_VECTORS {
            return None;
        }
        vectors *= level.count;
        if vectors > MOST_VECTORS {
            return None;
        }
    }
    Some(vectors)
}

/// Adds the pairs of these levels, from this run on.
fn add_levels(runs: &mut Runs, levels: &[Level], first: Run) -> Result<(), PlanFault>
    requires few { AreFew levels.now }
    requires near { IsNear (length levels.now) first }
    ensures { AddsAll runs.old (level_pairs levels.now first.remote first.local first.len) result
        runs.new }
{
    let Some((level, deeper)) = levels.split_first() else {
        return runs.add(first);
    };
    for index in 0..level.count {
        add_levels(
            runs,
            deeper,
            Run {
                remote: first.remote + u128::from(index) * u128::from(level.remote),
                local: first.local + u128::from(index) * u128::from(level.local),
                len: first.len,
            },
        )?;
    }
    Ok(())
}

/// The runs of levels that have so many vectors of indexes, from this run on.
pub fn strided_runs(
    alloc: Global,
    levels: &[Level],
    vectors: u64,
    first: Run,
) -> Result<Runs, PlanFault>
    requires vectors { vectors ≡ vectors_of levels.now }
    requires few { vectors ≤ MOST_VECTORS }
    requires near { IsNear (length levels.now) first }
    ensures { IsGathered (level_pairs levels.now first.remote first.local first.len) result }
{
    let mut runs = Runs::new(alloc);
    if vectors > 0 {
        add_levels(&mut runs, levels, first)?;
    }
    Ok(runs)
}
