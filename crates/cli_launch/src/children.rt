//! The starts and the ends of children.

ghost use Rattle.std.specs.Prelude.{◌≡◌, ◌≤◌, ◌<◌, MatchResult, length, option_map};
ghost use Rattle.base_io.specs.Faults.{Rose};
ghost use Rattle.cli_launch.specs.Children.{Spawns, ends_of, spawner_seen, with_starts};

use base_io::{Finished, Spawner, Started};
use std::alloc::{AllocError, Global};

/// A child that was finished.
#[derive(Drop)]
pub struct Child {
    /// Its rank.
    pub rank: u16,
    /// What it gave.
    pub output: Vec<u8>,
    /// The answer that its finish had.
    pub answer: Finished,
}

/// Starts a child for each of so many nodes, in rising order of ranks, and answers how many were started: all of them,
/// unless the spawner failed.
fn start_children<P: Spawner>(spawner: &mut P, nodes: u16, port: u16, input: &[u8]) -> u16
    ensures few { result ≤ nodes }
    ensures told { P.told spawner.new
        ≡ option_map (with_starts result port input.now) (P.told spawner.old) }
    ensures later { P.faults spawner.old ≤ P.faults spawner.new }
    ensures cause { result < nodes → Rose (P.faults spawner.old) (P.faults spawner.new) }
{
    for rank in 0..nodes {
        match spawner.start(rank, port, input) {
            Started::Started => {}
            Started::Failed => return rank,
        }
    }
    nodes
}

/// Starts a child for each of so many nodes, and finishes all that were started, in rising order of ranks. Where
/// memory for their ends runs out none is started.
pub fn run_children<P: Spawner>(
    alloc: Global,
    spawner: &mut P,
    nodes: u16,
    port: u16,
    input: &[u8],
) -> Result<Vec<Child>, AllocError>
    ensures { MatchResult result
        (λ children. Spawns nodes port input.now
        (spawner_seen P.Spawner spawner.old) (spawner_seen P.Spawner spawner.new)
        (length children.items) (ends_of children.items))
        (λ _. spawner.new ≡ spawner.old) }
{
    let mut children = Vec::with_capacity(alloc, usize::from(nodes))?;
    let started = start_children(spawner, nodes, port, input);
    for rank in 0..started {
        let mut output = Vec::new(alloc);
        let answer = spawner.finish(rank, &mut output);
        children.push_reserved(Child {
            rank,
            output,
            answer,
        });
    }
    Ok(children)
}
