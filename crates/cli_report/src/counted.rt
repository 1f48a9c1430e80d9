//! A spawner before another one that counts the nodes that are started and finished, and keeps what
//! they gave.

ghost use Rattle.std.specs.Prelude.{◌≡◌, [], ◌++◌, ◌∷◌, OnOk, map};
ghost use Rattle.cli_report.specs.Counted.{KeepsOutput, node_output, given_of};

use crate::progress::Counter;
use crate::seen::Counts;
use base_io::{Finished, Spawner, Started};
use std::alloc::{AllocError, Global};

/// The most bytes that are kept of all nodes.
const MOST: usize = 8_388_608;

/// What a node gave.
#[derive(Drop)]
pub struct KeptOutput {
    /// Its rank.
    pub rank: u16,
    /// Its bytes.
    pub bytes: Vec<u8>,
}

/// What the nodes gave that were finished.
#[derive(Drop)]
struct KeptOutputs {
    alloc: Global,
    /// In the order in which they were finished; none where they were too many bytes.
    outputs: Vec<KeptOutput>,
    bytes: usize,
}

impl KeptOutputs {
    /// Nothing yet.
    fn new(alloc: Global) -> KeptOutputs
        ensures outputs { result.outputs.items ≡ [] }
        ensures bytes { result.bytes ≡ 0 }
    {
        KeptOutputs {
            alloc,
            outputs: Vec::new(alloc),
            bytes: 0,
        }
    }

    /// A copy of what a node gave is kept.
    fn add(&mut self, rank: u16, bytes: &[u8]) -> Result<(), AllocError>
        ensures added { OnOk result (map given_of self.new.outputs.items
            ≡ map given_of self.old.outputs.items ++ node_output rank bytes.now ∷ []) }
        ensures bytes { self.new.bytes ≡ self.old.bytes }
    {
        let bytes = bytes.to_vec(self.alloc)?;
        self.outputs.push(KeptOutput { rank, bytes })?;
        Ok(())
    }

    /// Keeps what a node gave, unless all have given too many bytes, or memory runs out.
    fn keep(&mut self, rank: u16, bytes: &[u8])
        ensures { KeepsOutput self.old.bytes self.new.bytes (node_output rank bytes.now)
            (map given_of self.old.outputs.items) (map given_of self.new.outputs.items) }
    {
        self.bytes = self.bytes.saturating_add(bytes.len());
        if self.bytes > MOST || self.add(rank, bytes).is_err() {
            self.outputs.clear();
        }
    }
}

/// A spawner whose starts and finishes are counted, and that keeps what its nodes gave.
#[derive(Drop)]
pub struct CountedSpawner<'a, P, C> {
    inner: P,
    kept: KeptOutputs,
    counts: &'a C,
}

impl<'a, P: Spawner, C: Counts> CountedSpawner<'a, P, C> {
    /// This spawner, whose starts and finishes are counted there.
    pub fn new(alloc: Global, inner: P, counts: &'a C) -> CountedSpawner<'a, P, C>
        ensures inner { result.inner ≡ inner }
        ensures kept { result.kept.outputs.items ≡ [] }
    {
        CountedSpawner {
            inner,
            kept: KeptOutputs::new(alloc),
            counts,
        }
    }

    /// The spawner behind, and what its nodes gave.
    pub fn into_parts(self) -> (P, Vec<KeptOutput>)
        ensures inner { result.0 ≡ self.entry.inner }
        ensures kept { result.1 ≡ self.entry.kept.outputs }
    {
        let CountedSpawner {
            inner,
            kept,
            counts: _,
        } = self;
        (inner, kept.outputs)
    }
}

impl<P: Spawner, C: Counts> Spawner for CountedSpawner<'_, P, C> {
    ghost told = { λ s. P.told s.inner };

    ghost faults = { λ s. P.faults s.inner };

    fn start(&mut self, rank: u16, port: u16, input: &[u8]) -> Started {
        let started = self.inner.start(rank, port, input);
        self.counts.add(Counter::Started, 1);
        started
    }

    fn finish(&mut self, rank: u16, into: &mut Vec<u8>) -> Finished {
        let finished = self.inner.finish(rank, into);
        self.kept.keep(rank, into);
        self.counts.add(Counter::Ended, 1);
        finished
    }
}
