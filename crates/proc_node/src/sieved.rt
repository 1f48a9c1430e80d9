//! A sieve before a link, with what was handed to it.

ghost use Rattle.std.specs.Prelude.{◌≡◌, MatchResult};
ghost use Rattle.proc_node.specs.Sieved.{IsFreshSieve, IsSieved};

use crate::handed::Handed;
use base_io::{Link, LinkAnswer, Received, Sieve};
use std::alloc::Global;
use std::snapshot::Snapshot;
use text_job::SieveRule;

/// A sieve before a link, and for clauses alone what was handed to it since the link was as it was at first.
///
/// It tells as sent what was handed to it, behind what names its opening: so that the link behind and the datagrams of
/// a run can be told to be of one opening.
#[derive(Drop)]
pub struct Sieved<L: Link> {
    sieve: Sieve<L>,
    first: Snapshot<L>,
    handed: Handed,
    ghost told: { IsSieved L.Link first.value handed.datagrams sieve },
}

impl<L: Link> Sieved<L> {
    /// A sieve before this link, to which nothing was handed yet. For want of memory it hands the link back.
    pub fn new(alloc: Global, link: L, rule: SieveRule) -> Result<Sieved<L>, L>
        ensures { MatchResult result
            (λ made. IsFreshSieve rule link made.sieve made.first.value
            made.handed.datagrams)
            (λ back. back ≡ link) }
    {
        let first = Snapshot::of(&link);
        match Sieve::new(alloc, link, rule.lose, rule.repeat, rule.swap) {
            Ok(sieve) => Ok(Sieved {
                sieve,
                first,
                handed: Handed::new(),
            }),
            Err(link) => Err(link),
        }
    }

    /// The link behind; a datagram that is held back is dropped.
    pub fn into_inner(self) -> L
        ensures { result ≡ self.sieve.inner }
    {
        let Sieved { sieve, .. } = self;
        sieve.into_inner()
    }
}

impl<L: Link> Link for Sieved<L> {
    ghost use Rattle.std.specs.Prelude.{◌++◌, Some};
    ghost use Rattle.proc_node.specs.Sieved.{heading};

    ghost bound = { λ s. L.bound s.sieve.inner };

    ghost sent = { λ s. Some (heading L.Link s.first.value s.sieve ++ s.handed.datagrams) };

    ghost received = { λ s. L.received s.sieve.inner };

    ghost waiting = { λ s. L.waiting s.sieve.inner };

    ghost faults = { λ s. L.faults s.sieve.inner };

    /// Binds the link behind.
    fn bind(&mut self, rank: u16, nodes: u16, port: u16) -> LinkAnswer {
        self.sieve.bind(rank, nodes, port)
    }

    /// Hands a datagram to the sieve.
    fn send(&mut self, to: u16, bytes: &[u8]) -> LinkAnswer {
        match self.sieve.hand(to, bytes) {
            LinkAnswer::Done => {
                self.handed.push(to, bytes);
                LinkAnswer::Done
            }
            LinkAnswer::Failed => LinkAnswer::Failed,
        }
    }

    /// Receives by the link behind.
    fn receive(&mut self, buf: &mut [u8]) -> Received {
        self.sieve.receive(buf)
    }
}
