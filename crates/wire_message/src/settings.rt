//! The settings of a job.

ghost use Rattle.std.specs.Prelude.{◌≡◌, ◌≢◌, true, MatchOption, [], replicate};
ghost use Rattle.wire_message.specs.Parameters.{Parameters, AreInRange, credits_of, as_version_2, with_pair};
ghost use Rattle.wire_message.specs.Stored.{no_pair};
ghost use Rattle.wire_message.specs.declared.pairs.PairCredits.{PairCredits};
ghost use Rattle.wire_message.specs.Content.{is_version};

use crate::kind::is_version;
use crate::pairs::{PairCredits, own_credits};
use std::marker::Model;

/// How many pairs may have credits of their own.
const PLACES: usize = 64;

/// How many bytes a segment may have.
const MOST_BYTES: u64 = 1 << 40;

/// What stands at a place that no pair has.
const NO_PAIR: PairCredits = PairCredits {
    from: 0,
    to: 0,
    credits: 0,
};

/// The numbers that every node of a job knows, each within its limits (profile).
///
/// | Number | Limits |
/// |---|---|
/// | version of the datagrams | 1 or 2 |
/// | job | any |
/// | nodes | 1 to 64 in version 1, 1 to 256 in version 2 |
/// | credits of each ordered pair of nodes | 1 to 32 |
/// | pairs with credits of their own | at most 64 |
/// | threads of each node | 1 to 16 |
/// | bytes of each node's segment | a multiple of 4,096, from 4,096 to 2^40 |
/// | last number of a request | at least 1 |
/// | time after which a request is sent again, in the unit of the calls' `now` | 1 to 1,000,000 |
#[derive(Clone, Copy, Debug)]
pub struct Settings {
    version: u8,
    job: u64,
    nodes: u16,
    credits: u16,
    // the pairs with credits of their own, and how many they are; the places behind them are empty
    places: [PairCredits; PLACES],
    count: usize,
    threads: u16,
    segment: u64,
    last: u64,
    resend: u64,
}

impl Model for Settings {
    ghost use Rattle.std.specs.Prelude.{◌++◌, ◌-◌, replicate, length};
    ghost use Rattle.std.proofs.Common.{ap, ◌∙◌, take-append-drop, length-take-le, arith};
    ghost use Rattle.wire_message.specs.Parameters.{Parameters};

    ghost Value = { Parameters };

    ghost use Rattle.wire_message.specs.Stored.{parameters_of, IsStored, places_of};
    ghost use Rattle.wire_message.specs.Stored.{places_back};

    ghost view = { parameters_of };

    ghost inverse = { λ p. record {
      version = p.version;
      job = p.job;
      nodes = p.nodes;
      credits = p.credits;
      places = places_of p.pairs;
      count = length p.pairs;
      threads = p.threads;
      segment = p.segment;
      last = p.last;
      resend = p.resend;
    } };

    ghost inverse_ok = { λ s h i. record {
      version = s.version;
      job = s.job;
      nodes = s.nodes;
      credits = s.credits;
      places = places_back s h i;
      count = length-take-le s.count s.places (omega (arith, h.count, h.places)) i;
      threads = s.threads;
      segment = s.segment;
      last = s.last;
      resend = s.resend;
    } };

    ghost invariant = { IsStored };
}

/// No pairs.
fn no_places() -> [PairCredits; PLACES]
    ensures { result ≡ replicate 64 no_pair }
{
    [NO_PAIR; PLACES]
}

impl Settings {
    /// The settings with these numbers, where each pair of nodes has these credits.
    ///
    /// None exactly where a limit is broken.
    pub fn new(
        version: u8,
        job: u64,
        nodes: u16,
        credits: u16,
        threads: u16,
        segment: u64,
        last: u64,
        resend: u64,
    ) -> Option<Settings>
        ensures { let asked : Parameters = record {
          version = version;
          job = job;
          nodes = nodes;
          credits = credits;
          pairs = [];
          threads = threads;
          segment = segment;
          last = last;
          resend = resend;
        } in
            MatchOption result (¬ (AreInRange asked)) (λ s. (s ≡ asked) × AreInRange asked) }
    {
        if !is_version(version) {
            return None;
        }
        if nodes < 1 || nodes > 256 {
            return None;
        }
        if version == 1 && nodes > 64 {
            return None;
        }
        if credits < 1 || credits > 32 {
            return None;
        }
        if threads < 1 || threads > 16 {
            return None;
        }
        if segment < 4096 || segment > MOST_BYTES {
            return None;
        }
        if segment % 4096 != 0 {
            return None;
        }
        if last < 1 {
            return None;
        }
        if resend < 1 || resend > 1_000_000 {
            return None;
        }
        Some(Settings {
            version,
            job,
            nodes,
            credits,
            places: no_places(),
            count: 0,
            threads,
            segment,
            last,
            resend,
        })
    }

    /// The settings where `from` has so many credits towards `to`.
    ///
    /// None exactly where a limit is broken: one of the two is no node, or they are equal; the credits aren't 1 to 32;
    /// the pair was set before, or 64 pairs were.
    pub fn with_pair(&self, from: u16, to: u16, credits: u16) -> Option<Settings>
        ensures { let pair : PairCredits = record { from = from; to = to; credits = credits } in
            let asked = with_pair self.now pair in
            MatchOption result (¬ (AreInRange asked)) (λ s. (s ≡ asked) × AreInRange asked) }
    {
        if from >= self.nodes || to >= self.nodes {
            return None;
        }
        if from == to {
            return None;
        }
        if credits < 1 || credits > 32 {
            return None;
        }
        if self.count >= PLACES {
            return None;
        }
        if own_credits(&self.places[..self.count], from, to).is_some() {
            return None;
        }
        let mut places = self.places;
        places[self.count] = PairCredits { from, to, credits };
        Some(Settings {
            places,
            count: self.count + 1,
            ..*self
        })
    }

    /// The version of the datagrams, 1 or 2.
    pub fn version(&self) -> u8
        ensures version { result ≡ self.now.version }
        ensures known { is_version self.now.version ≡ true }
    {
        self.version
    }

    /// The job's number.
    pub fn job(&self) -> u64
        ensures { result ≡ self.now.job }
    {
        self.job
    }

    /// How many nodes there are; they are numbered from 0. Each number of the job is within its limit.
    pub fn nodes(&self) -> u16
        ensures nodes { result ≡ self.now.nodes }
        ensures range { AreInRange self.now }
    {
        self.nodes
    }

    /// How many credits `from` has towards `to`, which is how many requests may be under way from the one to the
    /// other.
    pub fn credits(&self, from: u16, to: u16) -> u16
        requires { from ≢ to }
        ensures { result ≡ credits_of self.now from to }
    {
        own_credits(&self.places[..self.count], from, to).unwrap_or(self.credits)
    }

    /// The credits of each ordered pair of nodes that has none of its own.
    pub fn base_credits(&self) -> u16
        ensures { result ≡ self.now.credits }
    {
        self.credits
    }

    /// The same settings for datagrams of version 2, in whose limits they are too.
    pub fn upgraded(&self) -> Settings
        ensures { result ≡ as_version_2 self.now }
    {
        Settings {
            version: 2,
            ..*self
        }
    }

    /// The pairs that have credits of their own, in the order in which they were set.
    pub fn pairs(&self) -> &[PairCredits]
        ensures { result.now ≡ self.now.pairs }
    {
        &self.places[..self.count]
    }

    /// How many client threads each node has.
    pub fn threads(&self) -> u16
        ensures { result ≡ self.now.threads }
    {
        self.threads
    }

    /// How many bytes each node's segment has.
    pub fn segment(&self) -> u64
        ensures { result ≡ self.now.segment }
    {
        self.segment
    }

    /// The last number that a request may have.
    pub fn last(&self) -> u64
        ensures { result ≡ self.now.last }
    {
        self.last
    }

    /// The retransmission time-out (RTO): the time without a reply after which a request is sent again, in the unit of
    /// the calls' `now`.
    pub fn resend(&self) -> u64
        ensures { result ≡ self.now.resend }
    {
        self.resend
    }
}
