//! A link before another link that loses, repeats and swaps datagrams, by their numbers.

ghost use Rattle.std.specs.Prelude.{◌≡◌, ◌≢◌, ◌≤◌, ◌∷◌, [], length, None, Some, MatchResult};
ghost use Rattle.std.specs.Prelude.{option_to_list, if◌then◌else◌};
ghost use Rattle.base_io.specs.Faults.{Rose};
ghost use Rattle.base_io.specs.Link.{BoundTold, SentTold, ReceivedTold, WaitingTold, IsFailed};
ghost use Rattle.base_io.specs.Link.{IsReceiveFailed};
ghost use Rattle.base_io.specs.Sieve.{Sieving, Plan, Follows, KeepsInner, next_plan, with_next_number, is_plain_sieve};
ghost use Rattle.base_io.specs.Sieve.{rule_for, divides as divides_exactly};

use crate::link::{Link, LinkAnswer, MAX_DATAGRAM, Received};
use crate::sieve_rule::SieveRule;
use std::alloc::Global;
use std::marker::Model;

/// A link that loses, repeats and swaps some of the datagrams that it sends by the link behind it.
///
/// It numbers the datagrams that are handed to it from 1, up to 2^64 - 1. The first of these rules that applies to
/// datagram c decides.
///
/// 1. Where `lose` isn't 0 and divides c, it is lost.
/// 2. Where `repeat` isn't 0 and divides c, it is sent twice.
/// 3. Where `swap` isn't 0 and divides c, and it has at most 8,296 bytes, it is held back; one that was held before is
///    sent first.
/// 4. Else it is sent once.
///
/// A datagram that is held is sent after the next one that rule 2 or rule 4 sends. What a sieve tells is what the link
/// behind tells, and so is its count of faults; but what was sent it tells only where the three numbers are 0.
#[derive(Drop)]
pub struct Sieve<L: Link> {
    inner: L,
    lose: u32,
    repeat: u32,
    swap: u32,
    number: u64,
    held: Option<u16>,
    buffer: Vec<u8>,
}

impl<L: Link> Model for Sieve<L> {
    ghost use Rattle.std.specs.Prelude.{◌≡◌, ◌≤◌, None, option_map, vec_capacity};
    ghost use Rattle.base_io.specs.Sieve.{Sieving};
    ghost use Rattle.base_io.specs.declared.link.TheConstants.{MAX_DATAGRAM};

    ghost Value = { Sieving L };

    ghost view = { λ s. record {
      inner = s.inner;
      lose = s.lose;
      repeat = s.repeat;
      swap = s.swap;
      number = s.number;
      held = option_map (λ to. (to, s.buffer.items)) s.held;
    } };

    ghost invariant = { λ s. (MAX_DATAGRAM ≤ vec_capacity s.buffer) × (s.swap ≡ 0 → s.held ≡ None) };
}

impl<L: Link> Sieve<L> {
    /// A sieve before this link that was handed nothing yet. For want of memory it hands the link back.
    pub fn new(alloc: Global, inner: L, lose: u32, repeat: u32, swap: u32) -> Result<Sieve<L>, L>
        ensures { let made : Sieving L = record {
          inner = inner;
          lose = lose;
          repeat = repeat;
          swap = swap;
          number = 0;
          held = None;
        } in MatchResult result (λ sieve. sieve ≡ made) (λ back. back ≡ inner) }
    {
        match Vec::with_capacity(alloc, MAX_DATAGRAM) {
            Err(_) => Err(inner),
            Ok(buffer) => Ok(Sieve {
                inner,
                lose,
                repeat,
                swap,
                number: 0,
                held: None,
                buffer,
            }),
        }
    }

    /// The link behind; a datagram that is held back is dropped.
    pub fn into_inner(self) -> L
        ensures { result ≡ self.inner }
    {
        self.inner
    }

    /// Sends a datagram by the rule for its number, as `send` does.
    ///
    /// The first send of the link behind that fails ends the call as `Failed`: that datagram is dropped, the one handed
    /// in isn't held back, and an earlier one that is still held stays held. Where `swap` is 0 none is ever held.
    pub fn hand(&mut self, to: u16, bytes: &[u8]) -> LinkAnswer
        ensures follows { Follows L.Link (next_plan self.old (to, bytes.now))
            (with_next_number self.old) result self.new }
        ensures keeps { KeepsInner L.Link self.old.inner self.new.inner }
        ensures unheld { self.old.swap ≡ 0 → self.old.held ≡ None }
    {
        self.number = self.number.saturating_add(1);
        match self.rule(bytes.len()) {
            SieveRule::Lose => LinkAnswer::Done,
            SieveRule::Repeat => match self.inner.send(to, bytes) {
                LinkAnswer::Failed => LinkAnswer::Failed,
                LinkAnswer::Done => self.pass(to, bytes),
            },
            SieveRule::HoldBack => match self.send_held() {
                LinkAnswer::Failed => LinkAnswer::Failed,
                LinkAnswer::Done => self.hold(to, bytes),
            },
            SieveRule::Pass => self.pass(to, bytes),
        }
    }

    /// The rule for the datagram that was handed in last, which has so many bytes.
    fn rule(&self, len: usize) -> SieveRule
        ensures { result ≡ rule_for self.now self.now.number len }
    {
        if divides(self.lose, self.number) {
            SieveRule::Lose
        } else if divides(self.repeat, self.number) {
            SieveRule::Repeat
        } else if divides(self.swap, self.number) && len <= MAX_DATAGRAM {
            SieveRule::HoldBack
        } else {
            SieveRule::Pass
        }
    }

    /// Sends a datagram, and then the one that is held back.
    fn pass(&mut self, to: u16, bytes: &[u8]) -> LinkAnswer
        ensures follows { let plan : Plan = record {
          own = (to, bytes.now) ∷ [];
          freed = option_to_list self.old.held;
          held = None;
        } in Follows L.Link plan self.old result self.new }
        ensures keeps { KeepsInner L.Link self.old.inner self.new.inner }
    {
        match self.inner.send(to, bytes) {
            LinkAnswer::Failed => LinkAnswer::Failed,
            LinkAnswer::Done => self.send_held(),
        }
    }

    /// Sends the datagram that is held back, where there is one. It is held no more, also where that failed.
    fn send_held(&mut self) -> LinkAnswer
        ensures follows { let plan : Plan = record {
          own = [];
          freed = option_to_list self.old.held;
          held = None;
        } in Follows L.Link plan self.old result self.new }
        ensures keeps { KeepsInner L.Link self.old.inner self.new.inner }
    {
        let Some(to) = self.held else {
            return LinkAnswer::Done;
        };
        self.held = None;
        self.inner.send(to, &self.buffer)
    }

    /// Holds a datagram back.
    fn hold(&mut self, to: u16, bytes: &[u8]) -> LinkAnswer
        requires room { length bytes.now ≤ MAX_DATAGRAM }
        requires swaps { self.old.swap ≢ 0 }
        ensures answer { result ≡ LinkAnswer.Done }
        ensures held { self.new ≡ record self.old { held = Some (to, bytes.now) } }
    {
        self.buffer.clear();
        if self.buffer.extend_from_slice(bytes).is_err() {
            unreachable!();
        }
        self.held = Some(to);
        LinkAnswer::Done
    }
}

/// Whether the step isn't 0, and divides the number.
fn divides(step: u32, number: u64) -> bool
    ensures { result ≡ divides_exactly step number }
{
    step != 0 && number % u64::from(step) == 0
}

impl<L: Link> Link for Sieve<L> {
    ghost use Rattle.std.specs.Prelude.{if◌then◌else◌, None};
    ghost use Rattle.base_io.specs.Sieve.{is_plain_sieve};

    ghost bound = { λ s. L.bound s.inner };

    ghost sent = { λ s. if is_plain_sieve s then L.sent s.inner else None };

    ghost received = { λ s. L.received s.inner };

    ghost waiting = { λ s. L.waiting s.inner };

    ghost faults = { λ s. L.faults s.inner };

    /// Binds the link behind.
    fn bind(&mut self, rank: u16, nodes: u16, port: u16) -> LinkAnswer
        ensures bound { BoundTold result (rank, nodes, port) (L.bound self.old.inner)
            (L.bound self.new.inner) }
        ensures sent { (if is_plain_sieve self.new then L.sent self.new.inner else None)
            ≡ (if is_plain_sieve self.old then L.sent self.old.inner else None) }
        ensures unsent { L.sent self.new.inner ≡ L.sent self.old.inner }
        ensures received { L.received self.new.inner ≡ L.received self.old.inner }
        ensures waiting { L.waiting self.new.inner ≡ L.waiting self.old.inner }
        ensures later { L.faults self.old.inner ≤ L.faults self.new.inner }
        ensures cause { IsFailed result
            → Rose (L.faults self.old.inner) (L.faults self.new.inner) }
        ensures same { self.new ≡ record self.old { inner = self.new.inner } }
    {
        self.inner.bind(rank, nodes, port)
    }

    /// Sends a datagram by the rule for its number, as `hand` does.
    fn send(&mut self, to: u16, bytes: &[u8]) -> LinkAnswer
        ensures sent { SentTold result (to, bytes.now)
            (if is_plain_sieve self.old then L.sent self.old.inner else None)
            (if is_plain_sieve self.new then L.sent self.new.inner else None) }
        ensures bound { L.bound self.new.inner ≡ L.bound self.old.inner }
        ensures received { L.received self.new.inner ≡ L.received self.old.inner }
        ensures waiting { L.waiting self.new.inner ≡ L.waiting self.old.inner }
        ensures later { L.faults self.old.inner ≤ L.faults self.new.inner }
        ensures cause { IsFailed result
            → Rose (L.faults self.old.inner) (L.faults self.new.inner) }
        ensures follows { Follows L.Link (next_plan self.old (to, bytes.now))
            (with_next_number self.old) result self.new }
    {
        self.hand(to, bytes)
    }

    /// Receives by the link behind.
    fn receive(&mut self, buf: &mut [u8]) -> Received
        ensures received { ReceivedTold result buf.new (L.received self.old.inner)
            (L.received self.new.inner) }
        ensures waiting { WaitingTold result buf.new (L.waiting self.old.inner)
            (L.waiting self.new.inner) }
        ensures bound { L.bound self.new.inner ≡ L.bound self.old.inner }
        ensures sent { (if is_plain_sieve self.new then L.sent self.new.inner else None)
            ≡ (if is_plain_sieve self.old then L.sent self.old.inner else None) }
        ensures unsent { L.sent self.new.inner ≡ L.sent self.old.inner }
        ensures later { L.faults self.old.inner ≤ L.faults self.new.inner }
        ensures cause { IsReceiveFailed result
            → Rose (L.faults self.old.inner) (L.faults self.new.inner) }
        ensures same { self.new ≡ record self.old { inner = self.new.inner } }
    {
        self.inner.receive(buf)
    }
}
