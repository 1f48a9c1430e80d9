//! A link in memory, which tells all and fails where it is told to.

ghost use Rattle.std.specs.Prelude.{◌≡◌, ◌≤◌, ◌++◌, ◌∷◌, [], ◌<◌, length, None, Some, OnOk, OnErr};
ghost use Rattle.base_io.specs.Datagrams.{bytes_of, sent_of};
ghost use Rattle.base_io.specs.Faults.{Rose};
ghost use Rattle.base_io.specs.Link.{BoundTold, SentTold, ReceivedTold, WaitingTold, IsFailed};
ghost use Rattle.base_io.specs.Link.{IsReceiveFailed};
ghost use Rattle.base_io.specs.MemoryLink.{LinkState, BindsNext, SendsNext, ReceivesNext};
ghost use Rattle.base_io.specs.MemoryLink.{GivesDatagramAt};

use crate::link::{Link, LinkAnswer, Received};
use crate::memory::copy_prefix;
use std::alloc::{AllocError, Global};
use std::marker::Model;

/// A link that keeps the datagrams that it is sent, and gives those that it was made with.
///
/// It numbers its calls from 1, whatever their kind, up to 2^64 - 1, and fails at exactly those whose numbers it was
/// given, and where memory runs out for a datagram that is sent.
#[derive(Drop)]
pub struct MemoryLink {
    alloc: Global,
    bound: Option<(u16, u16, u16)>,
    sent: Vec<(u16, Vec<u8>)>,
    datagrams: Vec<Vec<u8>>,
    given: usize,
    fail: Vec<u64>,
    calls: u64,
    faults: u64,
}

impl Model for MemoryLink {
    ghost use Rattle.std.specs.Prelude.{take, drop, ◌≤◌, length};
    ghost use Rattle.base_io.specs.Datagrams.{bytes_of, sent_of};
    ghost use Rattle.base_io.specs.MemoryLink.{LinkState};

    ghost Value = { LinkState };

    ghost view = { λ s. record {
      bound = s.bound;
      sent = sent_of s.sent.items;
      received = take s.given (bytes_of s.datagrams.items);
      waiting = drop s.given (bytes_of s.datagrams.items);
      fail = s.fail.items;
      calls = s.calls;
      faults = s.faults;
    } };

    ghost invariant = { λ s. s.given ≤ length s.datagrams.items };
}

impl MemoryLink {
    /// A link that isn't bound yet, where these datagrams wait, in order, and that fails at the calls with the numbers
    /// of `fail`, from 1.
    ///
    /// It takes no memory yet, and so is never refused.
    pub fn new(
        alloc: Global,
        waiting: Vec<Vec<u8>>,
        fail: Vec<u64>,
    ) -> Result<MemoryLink, AllocError>
        ensures { let made : LinkState = record {
          bound = None;
          sent = [];
          received = [];
          waiting = bytes_of waiting.items;
          fail = fail.items;
          calls = 0;
          faults = 0;
        } in result ≡ Ok made }
    {
        Ok(MemoryLink {
            alloc,
            bound: None,
            sent: Vec::new(alloc),
            datagrams: waiting,
            given: 0,
            fail,
            calls: 0,
            faults: 0,
        })
    }

    /// The datagrams sent, each with the rank of the node that it went to, in order.
    pub fn sent(&self) -> &[(u16, Vec<u8>)]
        ensures { sent_of result.now ≡ self.now.sent }
    {
        &self.sent
    }
}

/// Keeps a copy of a datagram, with the node that it went to.
fn keep(
    alloc: Global,
    sent: &mut Vec<(u16, Vec<u8>)>,
    to: u16,
    bytes: &[u8],
) -> Result<(), AllocError>
    ensures ok { OnOk result
        (sent_of sent.new.items ≡ sent_of sent.old.items ++ (to, bytes.now) ∷ []) }
    ensures err { OnErr result (sent_of sent.new.items ≡ sent_of sent.old.items) }
{
    let copy = bytes.to_vec(alloc)?;
    sent.push((to, copy))?;
    Ok(())
}

impl Link for MemoryLink {
    ghost use Rattle.std.specs.Prelude.{Some};

    ghost bound = { λ s. s.bound };

    ghost sent = { λ s. Some s.sent };

    ghost received = { λ s. Some s.received };

    ghost waiting = { λ s. Some s.waiting };

    ghost faults = { λ s. s.faults };

    /// `Failed` exactly where this call's number is listed.
    fn bind(&mut self, rank: u16, nodes: u16, port: u16) -> LinkAnswer
        ensures bound { BoundTold result (rank, nodes, port) self.old.bound self.new.bound }
        ensures sent { Some self.new.sent ≡ Some self.old.sent }
        ensures received { Some self.new.received ≡ Some self.old.received }
        ensures waiting { Some self.new.waiting ≡ Some self.old.waiting }
        ensures later { self.old.faults ≤ self.new.faults }
        ensures cause { IsFailed result → Rose self.old.faults self.new.faults }
        ensures exact { BindsNext self.old self.new result (rank, nodes, port) }
    {
        self.calls = self.calls.saturating_add(1);
        if self.fail.contains(&self.calls) {
            self.faults = self.faults.saturating_add(1);
            return LinkAnswer::Failed;
        }
        self.bound = Some((rank, nodes, port));
        LinkAnswer::Done
    }

    /// `Failed` where this call's number is listed, or where memory ran out.
    fn send(&mut self, to: u16, bytes: &[u8]) -> LinkAnswer
        ensures sent { SentTold result (to, bytes.now) (Some self.old.sent) (Some self.new.sent) }
        ensures bound { self.new.bound ≡ self.old.bound }
        ensures received { Some self.new.received ≡ Some self.old.received }
        ensures waiting { Some self.new.waiting ≡ Some self.old.waiting }
        ensures later { self.old.faults ≤ self.new.faults }
        ensures cause { IsFailed result → Rose self.old.faults self.new.faults }
        ensures exact { SendsNext self.old self.new result (to, bytes.now) }
    {
        self.calls = self.calls.saturating_add(1);
        if self.fail.contains(&self.calls) || keep(self.alloc, &mut self.sent, to, bytes).is_err() {
            self.faults = self.faults.saturating_add(1);
            return LinkAnswer::Failed;
        }
        LinkAnswer::Done
    }

    /// The first datagram that waits, or as much of it as there is room for; `Failed` exactly where this call's number
    /// is listed, and else `Empty` exactly where none waits.
    fn receive(&mut self, buf: &mut [u8]) -> Received
        ensures received { ReceivedTold result buf.new
            (Some self.old.received) (Some self.new.received) }
        ensures waiting { WaitingTold result buf.new
            (Some self.old.waiting) (Some self.new.waiting) }
        ensures bound { self.new.bound ≡ self.old.bound }
        ensures sent { Some self.new.sent ≡ Some self.old.sent }
        ensures later { self.old.faults ≤ self.new.faults }
        ensures cause { IsReceiveFailed result → Rose self.old.faults self.new.faults }
        ensures exact { ReceivesNext self.old self.new result buf.old buf.new }
    {
        self.calls = self.calls.saturating_add(1);
        if self.fail.contains(&self.calls) {
            self.faults = self.faults.saturating_add(1);
            return Received::Failed;
        }
        if self.given >= self.datagrams.len() {
            return Received::Empty;
        }
        let n = give_at(&mut self.datagrams, self.given, buf);
        self.given += 1;
        Received::Got(n)
    }
}

/// Gives as much of the datagram at this place as there is room for, cuts it to that, and answers how much it is.
fn give_at(datagrams: &mut Vec<Vec<u8>>, place: usize, buf: &mut [u8]) -> usize
    requires { place < length datagrams.old.items }
    ensures { GivesDatagramAt (record {
      place = place;
      count = result;
      old = bytes_of datagrams.old.items;
      new = bytes_of datagrams.new.items;
      room = buf.old;
      filled = buf.new;
    }) }
{
    let datagram = &mut datagrams[place];
    let n = copy_prefix(datagram, buf);
    datagram.truncate(n);
    n
}
